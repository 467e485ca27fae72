ghost use Rattle.std.specs.Prelude.{◌≡◌, ◌+◌, ◌-◌, ◌≤◌, ◌<◌, [], ◌++◌, length, Some, None, IsSome, IfSome, slice_index_or, slice_set, map};
ghost use Rattle.sa_base.specs.Items.{items_at};
ghost use Rattle.sa_acts.specs.Table.{acts_of, held_of, taken_in, IsRunning};
ghost use Rattle.sa_devices.specs.Ios.{io_at};
ghost use Rattle.sa_base.specs.Recorded.{Adds};
ghost use Rattle.sa_kernel_model.specs.Entries.{io_for, thread_of, without_acts, IsOwnPage};

use crate::parts::Parts;
use sa_acts::Acts;
use sa_base::{
    ActNo, IoNo, MAX_PROCESSORS, Note, ProcNo, Record, SpaceNo, Stopped, ThreadNo, Trace,
};
use sa_devices::IoKind;
use sa_kernel_model::Given;

impl<C: Drop> Parts<C> {
    ghost use Rattle.sa_kernel.specs.View.{state_of, scene_of, used, Spends};
    ghost use Rattle.sa_kernel.specs.Needs.{HasProc, HasSpace, MayUpcall, MayBegin};
    ghost use Rattle.sa_kernel_model.specs.State.{owner_of, aim_of, life_of, demand_of};
    ghost use Rattle.sa_kernel_model.specs.Sound.{IsFormed, HasSizes, AreSpaces, AreIos, AreAlive};
    ghost use Rattle.sa_kernel_model.specs.Enters.{Enters, upcalls_for, upcalls_in, untold_count, taken_count};
    ghost use Rattle.sa_kernel_model.specs.Parts.{go_to, raised};
    ghost use Rattle.sa_kernel_model.specs.Entries.{stopped, go_to_aim, interrupted, block_begun, blocked, kind_at, come_back, over, more, idled, announced, gave_back};

    // The context that ran on a processor, if one did, is stopped by an interrupt.
    fn stop(&mut self, event: u64, p: ProcNo, held: Option<Stopped<C>>, trace: &mut Trace)
        requires proc { HasProc (state_of self.old) p }
        requires owners { AreSpaces (length self.old.demands.items) self.old.assign.owners }
        requires lives { AreAlive self.old.assign.owners self.old.lives.items (state_of self.old).acts }
        requires room { 1 ≤ self.old.notices.spare }
        requires trace { 1 ≤ trace.old.spare }
        ensures exact { let k = state_of self.old in scene_of self.new trace.new
            ≡ stopped event p (owner_of k p) (life_of k p) held (scene_of self.old trace.old) }
        ensures room { Spends self.old self.new 1 0 0 }
        ensures items { Adds 1 trace.old trace.new }
    {
        let Some(held) = held else {
            return;
        };
        let Some(s) = self.assign.owner(p) else {
            return;
        };
        let Some(a) = self.life(p) else {
            return;
        };
        trace.say(event, p, Record::Stop(s, held.thread, a));
        self.put_aside(p, s, a, Note::Preempted(a), held);
    }

    // A processor goes to its aim, if it has one.
    fn go_to_aim(&mut self, event: u64, p: ProcNo, aim: Option<SpaceNo>, trace: &mut Trace) -> Given
        requires proc { HasProc (state_of self.old) p }
        requires aim { IfSome aim (λ s. s.0 < length self.old.demands.items) }
        requires upcall { MayUpcall self.old }
        requires ios { MayBegin self.old event 1 }
        requires trace { 3 + untold_count (state_of self.old) ≤ trace.old.spare }
        ensures exact { Enters (scene_of self.old trace.old) (scene_of self.new trace.new) result
            (upcalls_for (state_of self.old) aim) (λ a. go_to_aim event p a aim) }
        ensures room { Spends self.old self.new 0 1 1 }
        ensures items { Adds (3 + untold_count (state_of self.old)) trace.old trace.new }
    {
        match aim {
            None => Given::Nothing,
            Some(s) => self.go_to(event, p, s, trace),
        }
    }

    /// The line of a processor is lowered, the context that ran there is stopped, and the processor goes to its aim.
    pub(crate) fn interrupt(
        &mut self,
        event: u64,
        p: ProcNo,
        held: Option<Stopped<C>>,
        trace: &mut Trace,
    ) -> Given
        requires sound { IsFormed (state_of self.old) }
        requires within { p.0 < length self.old.lives.items }
        requires notes { 1 ≤ self.old.notices.spare }
        requires upcall { MayUpcall self.old }
        requires ios { MayBegin self.old event 1 }
        requires trace { 5 + untold_count (state_of self.old) ≤ trace.old.spare }
        ensures exact { let k = state_of self.old in
            Enters (scene_of self.old trace.old) (scene_of self.new trace.new) result
            (upcalls_for k (aim_of k p)) (λ a. interrupted event p a held) }
        ensures room { Spends self.old self.new 1 1 1 }
        ensures items { Adds (5 + untold_count (state_of self.old)) trace.old trace.new }
    {
        let aim = self.assign.aim(p);
        self.assign.lower(p);
        self.stop(event, p, held, trace);
        self.go_to_aim(event, p, aim, trace)
    }

    // The demand of a space is another, and the processor is marked idle or not.
    fn announce(&mut self, event: u64, p: ProcNo, s: SpaceNo, n: u16, idle: bool, trace: &mut Trace)
        requires proc { HasProc (state_of self.old) p }
        requires space { HasSpace (state_of self.old) s }
        requires trace { 1 ≤ trace.old.spare }
        ensures exact { scene_of self.new trace.new
            ≡ announced event p s n idle (scene_of self.old trace.old) }
        ensures room { Spends self.old self.new 0 0 0 }
        ensures items { Adds 1 trace.old trace.new }
    {
        self.demands[usize::from(s.0)] = n;
        self.assign.mark(p, idle);
        trace.say(event, p, Record::Want(s, n));
    }

    /// The space can use that many more processors.
    pub(crate) fn more(&mut self, event: u64, p: ProcNo, n: u16, trace: &mut Trace)
        requires sound { IsFormed (state_of self.old) }
        requires within { p.0 < length self.old.lives.items }
        requires few { (s : SpaceNo) → owner_of (state_of self.old) p ≡ Some s
            → demand_of (state_of self.old) s.0 + n ≤ MAX_PROCESSORS }
        requires trace { 1 ≤ trace.old.spare }
        ensures exact { scene_of self.new trace.new
            ≡ more event p n (owner_of (state_of self.old) p) (scene_of self.old trace.old) }
        ensures room { Spends self.old self.new 0 0 0 }
        ensures items { Adds 1 trace.old trace.new }
    {
        if let Some(s) = self.assign.owner(p) {
            let demand = self.demands[usize::from(s.0)];
            self.announce(event, p, s, demand + n, false, trace);
        }
    }

    /// This processor is idle.
    pub(crate) fn idle(&mut self, event: u64, p: ProcNo, trace: &mut Trace)
        requires sound { IsFormed (state_of self.old) }
        requires within { p.0 < length self.old.lives.items }
        requires trace { 1 ≤ trace.old.spare }
        ensures exact { scene_of self.new trace.new
            ≡ idled event p (owner_of (state_of self.old) p) (scene_of self.old trace.old) }
        ensures room { Spends self.old self.new 0 0 0 }
        ensures items { Adds 1 trace.old trace.new }
    {
        if let Some(s) = self.assign.owner(p) {
            let fewer = self.demands[usize::from(s.0)].saturating_sub(1);
            self.announce(event, p, s, fewer, true, trace);
        }
    }

    /// The line of a processor is raised.
    pub(crate) fn raise(&mut self, event: u64, p: ProcNo, q: ProcNo, trace: &mut Trace)
        requires proc { HasProc (state_of self.old) q }
        requires low { slice_index_or self.old.assign.lines q.0 None ≡ None }
        requires trace { 1 ≤ trace.old.spare }
        ensures exact { scene_of self.new trace.new ≡ raised event p q (scene_of self.old trace.old) }
        ensures sizes { HasSizes (state_of self.new) }
        ensures spaces { length self.new.demands.items ≡ length self.old.demands.items }
        ensures room { Spends self.old self.new 0 0 0 }
        ensures items { Adds 1 trace.old trace.new }
    {
        self.assign.raise(q, event);
        trace.say(event, p, Record::Line(q));
    }

    // The I/O of a block begins, and the context is held.
    fn begin_block(
        &mut self,
        event: u64,
        p: ProcNo,
        s: SpaceNo,
        a: ActNo,
        held: Stopped<C>,
        len: u32,
        page: Option<u16>,
        trace: &mut Trace,
    )
        requires proc { HasProc (state_of self.old) p }
        requires running { IsRunning ((state_of self.old).acts a.0) }
        requires space { HasSpace (state_of self.old) s }
        requires page { IfSome page IsOwnPage }
        requires notes { 1 ≤ self.old.notices.spare }
        requires ios { MayBegin self.old event 1 }
        requires trace { 1 ≤ trace.old.spare }
        ensures exact { scene_of self.new trace.new
            ≡ block_begun event p s a held len page (scene_of self.old trace.old) }
        ensures room { Spends self.old self.new 1 0 1 }
        ensures items { Adds 1 trace.old trace.new }
    {
        let io = self.devices.begin(io_for(s, a, page), event, len);
        trace.say(event, p, Record::Block(s, held.thread, a, io));
        self.put_aside(p, s, a, Note::Blocked(a), held);
    }

    /// The running context blocks.
    pub(crate) fn block(
        &mut self,
        event: u64,
        p: ProcNo,
        held: Stopped<C>,
        len: u32,
        page: Option<u16>,
        trace: &mut Trace,
    ) -> Given
        requires sound { IsFormed (state_of self.old) }
        requires within { p.0 < length self.old.lives.items }
        requires page { IfSome page IsOwnPage }
        requires notes { 1 ≤ self.old.notices.spare }
        requires upcall { MayUpcall self.old }
        requires ios { MayBegin self.old event 2 }
        requires trace { 5 + untold_count (state_of self.old) ≤ trace.old.spare }
        ensures exact { let k = state_of self.old in
            Enters (scene_of self.old trace.old) (scene_of self.new trace.new) result
            (upcalls_in k (owner_of k p) (life_of k p)) (λ a. blocked event p a held len page) }
        ensures room { Spends self.old self.new 1 1 2 }
        ensures items { Adds (5 + untold_count (state_of self.old)) trace.old trace.new }
    {
        let Some(s) = self.assign.owner(p) else {
            return Given::Nothing;
        };
        let Some(a) = self.life(p) else {
            return Given::Nothing;
        };
        self.begin_block(event, p, s, a, held, len, page, trace);
        self.go_to(event, p, s, trace)
    }

    // The thread that the context held of an activation carries.
    fn thread_held(&self, a: ActNo) -> Option<ThreadNo>
        ensures { result ≡ thread_of (held_of ((state_of self.now).acts a.0)) }
    {
        match self.acts.held(a) {
            None => None,
            Some(held) => held.thread,
        }
    }

    // A context has come back, which its space is to be told.
    fn come_back(&mut self, event: u64, p: ProcNo, s: SpaceNo, a: ActNo, trace: &mut Trace)
        requires space { s.0 < length self.old.notices.untold }
        requires notes { 1 ≤ self.old.notices.spare }
        requires trace { 1 ≤ trace.old.spare }
        ensures exact { scene_of self.new trace.new
            ≡ come_back event p s a (scene_of self.old trace.old) }
        ensures room { Spends self.old self.new 1 0 0 }
        ensures items { Adds 1 trace.old trace.new }
    {
        let thread = self.thread_held(a);
        self.notices.add(s, Note::Unblocked(a));
        trace.say(event, p, Record::Unblock(s, thread, a));
    }

    /// An I/O is over: a context has come back, or the upcall page of a space is there.
    pub(crate) fn complete(&mut self, event: u64, p: ProcNo, io: IoNo, trace: &mut Trace)
        requires sizes { HasSizes (state_of self.old) }
        requires kinds { AreIos (length self.old.demands.items) self.old.devices.ios.under_way }
        requires under_way { IsSome (io_at io.0 self.old.devices.ios.under_way) }
        requires notes { 1 ≤ self.old.notices.spare }
        requires trace { 1 ≤ trace.old.spare }
        ensures exact { scene_of self.new trace.new
            ≡ over event p io (kind_at io.0 self.old.devices.ios.under_way) (scene_of self.old trace.old) }
        ensures room { Spends self.old self.new 1 0 0 }
        ensures items { Adds 1 trace.old trace.new }
    {
        match self.devices.complete(io) {
            IoKind::Plain(s, a) => self.come_back(event, p, s, a, trace),
            IoKind::Page(s, a, _) => self.come_back(event, p, s, a, trace),
            IoKind::Upcall(s) => trace.say(event, p, Record::Fetched(s)),
        }
    }

    /// The taken activations of the space that owns the processor are given back.
    pub(crate) fn give_back(&mut self, event: u64, p: ProcNo, trace: &mut Trace)
        requires proc { HasProc (state_of self.old) p }
        requires trace { taken_count (state_of self.old) ≤ trace.old.spare }
        ensures exact { scene_of self.new trace.new
            ≡ gave_back event p (owner_of (state_of self.old) p) (scene_of self.old trace.old) }
        ensures room { Spends self.old self.new 0 0 0 }
        ensures items { Adds (taken_count (state_of self.old)) trace.old trace.new }
    {
        if let Some(s) = self.assign.owner(p) {
            give_all_back(&mut self.acts, s, event, p, trace);
        }
    }
}

// What the I/O of a block is for.
fn io_for(s: SpaceNo, a: ActNo, page: Option<u16>) -> IoKind
    ensures { result ≡ io_for s a page }
{
    match page {
        None => IoKind::Plain(s, a),
        Some(k) => IoKind::Page(s, a, k),
    }
}

// The taken activations of a space are given back, in the order of taking.
fn give_all_back<C: Drop>(acts: &mut Acts<C>, s: SpaceNo, event: u64, p: ProcNo, trace: &mut Trace)
    requires { length (taken_in (acts_of acts.old) s.0) ≤ trace.old.spare }
    ensures acts { (acts_of acts.new).acts
        ≡ without_acts (taken_in (acts_of acts.old) s.0) (acts_of acts.old).acts }
    ensures taken { acts.new.taken ≡ slice_set acts.old.taken s.0 [] }
    ensures items { trace.new.items ≡ trace.old.items
        ++ items_at event p (map Record.GiveBack (taken_in (acts_of acts.old) s.0)) }
    ensures spare { acts.new.spare ≡ acts.old.spare }
    ensures used { (acts_of acts.new).used ≤ (acts_of acts.old).used }
    ensures room { Adds (length (taken_in (acts_of acts.old) s.0)) trace.old trace.new }
{
    for _ in 0..acts.taken(s) {
        give_one_back(acts, s, event, p, trace);
    }
}

// The activation that was taken first is given back: what is left to be done makes up the rest.
fn give_one_back<C: Drop>(acts: &mut Acts<C>, s: SpaceNo, event: u64, p: ProcNo, trace: &mut Trace)
    requires some { 1 ≤ length (taken_in (acts_of acts.old) s.0) }
    requires trace { 1 ≤ trace.old.spare }
    ensures acts { without_acts (taken_in (acts_of acts.new) s.0) (acts_of acts.new).acts
        ≡ without_acts (taken_in (acts_of acts.old) s.0) (acts_of acts.old).acts }
    ensures taken { slice_set acts.new.taken s.0 [] ≡ slice_set acts.old.taken s.0 [] }
    ensures items { trace.new.items ++ items_at event p (map Record.GiveBack (taken_in (acts_of acts.new) s.0))
        ≡ trace.old.items ++ items_at event p (map Record.GiveBack (taken_in (acts_of acts.old) s.0)) }
    ensures left { length (taken_in (acts_of acts.new) s.0) + 1 ≡ length (taken_in (acts_of acts.old) s.0) }
    ensures spare { acts.new.spare ≡ acts.old.spare }
    ensures used { (acts_of acts.new).used ≤ (acts_of acts.old).used }
    ensures room { Adds 1 trace.old trace.new }
{
    let Some(a) = acts.give_back(s) else {
        return;
    };
    trace.say(event, p, Record::GiveBack(a));
}
