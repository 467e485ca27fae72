ghost use Rattle.std.specs.Prelude.{◌≡◌, ◌+◌, ◌≤◌, ◌<◌, length, Some, None};
ghost use Rattle.sa_acts.specs.Table.{IsRunning};
ghost use Rattle.sa_assign.specs.Aims.{is_aim};
ghost use Rattle.sa_base.specs.Recorded.{Adds};

use sa_acts::Acts;
use sa_assign::Assign;
use sa_base::{ActNo, Note, ProcNo, Record, SpaceNo, Stopped, Trace, UPCALL_PAGE, has_page};
use sa_batch::Notices;
use sa_devices::{Devices, IoKind};
use sa_kernel_model::Given;

/// The parts of the kernel.
#[derive(Drop)]
pub(crate) struct Parts<C: Drop> {
    pub(crate) fetch: u32,
    pub(crate) slice: u32,
    pub(crate) priorities: Vec<u8>,
    pub(crate) assign: Assign,
    pub(crate) acts: Acts<C>,
    pub(crate) devices: Devices,
    pub(crate) lives: Vec<Option<ActNo>>,
    pub(crate) demands: Vec<u16>,
    pub(crate) notices: Notices,
}

impl<C: Drop> Parts<C> {
    ghost use Rattle.sa_kernel.specs.View.{state_of, scene_of, Spends};
    ghost use Rattle.sa_kernel.specs.Needs.{HasProc, HasSpace, MayUpcall, MayBegin};
    ghost use Rattle.sa_kernel_model.specs.State.{life_of, can_upcall, untold_of};
    ghost use Rattle.sa_batch.specs.Notices.{notes_told};
    ghost use Rattle.sa_kernel_model.specs.Parts.{put_aside, run_in, upcall, leave, moved, go_to};
    ghost use Rattle.sa_kernel_model.specs.Enters.{Enters};

    /// The context that runs on a processor is no longer there: it is held, and its space is to be told.
    pub(crate) fn put_aside(
        &mut self,
        p: ProcNo,
        s: SpaceNo,
        a: ActNo,
        note: Note,
        held: Stopped<C>,
    )
        requires within { p.0 < length self.old.lives.items }
        requires space { s.0 < length self.old.notices.untold }
        requires running { IsRunning ((state_of self.old).acts a.0) }
        requires room { 1 ≤ self.old.notices.spare }
        ensures exact { state_of self.new ≡ put_aside p s a note held (state_of self.old) }
        ensures room { Spends self.old self.new 1 0 0 }
    {
        self.lives[usize::from(p.0)] = None;
        self.acts.save(a, held);
        self.notices.add(s, note);
    }

    // A fresh activation of a space runs on a processor; it tells what the space was not told.
    fn run_in(&mut self, p: ProcNo, s: SpaceNo, added: bool) -> ActNo
        requires proc { HasProc (state_of self.old) p }
        requires space { HasSpace (state_of self.old) s }
        requires upcall { MayUpcall self.old }
        ensures unused { (state_of self.old).acts result.0 ≡ None }
        ensures exact { state_of self.new
            ≡ run_in p s result (notes_told added p (untold_of (state_of self.old) s.0)) (state_of self.old) }
        ensures room { Spends self.old self.new 0 1 0 }
    {
        let a = self.acts.fresh(s);
        self.notices.tell(s, p, added);
        self.lives[usize::from(p.0)] = Some(a);
        self.assign.mark(p, false);
        a
    }

    /// An upcall in a fresh activation; `added` says that the space has just become the owner.
    pub(crate) fn upcall(
        &mut self,
        event: u64,
        p: ProcNo,
        s: SpaceNo,
        added: bool,
        trace: &mut Trace,
    ) -> ActNo
        requires proc { HasProc (state_of self.old) p }
        requires space { HasSpace (state_of self.old) s }
        requires upcall { MayUpcall self.old }
        requires trace { 2 + length (untold_of (state_of self.old) s.0) ≤ trace.old.spare }
        ensures unused { (state_of self.old).acts result.0 ≡ None }
        ensures exact { scene_of self.new trace.new
            ≡ upcall event p s result added (scene_of self.old trace.old) }
        ensures room { Spends self.old self.new 0 1 0 }
        ensures items { Adds (2 + length (untold_of (state_of self.old) s.0)) trace.old trace.new }
    {
        let a = self.run_in(p, s, added);
        trace.say(event, p, Record::Up(s, a));
        self.notices.say_told(event, p, trace);
        a
    }

    /// A processor is left for want of the upcall page of a space, which is fetched, unless it is on its way.
    pub(crate) fn leave(&mut self, event: u64, p: ProcNo, s: SpaceNo, trace: &mut Trace)
        requires proc { HasProc (state_of self.old) p }
        requires space { HasSpace (state_of self.old) s }
        requires ios { MayBegin self.old event 1 }
        requires trace { 3 ≤ trace.old.spare }
        ensures exact { scene_of self.new trace.new ≡ leave event p s (scene_of self.old trace.old) }
        ensures room { Spends self.old self.new 0 0 1 }
        ensures items { Adds 3 trace.old trace.new }
    {
        let owner = self.assign.owner(p);
        self.assign.set_owner(p, None);
        self.assign.clear_aim(p);
        trace.say(event, p, Record::Move(owner, None));
        trace.say(event, p, Record::Aim(p, None));
        if !self.devices.fetching(s) {
            let _io = self.devices.begin(IoKind::Upcall(s), event, self.fetch);
            trace.say(event, p, Record::Fetch(s));
        }
    }

    /// The activation that runs on a processor.
    pub(crate) fn life(&self, p: ProcNo) -> Option<ActNo>
        requires { p.0 < length self.now.lives.items }
        ensures { result ≡ life_of (state_of self.now) p }
    {
        self.lives[usize::from(p.0)]
    }

    /// Whether the upcall page of a space is resident.
    pub(crate) fn can_upcall(&self, s: SpaceNo) -> bool
        requires { HasSpace (state_of self.now) s }
        ensures { result ≡ can_upcall (state_of self.now) s }
    {
        has_page(self.devices.pages(s), UPCALL_PAGE)
    }

    // A space owns a processor, unless it does already.
    fn move_to(&mut self, event: u64, p: ProcNo, s: SpaceNo, owned: bool, trace: &mut Trace)
        requires proc { HasProc (state_of self.old) p }
        requires trace { 1 ≤ trace.old.spare }
        ensures exact { scene_of self.new trace.new ≡ moved event p s owned (scene_of self.old trace.old) }
        ensures room { Spends self.old self.new 0 0 0 }
        ensures items { Adds 1 trace.old trace.new }
    {
        if !owned {
            trace.say(event, p, Record::Move(self.assign.owner(p), Some(s)));
            self.assign.set_owner(p, Some(s));
        }
    }

    /// A processor goes to a space: by an upcall where its page is resident, else it is left.
    pub(crate) fn go_to(&mut self, event: u64, p: ProcNo, s: SpaceNo, trace: &mut Trace) -> Given
        requires proc { HasProc (state_of self.old) p }
        requires space { HasSpace (state_of self.old) s }
        requires upcall { MayUpcall self.old }
        requires ios { MayBegin self.old event 1 }
        requires trace { 3 + length (untold_of (state_of self.old) s.0) ≤ trace.old.spare }
        ensures exact { Enters (scene_of self.old trace.old) (scene_of self.new trace.new) result
            (can_upcall (state_of self.old) s) (λ a. go_to event p s a) }
        ensures room { Spends self.old self.new 0 1 1 }
        ensures items { Adds (3 + length (untold_of (state_of self.old) s.0)) trace.old trace.new }
    {
        if !self.can_upcall(s) {
            self.leave(event, p, s, trace);
            return Given::Nothing;
        }
        let owned = is_owner(self.assign.owner(p), s);
        self.move_to(event, p, s, owned, trace);
        Given::Upcall(self.upcall(event, p, s, !owned, trace))
    }
}

/// Whether this owner is the space.
pub(crate) fn is_owner(owner: Option<SpaceNo>, s: SpaceNo) -> bool
    ensures { result ≡ is_aim s.0 owner }
{
    match owner {
        None => false,
        Some(t) => t.0 == s.0,
    }
}
