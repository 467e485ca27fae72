// The machine in the middle of an event.
ghost use Rattle.std.specs.Prelude.{◌≡◌, ◌≢◌, ℕ, ◌+◌, ◌≤◌, ◌<◌, true, false, List, Some, None, IfOk, IsSome, [], ◌∷◌, length, replicate};
ghost use Rattle.sa_base.specs.declared.number.ActNo.{ActNo};
ghost use Rattle.sa_base.specs.declared.record.Note.{Note};
ghost use Rattle.sa_base.specs.declared.limits.TheConstants.{MAX_EVENTS};
ghost use Rattle.sa_kernel_model.specs.State.{owner_of, line_of};
ghost use Rattle.sa_kernel_model.specs.Entering.{MayEnter, upcalls};
ghost use Rattle.sa_kernel_model.specs.Sound.{AreClaimed};
ghost use Rattle.sa_core_model.specs.Machine.{context_begun, answered, stopped_in, stepped, without_context};
ghost use Rattle.sa_core_model.specs.Turn.{next_event, more_events, ticked, ends_slice, sliced, kernel_entered, told_one, told_all, welcomed_in, entered_on, hinted, blocked, interrupted, asked, turned_owned, gone_in, committed};
ghost use Rattle.sa_core_model.specs.End.{is_inside, is_any_inside, local_on};
ghost use Rattle.sa_core_model.specs.Run.{opening, CanGo};
ghost use Rattle.sa_core_model.specs.Standing.{Stands, IsBetween};
ghost use Rattle.sa_machine.specs.declared.users.TheConstants.{STEP_ITEMS};
ghost use Rattle.sa_machine.specs.View.{machine_of};
ghost use Rattle.sa_machine.specs.Room.{owed, Spends};
ghost use Rattle.sa_machine.specs.Needs.{ByFresh, Welcomes, IsNext, Asks};

use crate::users::{STEP_ITEMS, Users};
use sa_abstract::{SeatState, Step, UserLevel};
use sa_base::{IoNo, MAX_EVENTS, ProcNo, Record, SpaceNo, Stopped, Trace};
use sa_kernel::{ENTRY_ITEMS, Entry, Given, Kernel};
use sa_spaces::Workload;
use std::alloc::{AllocError, Global};

/// The items of an event at most, but for notices told and activations given back: a step's and an entry's.
pub const EVENT_ITEMS: usize = STEP_ITEMS + ENTRY_ITEMS;

/// The parts of the machine.
#[derive(Drop)]
pub struct MachineParts<U: UserLevel> {
    pub workload: Workload,
    pub kernel: Kernel<U::Ctx>,
    pub users: Users<U>,
    /// Of each processor, the context that runs there.
    pub contexts: Vec<Option<U::Ctx>>,
    pub trace: Trace,
    /// The number of the last event.
    pub events: u64,
}

// No context on any of the processors.
fn no_contexts<C: Drop>(alloc: Global, processors: u16) -> Result<Vec<Option<C>>, AllocError>
    ensures { IfOk result (λ contexts. contexts.items ≡ replicate processors None) }
{
    let mut contexts = Vec::new(alloc);
    for _p in 0..processors {
        contexts.push(None)?;
    }
    Ok(contexts)
}

impl<U: UserLevel> MachineParts<U> {
    /// The machine at the opening of a workload. Fails only where memory runs out.
    pub fn start(alloc: Global, w: Workload) -> Result<Self, AllocError>
        ensures opened { IfOk result (λ m. machine_of m ≡ opening U.calls w) }
        ensures owed { IfOk result (λ m. owed m ≡ 0) }
        ensures fetched { IfOk result (λ m. (machine_of m).kernel.telling ≡ []) }
        ensures last { IfOk result (λ m. m.kernel.last ≡ 0) }
    {
        let contexts = no_contexts(alloc, w.processors())?;
        let users = Users::start(alloc, &w)?;
        let mut trace = Trace::new(alloc);
        let kernel = Kernel::start(alloc, &w, &mut trace)?;
        Ok(MachineParts {
            workload: w,
            kernel,
            users,
            contexts,
            trace,
            events: 0,
        })
    }

    // Whether a slice ends with the last event.
    fn is_slice_end(&self) -> bool
        ensures { result ≡ ends_slice (machine_of self.now) }
    {
        let slice = u64::from(self.workload.slice());
        slice != 0 && self.events % slice == 0
    }

    // The context that runs on a processor, as it is handed over; it runs there no more.
    fn stop(&mut self, p: ProcNo) -> Option<Stopped<U::Ctx>>
        requires within { p.0 < self.old.workload.processors }
        requires stands { (e : ℕ) × Stands U.stands e (machine_of self.old) }
        ensures held { let m = machine_of self.old in
            result ≡ stopped_in U.calls m p (owner_of m.kernel p) }
        ensures machine { machine_of self.new ≡ without_context p (machine_of self.old) }
        ensures kernel { self.new.kernel ≡ self.old.kernel }
        ensures trace { self.new.trace ≡ self.old.trace }
    {
        let ctx = self.contexts[usize::from(p.0)].take();
        let s = self.kernel.owner(p)?;
        Some(self.users.stopped(s, ctx?))
    }

    // The context of an upcall begins.
    fn begin(&mut self, p: ProcNo, s: SpaceNo)
        requires welcomes { Welcomes U.calls U.stands p (machine_of self.old) }
        requires owner { owner_of (machine_of self.old).kernel p ≡ Some s }
        ensures machine { machine_of self.new ≡ context_begun U.calls p s (machine_of self.old) }
        ensures kernel { self.new.kernel ≡ self.old.kernel }
        ensures trace { self.new.trace ≡ self.old.trace }
    {
        let seen = self.kernel.seen(p, self.events);
        let ctx = self.users.begin(s, &seen);
        self.contexts[usize::from(p.0)] = Some(ctx);
    }

    // The context is told the next notice of its upcall, if one is left; whether one was.
    fn tell_one(&mut self, p: ProcNo, s: SpaceNo) -> bool
        requires stands { Stands U.stands self.old.events (machine_of self.old) }
        requires owner { owner_of (machine_of self.old).kernel p ≡ Some s }
        requires claimed { AreClaimed (machine_of self.old).kernel s.0 }
        ensures none { (machine_of self.old).kernel.telling ≡ []
            → (result ≡ false) × (machine_of self.new ≡ machine_of self.old) }
        ensures some { (note : Note) (notes : List Note)
            → (machine_of self.old).kernel.telling ≡ note ∷ notes
            → (result ≡ true)
            × (machine_of self.new ≡ told_one U.calls p s note notes (machine_of self.old)) }
        ensures spends { Spends self.old self.new 0 0 }
    {
        let Some((note, held)) = self.kernel.next_note() else {
            return false;
        };
        let Some(ctx) = &mut self.contexts[usize::from(p.0)] else {
            unreachable!()
        };
        self.users.told(s, ctx, note, held);
        true
    }

    // The context of an upcall is told all its notices.
    fn tell(&mut self, p: ProcNo, s: SpaceNo)
        requires stands { Stands U.stands self.old.events (machine_of self.old) }
        requires owner { owner_of (machine_of self.old).kernel p ≡ Some s }
        requires claimed { AreClaimed (machine_of self.old).kernel s.0 }
        ensures machine { machine_of self.new
            ≡ told_all U.calls p s (machine_of self.old).kernel.telling (machine_of self.old) }
        ensures stands { Stands U.stands self.new.events (machine_of self.new) }
        ensures owner { owner_of (machine_of self.new).kernel p ≡ Some s }
        ensures spends { Spends self.old self.new 0 0 }
    {
        let mut left = true;
        while left {
            left = self.tell_one(p, s);
        }
    }

    // The context goes on after its upcall, or after an entry that it asked for.
    fn respond(&mut self, p: ProcNo, s: SpaceNo)
        requires stands { Stands U.stands self.old.events (machine_of self.old) }
        requires owner { owner_of (machine_of self.old).kernel p ≡ Some s }
        ensures machine { machine_of self.new ≡ answered U.calls p s (machine_of self.old) }
        ensures kernel { self.new.kernel ≡ self.old.kernel }
        ensures trace { self.new.trace ≡ self.old.trace }
    {
        let Some(ctx) = &mut self.contexts[usize::from(p.0)] else {
            unreachable!()
        };
        let seen = self.kernel.seen(p, self.events);
        self.users.answered(s, &seen, ctx);
    }

    // The context of an upcall begins, is told what happened, and goes on.
    fn welcome(&mut self, p: ProcNo)
        requires { Welcomes U.calls U.stands p (machine_of self.old) }
        ensures machine { machine_of self.new
            ≡ welcomed_in U.calls p (owner_of (machine_of self.old).kernel p)
            (machine_of self.old) }
        ensures spends { Spends self.old self.new 0 0 }
    {
        let Some(s) = self.kernel.owner(p) else {
            unreachable!()
        };
        self.begin(p, s);
        self.tell(p, s);
        self.respond(p, s);
    }

    // An entry that may upcall.
    fn enter(&mut self, p: ProcNo, entry: Entry<U::Ctx>)
        requires within { p.0 < length (machine_of self.old).kernel.lives }
        requires later { self.old.kernel.last < self.old.events }
        requires event { self.old.events ≤ MAX_EVENTS }
        requires fit { MayEnter (machine_of self.old).kernel p self.old.events entry }
        requires fetched { (machine_of self.old).kernel.telling ≡ [] }
        requires welcomes { (fresh : ActNo) → (machine_of self.old).kernel.acts fresh.0 ≡ None
            → upcalls (machine_of self.old).kernel p entry ≡ true
            → Welcomes U.calls U.stands p (kernel_entered p fresh entry (machine_of self.old)) }
        requires entries { 1 ≤ self.old.kernel.spare }
        requires room { ENTRY_ITEMS + owed self.old ≤ self.old.trace.spare }
        ensures machine { ByFresh (machine_of self.old) (machine_of self.new)
            (λ fresh. entered_on U.calls p fresh entry (machine_of self.old)) }
        ensures spends { Spends self.old self.new ENTRY_ITEMS 1 }
    {
        let given = self.kernel.enter(p, self.events, entry, &mut self.trace);
        if given != Given::Nothing {
            self.welcome(p);
        }
    }

    /// The I/O that is due is over. Out of line, so that a turn does not pay for the entry.
    #[inline(never)]
    pub fn complete(&mut self, p: ProcNo, io: IoNo)
        requires within { p.0 < length (machine_of self.old).kernel.lives }
        requires later { self.old.kernel.last < self.old.events }
        requires event { self.old.events ≤ MAX_EVENTS }
        requires fit { MayEnter (machine_of self.old).kernel p self.old.events (Entry.Complete io) }
        requires fetched { (machine_of self.old).kernel.telling ≡ [] }
        requires welcomes { (fresh : ActNo) → (machine_of self.old).kernel.acts fresh.0 ≡ None
            → upcalls (machine_of self.old).kernel p (Entry.Complete io) ≡ true
            → Welcomes U.calls U.stands p (kernel_entered p fresh (Entry.Complete io) (machine_of self.old)) }
        requires entries { 1 ≤ self.old.kernel.spare }
        requires room { ENTRY_ITEMS + owed self.old ≤ self.old.trace.spare }
        ensures machine { ByFresh (machine_of self.old) (machine_of self.new)
            (λ fresh. entered_on U.calls p fresh (Entry.Complete io) (machine_of self.old)) }
        ensures spends { Spends self.old self.new ENTRY_ITEMS 1 }
    {
        self.enter(p, Entry::Complete(io));
    }

    // An entry that the running context asked for, after which it goes on.
    fn hint(&mut self, p: ProcNo, entry: Entry<U::Ctx>)
        requires within { p.0 < self.old.workload.processors }
        requires now { Stands U.stands self.old.events (machine_of self.old) }
        requires later { self.old.kernel.last < self.old.events }
        requires event { self.old.events ≤ MAX_EVENTS }
        requires fit { MayEnter (machine_of self.old).kernel p self.old.events entry }
        requires fetched { (machine_of self.old).kernel.telling ≡ [] }
        requires stands { (fresh : ActNo) → (machine_of self.old).kernel.acts fresh.0 ≡ None
            → Stands U.stands self.old.events (kernel_entered p fresh entry (machine_of self.old)) }
        requires entries { 1 ≤ self.old.kernel.spare }
        requires room { ENTRY_ITEMS + owed self.old ≤ self.old.trace.spare }
        ensures machine { ByFresh (machine_of self.old) (machine_of self.new)
            (λ fresh. hinted U.calls p fresh entry (machine_of self.old)) }
        ensures spends { Spends self.old self.new ENTRY_ITEMS 1 }
    {
        let _given = self.kernel.enter(p, self.events, entry, &mut self.trace);
        if let Some(s) = self.kernel.owner(p) {
            self.respond(p, s);
        }
    }

    // The running context blocks.
    #[inline(never)]
    fn block(&mut self, p: ProcNo, length: u32, page: Option<u16>)
        requires asks { Asks U.stands p (Step.Block length page) (machine_of self.old) }
        requires later { self.old.kernel.last < self.old.events }
        requires event { self.old.events ≤ MAX_EVENTS }
        requires entries { 1 ≤ self.old.kernel.spare }
        requires room { ENTRY_ITEMS + owed self.old ≤ self.old.trace.spare }
        ensures machine { ByFresh (machine_of self.old) (machine_of self.new)
            (λ fresh. blocked U.calls p fresh length page (machine_of self.old)) }
        ensures spends { Spends self.old self.new ENTRY_ITEMS 1 }
    {
        let Some(held) = self.stop(p) else {
            unreachable!()
        };
        self.enter(p, Entry::Block { held, length, page });
    }

    /// The line of the processor is raised: the context that runs there is stopped, wherever it is.
    #[inline(never)]
    pub fn interrupt(&mut self, p: ProcNo)
        requires next { IsNext U.stands (machine_of self.old) }
        requires within { p.0 < self.old.workload.processors }
        requires raised { IsSome (line_of (machine_of self.old).kernel p) }
        requires later { self.old.kernel.last < self.old.events }
        requires entries { 1 ≤ self.old.kernel.spare }
        requires room { ENTRY_ITEMS + owed self.old ≤ self.old.trace.spare }
        ensures machine { ByFresh (machine_of self.old) (machine_of self.new)
            (λ fresh. interrupted U.calls p fresh (machine_of self.old)) }
        ensures spends { Spends self.old self.new ENTRY_ITEMS 1 }
    {
        let held = self.stop(p);
        self.enter(p, Entry::Interrupt(held));
    }

    // One step of the context that runs on a processor of a space.
    fn step(&mut self, p: ProcNo, s: SpaceNo) -> Step
        requires next { IsNext U.stands (machine_of self.old) }
        requires owner { owner_of (machine_of self.old).kernel p ≡ Some s }
        requires room { STEP_ITEMS ≤ self.old.trace.spare }
        ensures machine { (machine_of self.new, result) ≡ stepped U.calls p s (machine_of self.old) }
        ensures kernel { self.new.kernel ≡ self.old.kernel }
        ensures room { self.old.trace.spare ≤ self.new.trace.spare + STEP_ITEMS }
    {
        let Some(ctx) = &mut self.contexts[usize::from(p.0)] else {
            unreachable!()
        };
        let seen = self.kernel.seen(p, self.events);
        self.users.step(s, &seen, ctx, &mut self.trace)
    }

    // The closing of an event with which a slice ends.
    fn end_slice(&mut self, p: ProcNo)
        requires within { p.0 < length (machine_of self.old).kernel.lives }
        requires later { self.old.kernel.last < self.old.events }
        requires event { self.old.events ≤ MAX_EVENTS }
        requires room { ENTRY_ITEMS + owed self.old ≤ self.old.trace.spare }
        ensures machine { machine_of self.new ≡ sliced p (machine_of self.old) }
        ensures spends { Spends self.old self.new ENTRY_ITEMS 0 }
    {
        if self.is_slice_end() {
            self.kernel.slice_end(p, self.events, &mut self.trace);
        }
    }

    // What a step asked of the kernel. Out of line, so that a turn does not pay for the entry.
    #[inline(never)]
    fn ask(&mut self, p: ProcNo, step: Step)
        requires some { step ≢ Step.Did }
        requires asks { Asks U.stands p step (machine_of self.old) }
        requires later { self.old.kernel.last < self.old.events }
        requires event { self.old.events ≤ MAX_EVENTS }
        requires entries { 1 ≤ self.old.kernel.spare }
        requires room { ENTRY_ITEMS + owed self.old ≤ self.old.trace.spare }
        ensures machine { ByFresh (machine_of self.old) (machine_of self.new)
            (λ fresh. asked U.calls p fresh step (machine_of self.old)) }
        ensures spends { Spends self.old self.new ENTRY_ITEMS 1 }
    {
        match step {
            Step::Did => unreachable!(),
            Step::Block { length, page } => self.block(p, length, page),
            Step::More(n) => self.hint(p, Entry::More(n)),
            Step::Idle => self.hint(p, Entry::Idle),
            Step::GiveBack => self.hint(p, Entry::GiveBack),
            Step::InterruptOwn(q) => self.hint(p, Entry::InterruptOwn(q)),
        }
    }

    // What a step asked for.
    fn answer(&mut self, p: ProcNo, step: Step)
        requires asks { Asks U.stands p step (machine_of self.old) }
        requires later { self.old.kernel.last < self.old.events }
        requires event { self.old.events ≤ MAX_EVENTS }
        requires entries { 1 ≤ self.old.kernel.spare }
        requires room { ENTRY_ITEMS + owed self.old ≤ self.old.trace.spare }
        ensures machine { ByFresh (machine_of self.old) (machine_of self.new)
            (λ fresh. asked U.calls p fresh step (machine_of self.old)) }
        ensures spends { Spends self.old self.new ENTRY_ITEMS 1 }
    {
        match step {
            Step::Did => self.end_slice(p),
            entry => self.ask(p, entry),
        }
    }

    // What a processor does that no space owns.
    fn tick(&mut self, p: ProcNo)
        requires within { p.0 < length (machine_of self.old).kernel.lives }
        requires later { self.old.kernel.last < self.old.events }
        requires event { self.old.events ≤ MAX_EVENTS }
        requires room { ENTRY_ITEMS + owed self.old + 1 ≤ self.old.trace.spare }
        ensures machine { machine_of self.new ≡ sliced p (ticked p (machine_of self.old)) }
        ensures spends { Spends self.old self.new EVENT_ITEMS 0 }
    {
        self.trace.say(self.events, p, Record::Tick);
        self.end_slice(p);
    }

    /// A step of the running context and what it asked for, or a tick where none runs.
    pub fn run(&mut self, p: ProcNo)
        requires next { IsNext U.stands (machine_of self.old) }
        requires within { p.0 < self.old.workload.processors }
        requires low { line_of (machine_of self.old).kernel p ≡ None }
        requires later { self.old.kernel.last < self.old.events }
        requires entries { 1 ≤ self.old.kernel.spare }
        requires room { EVENT_ITEMS + owed self.old ≤ self.old.trace.spare }
        ensures machine { ByFresh (machine_of self.old) (machine_of self.new)
            (λ fresh. turned_owned U.calls p fresh (owner_of (machine_of self.old).kernel p)
            (machine_of self.old)) }
        ensures spends { Spends self.old self.new EVENT_ITEMS 1 }
    {
        let Some(s) = self.kernel.owner(p) else {
            return self.tick(p);
        };
        let asked = self.step(p, s);
        self.answer(p, asked);
    }

    /// An event begins.
    pub fn next(&mut self)
        requires { self.old.events < MAX_EVENTS }
        ensures machine { machine_of self.new ≡ next_event (machine_of self.old) }
        ensures events { self.new.events ≡ self.old.events + 1 }
        ensures owed { owed self.new ≡ owed self.old }
        ensures lives { (machine_of self.new).kernel.lives ≡ (machine_of self.old).kernel.lives }
        ensures spare { self.new.kernel.spare ≡ self.old.kernel.spare }
        ensures last { self.new.kernel.last ≡ self.old.kernel.last }
        ensures trace { self.new.trace ≡ self.old.trace }
    {
        self.events += 1;
        self.kernel.evict(self.events);
    }

    // `n` local instructions of the context that runs on a processor, in this event and those after it.
    fn go(&mut self, p: ProcNo, n: u16)
        requires next { IsNext U.stands (machine_of self.old) }
        requires can { CanGo U.calls (machine_of self.old) p n }
        requires some { 1 ≤ n }
        requires within { self.old.events + n ≤ MAX_EVENTS + 1 }
        requires room { n ≤ self.old.trace.spare }
        ensures machine { machine_of self.new
            ≡ gone_in U.calls p n (owner_of (machine_of self.old).kernel p) (machine_of self.old) }
        ensures events { self.new.events ≡ self.old.events }
        ensures kernel { self.new.kernel ≡ self.old.kernel }
        ensures room { self.new.trace.spare + n ≡ self.old.trace.spare }
    {
        let Some(s) = self.kernel.owner(p) else {
            unreachable!()
        };
        let Some(ctx) = &mut self.contexts[usize::from(p.0)] else {
            unreachable!()
        };
        let seen = self.kernel.seen(p, self.events);
        self.users.went(s, &seen, ctx, n, &mut self.trace);
    }

    // So many events more begin.
    fn skip(&mut self, n: u16)
        requires { self.old.events + n ≤ MAX_EVENTS }
        ensures machine { machine_of self.new ≡ more_events n (machine_of self.old) }
        ensures events { self.new.events ≡ self.old.events + n }
        ensures owed { owed self.new ≡ owed self.old }
        ensures lives { (machine_of self.new).kernel.lives ≡ (machine_of self.old).kernel.lives }
        ensures spare { self.new.kernel.spare ≡ self.old.kernel.spare }
        ensures last { self.new.kernel.last ≡ self.old.kernel.last }
        ensures trace { self.new.trace ≡ self.old.trace }
    {
        for _i in 0..n {
            self.next();
        }
    }

    /// `n` events of a processor, each a local instruction; no slice ends before the last.
    pub fn commit(&mut self, p: ProcNo, n: u16)
        requires between { IsBetween U.stands (machine_of self.old) }
        requires can { CanGo U.calls (machine_of self.old) p n }
        requires some { 1 ≤ n }
        requires within { p.0 < self.old.workload.processors }
        requires event { self.old.events + n ≤ MAX_EVENTS }
        requires later { self.old.kernel.last ≤ self.old.events }
        requires room { n + ENTRY_ITEMS + owed self.old ≤ self.old.trace.spare }
        ensures machine { machine_of self.new ≡ committed U.calls p n (machine_of self.old) }
        ensures spends { Spends self.old self.new (n + ENTRY_ITEMS) 0 }
    {
        self.next();
        self.go(p, n);
        self.skip(n - 1);
        self.end_slice(p);
    }

    // Whether the context that runs on a processor is inside the package.
    fn is_inside(&self, p: ProcNo) -> bool
        requires within { p.0 < self.now.workload.processors }
        requires stands { Stands U.stands self.now.events (machine_of self.now) }
        ensures { result ≡ is_inside U.calls (machine_of self.now) p.0 }
    {
        let Some(s) = self.kernel.owner(p) else {
            return false;
        };
        match &self.contexts[usize::from(p.0)] {
            None => false,
            Some(ctx) => self.users.owes(s, ctx),
        }
    }

    /// Whether some running context is inside the package.
    #[inline(never)]
    pub(crate) fn is_any_inside(&self) -> bool
        requires { Stands U.stands self.now.events (machine_of self.now) }
        ensures { result ≡ is_any_inside U.calls (machine_of self.now) }
    {
        for p in 0..self.workload.processors() {
            if self.is_inside(ProcNo(p)) {
                return true;
            }
        }
        false
    }

    /// Where the context that runs on a processor stands.
    pub fn context(&self, p: ProcNo) -> SeatState
        requires within { p.0 < self.now.workload.processors }
        requires stands { Stands U.stands self.now.events (machine_of self.now) }
        ensures { result ≡ local_on U.calls (machine_of self.now) p }
    {
        let Some(s) = self.kernel.owner(p) else {
            return SeatState::Away;
        };
        match &self.contexts[usize::from(p.0)] {
            None => SeatState::Away,
            Some(ctx) => self.users.local(s, ctx),
        }
    }
}
