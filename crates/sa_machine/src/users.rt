// The user levels of the spaces.
ghost use Rattle.std.specs.Prelude.{◌≡◌, ◌+◌, ◌≤◌, ◌<◌, ◌++◌, [], ◌∷◌, Some, IfOk, OnOk, length, slice_get, slice_set};
ghost use Rattle.sa_base.specs.declared.limits.TheConstants.{MAX_SPACES};
ghost use Rattle.sa_base.specs.Items.{items_at, items_from};
ghost use Rattle.sa_spaces.specs.Space.{SpaceView};
ghost use Rattle.sa_abstract.specs.Keeps.{IsBefore, IsOf, IsSeenOf, IsTelling, IsStep, IsGoing};
ghost use Rattle.sa_core_model.specs.Run.{setting, started_from};
ghost use Rattle.sa_machine.specs.Users.{one_unless, is_over, is_still, unfinished, active, stopped_of};

use sa_abstract::{SeatState, Step, Tally, UserLevel};
use sa_asked::Asked;
use sa_base::{Note, Seen, SpaceNo, Stopped, Trace};
use sa_spaces::{SpaceDef, Workload};
use std::alloc::{AllocError, Global};
use std::marker::Model;

/// The items of a step at most.
pub const STEP_ITEMS: usize = 4;

/// How many spaces have something to do.
#[derive(Clone, Copy)]
pub struct Counts {
    /// In how many spaces some thread is not done, at most 16.
    pub unfinished: usize,
    /// In how many some thread is active, at most 16.
    pub active: usize,
}

// A count with one space more.
fn counted(count: usize, over: bool) -> usize
    requires { count < MAX_SPACES }
    ensures { result ≡ count + one_unless over }
{
    if over { count } else { count + 1 }
}

// A count of others with a space that was counted.
fn recounted(count: usize, was_over: bool, is_over: bool) -> usize
    requires counted { one_unless was_over ≤ count }
    requires few { count ≤ MAX_SPACES }
    ensures { result + one_unless was_over ≡ count + one_unless is_over }
{
    match (was_over, is_over) {
        (false, true) => count - 1,
        (true, false) => count + 1,
        _ => count,
    }
}

impl Counts {
    // The counts with one space more.
    fn with(self, tally: Tally) -> Counts
        requires few { (self.unfinished < MAX_SPACES) × (self.active < MAX_SPACES) }
        ensures unfinished { result.unfinished ≡ self.unfinished + one_unless (is_over tally) }
        ensures active { result.active ≡ self.active + one_unless (is_still tally) }
    {
        Counts {
            unfinished: counted(self.unfinished, tally.done == tally.made),
            active: counted(self.active, tally.active == 0),
        }
    }

    // The counts where a space that was counted has another tally.
    fn after(self, was: Tally, is: Tally) -> Counts
        requires unfinished { one_unless (is_over was) ≤ self.unfinished }
        requires active { one_unless (is_still was) ≤ self.active }
        requires few { (self.unfinished ≤ MAX_SPACES) × (self.active ≤ MAX_SPACES) }
        ensures unfinished { result.unfinished + one_unless (is_over was)
            ≡ self.unfinished + one_unless (is_over is) }
        ensures active { result.active + one_unless (is_still was)
            ≡ self.active + one_unless (is_still is) }
    {
        Counts {
            unfinished: recounted(self.unfinished, was.done == was.made, is.done == is.made),
            active: recounted(self.active, was.active == 0, is.active == 0),
        }
    }
}

// The user level of a space of a workload at its opening.
fn level_at<U: UserLevel>(alloc: Global, s: usize, w: &Workload) -> Result<U, AllocError>
    requires { s < length w.now.spaces }
    ensures { IfOk result (λ level. (def : SpaceView) → slice_get w.now.spaces s ≡ Some def
        → level ≡ U.calls.started (setting w.now s def)) }
{
    let def = w.spaces()[s].copy(alloc)?;
    let level = U::start(alloc, SpaceNo(s as u16), def, w.processors(), w.fetch())?;
    Ok(level)
}

/// The user level of each space, and how many of them still have something to do.
#[derive(Drop)]
pub struct Users<U: UserLevel> {
    levels: Vec<U>,
    counts: Counts,
}

impl<U: UserLevel> Model for Users<U> {
    ghost use Rattle.std.specs.Prelude.{List};
    ghost use Rattle.sa_machine.specs.Users.{Counted};

    ghost Value = { List U };

    ghost view = { λ x. x.levels.items };

    ghost invariant = { λ x. Counted U.calls x.levels.items x.counts.unfinished x.counts.active };
}

impl<U: UserLevel> Users<U> {
    /// The user levels at the opening of a workload. Fails only where memory runs out.
    pub fn start(alloc: Global, w: &Workload) -> Result<Self, AllocError>
        ensures { IfOk result (λ users. users ≡ started_from U.calls w.now 0 w.now.spaces) }
    {
        let mut users = Users {
            levels: Vec::new(alloc),
            counts: Counts {
                unfinished: 0,
                active: 0,
            },
        };
        for s in 0..w.spaces().len() {
            let level = level_at(alloc, s, w)?;
            users.add(level)?;
        }
        Ok(users)
    }

    // The user level of one space more.
    fn add(&mut self, level: U) -> Result<(), AllocError>
        requires { length self.old < MAX_SPACES }
        ensures { OnOk result (self.new ≡ self.old ++ level ∷ []) }
    {
        let tally = level.tally();
        self.levels.push(level)?;
        self.counts = self.counts.with(tally);
        Ok(())
    }

    /// In how many spaces something is still to be done.
    pub fn counts(&self) -> Counts
        ensures unfinished { result.unfinished ≡ unfinished U.calls self.now }
        ensures active { result.active ≡ active U.calls self.now }
    {
        self.counts
    }

    /// The context of a fresh activation.
    pub fn begin(&mut self, s: SpaceNo, seen: &Seen) -> U::Ctx
        requires within { s.0 < length self.old }
        requires before { (u : U) → slice_get self.old s.0 ≡ Some u → IsBefore U.stands u seen.now }
        ensures user { (u : U) → slice_get self.old s.0 ≡ Some u
            → self.new ≡ slice_set self.old s.0 (U.calls.begun u seen.now).0 }
        ensures ctx { (u : U) → slice_get self.old s.0 ≡ Some u
            → result ≡ (U.calls.begun u seen.now).1 }
    {
        let level = &mut self.levels[usize::from(s.0)];
        let was = level.tally();
        let ctx = level.begin(seen);
        let is = level.tally();
        self.counts = self.counts.after(was, is);
        ctx
    }

    /// A context is told a notice.
    pub fn told(&mut self, s: SpaceNo, ctx: &mut U::Ctx, note: Note, held: Option<Stopped<U::Ctx>>)
        requires within { s.0 < length self.old }
        requires telling { (u : U) → slice_get self.old s.0 ≡ Some u
            → IsTelling U.stands u ctx.old note held }
        ensures user { (u : U) → slice_get self.old s.0 ≡ Some u
            → self.new ≡ slice_set self.old s.0 (U.calls.told u ctx.old note held).0 }
        ensures ctx { (u : U) → slice_get self.old s.0 ≡ Some u
            → ctx.new ≡ (U.calls.told u ctx.old note held).1 }
    {
        let level = &mut self.levels[usize::from(s.0)];
        let was = level.tally();
        level.told(ctx, note, held);
        let is = level.tally();
        self.counts = self.counts.after(was, is);
    }

    /// A context goes on after an upcall or an entry.
    pub fn answered(&mut self, s: SpaceNo, seen: &Seen, ctx: &mut U::Ctx)
        requires within { s.0 < length self.old }
        requires sees { (u : U) → slice_get self.old s.0 ≡ Some u
            → IsSeenOf U.stands u seen.now ctx.old }
        ensures user { (u : U) → slice_get self.old s.0 ≡ Some u
            → self.new ≡ slice_set self.old s.0 (U.calls.answered u seen.now ctx.old).0 }
        ensures ctx { (u : U) → slice_get self.old s.0 ≡ Some u
            → ctx.new ≡ (U.calls.answered u seen.now ctx.old).1 }
    {
        let level = &mut self.levels[usize::from(s.0)];
        let was = level.tally();
        level.answered(seen, ctx);
        let is = level.tally();
        self.counts = self.counts.after(was, is);
    }

    /// One step of a context.
    pub fn step(&mut self, s: SpaceNo, seen: &Seen, ctx: &mut U::Ctx, trace: &mut Trace) -> Step
        requires within { s.0 < length self.old }
        requires room { STEP_ITEMS ≤ trace.old.spare }
        requires turn { (u : U) → slice_get self.old s.0 ≡ Some u
            → IsStep U.stands u seen.now ctx.old }
        ensures user { (u : U) → slice_get self.old s.0 ≡ Some u
            → self.new ≡ slice_set self.old s.0 (U.calls.stepped u seen.now ctx.old).user }
        ensures ctx { (u : U) → slice_get self.old s.0 ≡ Some u
            → ctx.new ≡ (U.calls.stepped u seen.now ctx.old).ctx }
        ensures answer { (u : U) → slice_get self.old s.0 ≡ Some u
            → result ≡ (U.calls.stepped u seen.now ctx.old).answer }
        ensures items { (u : U) → slice_get self.old s.0 ≡ Some u
            → let says = (U.calls.stepped u seen.now ctx.old).says in
            trace.new.items ≡ trace.old.items ++ items_at seen.now.event seen.now.proc says }
        ensures spare { (u : U) → slice_get self.old s.0 ≡ Some u
            → let says = (U.calls.stepped u seen.now ctx.old).says in
            trace.new.spare + length says ≡ trace.old.spare }
    {
        let level = &mut self.levels[usize::from(s.0)];
        let was = level.tally();
        let asked = level.step(seen, ctx, trace);
        let is = level.tally();
        self.counts = self.counts.after(was, is);
        asked
    }

    /// `n` local instructions of a context.
    pub fn went(&mut self, s: SpaceNo, seen: &Seen, ctx: &mut U::Ctx, n: u16, trace: &mut Trace)
        requires within { s.0 < length self.old }
        requires room { n ≤ trace.old.spare }
        requires going { (u : U) → slice_get self.old s.0 ≡ Some u
            → IsGoing U.calls U.stands u seen.now ctx.old n }
        ensures user { (u : U) → slice_get self.old s.0 ≡ Some u
            → self.new ≡ slice_set self.old s.0 (U.calls.went u seen.now ctx.old n).user }
        ensures ctx { (u : U) → slice_get self.old s.0 ≡ Some u
            → ctx.new ≡ (U.calls.went u seen.now ctx.old n).ctx }
        ensures items { (u : U) → slice_get self.old s.0 ≡ Some u
            → let says = (U.calls.went u seen.now ctx.old n).says in
            trace.new.items ≡ trace.old.items ++ items_from seen.now.event seen.now.proc says }
        ensures spare { trace.new.spare + n ≡ trace.old.spare }
    {
        let level = &mut self.levels[usize::from(s.0)];
        let was = level.tally();
        level.went(seen, ctx, n, trace);
        let is = level.tally();
        self.counts = self.counts.after(was, is);
    }

    /// A context as the kernel keeps it.
    pub fn stopped(&self, s: SpaceNo, ctx: U::Ctx) -> Stopped<U::Ctx>
        requires within { s.0 < length self.now }
        ensures { (u : U) → slice_get self.now s.0 ≡ Some u
            → result ≡ stopped_of U.calls u ctx }
    {
        let level = &self.levels[usize::from(s.0)];
        let thread = level.thread(&ctx);
        let idle = level.idle(&ctx);
        Stopped { ctx, thread, idle }
    }

    /// The user level of a space.
    pub fn level(&self, s: SpaceNo) -> &U
        requires { s.0 < length self.now }
        ensures { slice_get self.now s.0 ≡ Some result.now }
    {
        &self.levels[usize::from(s.0)]
    }

    /// Whether a context is inside the package.
    pub fn owes(&self, s: SpaceNo, ctx: &U::Ctx) -> bool
        requires within { s.0 < length self.now }
        ensures { (u : U) → slice_get self.now s.0 ≡ Some u → result ≡ U.calls.owes u ctx.now }
    {
        self.levels[usize::from(s.0)].owes(ctx)
    }

    /// Where a context stands.
    pub fn local(&self, s: SpaceNo, ctx: &U::Ctx) -> SeatState
        requires within { s.0 < length self.now }
        requires of { (u : U) → slice_get self.now s.0 ≡ Some u → IsOf U.stands u ctx.now }
        ensures { (u : U) → slice_get self.now s.0 ≡ Some u → result ≡ U.calls.local u ctx.now }
    {
        self.levels[usize::from(s.0)].local(ctx)
    }
}

impl<U: Asked> Users<U> {
    /// Puts the reply that the next step of a space does.
    pub fn put(&mut self, s: SpaceNo, reply: U::Reply)
        requires { s.0 < length self.old }
        ensures { (u : U) → slice_get self.old s.0 ≡ Some u
            → self.new ≡ slice_set self.old s.0 (U.replies.put u reply) }
    {
        let level = &mut self.levels[usize::from(s.0)];
        level.put(reply);
    }

    /// Whether the next step of a context can do a reply.
    pub fn can(&self, s: SpaceNo, seen: &Seen, ctx: &U::Ctx, reply: U::Reply) -> bool
        requires { s.0 < length self.now }
        ensures { (u : U) → slice_get self.now s.0 ≡ Some u
            → result ≡ U.replies.can u seen.now ctx.now reply }
    {
        self.levels[usize::from(s.0)].can(seen, ctx, reply)
    }
}
