// The core and its keeper, behind the lock.
ghost use Rattle.std.specs.Prelude.{◌≡◌, ◌<◌, ◌≤◌, Some, None, OnErr, IfOk, IfSome, IfNone};
ghost use Rattle.sa_core_model.specs.End.{end_of, local_on};
ghost use Rattle.sa_base.specs.declared.limits.TheConstants.{MAX_EVENTS};
ghost use Rattle.sa_spaces.specs.Workload.{IsWorkload};
ghost use Rattle.sa_core_model.specs.Run.{opening};
ghost use Rattle.sa_kernel_model.specs.State.{line_of};
ghost use Rattle.sa_core.specs.View.{machine};
ghost use Rattle.sa_lines.specs.Seen.{fresh_keeper};
ghost use Rattle.sa_seat.specs.declared.answer.Entered.TheVariants.{Turned, Ended};
ghost use Rattle.sa_seat.specs.Seat.{CanMove, renewed};
ghost use Rattle.sa_seat.specs.Chain.{IsLed};
ghost use Rattle.sa_seat.specs.Lock.{IsLocked};
ghost use Rattle.sa_seat.specs.Enter.{IsAnswer, IsEvents, IsEntered, credited_by};

use crate::answer::Entered;
use crate::follow::{Lines, PLACES, follow};
use crate::named::Named;
use crate::seat::Seat;
use sa_abstract::UserLevel;
use sa_base::End;
use sa_core::Core;
use sa_lines::{Credit, Keeper, LineWords};
use std::alloc::AllocError;
use std::marker::{Model, PhantomData};
use std::sync::Wait;

/// What the machine's lock guards: the core, and the keeper of its words. Contracts see both.
#[derive(Drop)]
pub struct Held<U: UserLevel, K: Named> {
    pub(crate) core: Core<U>,
    pub(crate) keeper: Keeper,
    pub(crate) lines: Lines,
    pub(crate) of: PhantomData<K>,
}

impl<U: UserLevel, K: Named> Model for Held<U, K> {
    ghost use Rattle.sa_seat.specs.Lock.{HeldView, IsLocked};

    ghost Value = { HeldView U U.Ctx };

    ghost view = { λ h. record { core = h.core; keeper = h.keeper } };

    ghost invariant = { λ h. IsLocked U.calls K.budget K.workload K.table h.core h.lines h.keeper };
}

impl<U: UserLevel, K: Named> Held<U, K> {
    /// The core at its opening, whose lines are stored.
    pub(crate) fn new(core: Core<U>, mut keeper: Keeper, words: &LineWords) -> Held<U, K>
        requires own { words.now ≡ K.table }
        requires workload { IsWorkload K.workload }
        requires core { machine core ≡ opening U.calls K.workload }
        requires budget { core.budget ≡ K.budget }
        requires few { K.budget ≤ MAX_EVENTS }
        requires keeper { keeper ≡ fresh_keeper K.table K.workload.processors }
    {
        let mut lines = [None; PLACES];
        follow(&mut keeper, words, &core, &mut lines);
        Held {
            core,
            keeper,
            lines,
            of: PhantomData,
        }
    }

    /// The seat's burst becomes events of its processor, whole unless the budget or the slice leaves less of it, or it is
    /// dropped; where none is pending, one turn is made. Then the seat's copy is the core's context, and none is pending.
    /// The number of events and the end are told to the keeper's account and to the seat's. An error is want of memory,
    /// comes only while the run goes on, and changes nothing.
    pub fn turn<R: Wait>(
        &mut self,
        rt: &R,
        words: &LineWords,
        seat: &mut Seat<K>,
    ) -> Result<Entered, AllocError>
        requires own { words.now ≡ K.table }
        ensures ok { IfOk result (λ answer. IsEntered U.calls K.budget
            (machine self.old.core) seat.old answer (machine self.new.core) seat.new) }
        ensures not_ended { OnErr result (end_of U.calls K.budget (machine self.old.core) ≡ None) }
        ensures held_stays { OnErr result (machine self.new.core ≡ machine self.old.core) }
        ensures seat_stays { OnErr result (seat.new ≡ seat.old) }
    {
        if let Some(end) = self.end() {
            self.tell_end(rt, words, seat, end);
            return Ok(Entered::Ended(end));
        }
        if let Some(dropped) = self.dropped(seat) {
            self.renew(seat);
            return Ok(dropped);
        }
        Ok(Entered::Turned(self.make_events(rt, words, seat)?))
    }

    /// Turns and commits led here, which the lock keeps.
    pub(crate) fn led(&self)
        ensures { IsLed U.calls K.budget K.workload (machine self.now.core) }
    {
        let _core = &self.core;
    }

    // How the run has ended, or none where it goes on.
    fn end(&self) -> Option<End>
        ensures { result ≡ end_of U.calls K.budget (machine self.now.core) }
    {
        self.core.end()
    }

    // Why the seat's burst is dropped, or none where it may be committed, or none is pending.
    fn dropped(&self, seat: &Seat<K>) -> Option<Entered>
        requires not_ended { end_of U.calls K.budget (machine self.now.core) ≡ None }
        ensures cause { IfSome result (λ answer. IsAnswer U.calls K.budget
            (machine self.now.core) seat.now answer (machine self.now.core)) }
        ensures uncredited { IfSome result (λ answer. credited_by answer seat.now ≡ seat.now) }
        ensures low { IfNone result (0 < seat.now.pending
            → line_of (machine self.now.core).kernel seat.now.poller.proc ≡ None) }
        ensures start { IfNone result (0 < seat.now.pending
            → local_on U.calls (machine self.now.core) seat.now.poller.proc ≡ seat.now.start) }
    {
        if seat.pending() == 0 {
            return None;
        }
        if let Some(event) = self.core.line(seat.proc()) {
            return Some(Entered::DroppedLine(event));
        }
        let context = self.core.context(seat.proc());
        let start = seat.start();
        if context != start {
            return Some(Entered::DroppedStart(context, start));
        }
        None
    }

    // The seat begins anew from the context that runs on its processor.
    fn renew(&self, seat: &mut Seat<K>)
        ensures { seat.new ≡ renewed
            (local_on U.calls (machine self.now.core) seat.old.poller.proc) seat.old }
    {
        seat.renew(&self.core.context(seat.proc()));
    }

    // Tells the end of the run.
    fn tell_end<R: Wait>(&mut self, rt: &R, words: &LineWords, seat: &mut Seat<K>, end: End)
        requires own { words.now ≡ K.table }
        requires end { end_of U.calls K.budget (machine self.old.core) ≡ Some end }
        ensures { IsEntered U.calls K.budget
            (machine self.old.core) seat.old (Ended end) (machine self.new.core) seat.new }
    {
        seat.credit(rt, &mut self.keeper, words, Credit::End(end));
        self.renew(seat);
    }

    // The seat's burst becomes events, or where none is pending one turn is made: how many events that were.
    fn make_events<R: Wait>(
        &mut self,
        rt: &R,
        words: &LineWords,
        seat: &mut Seat<K>,
    ) -> Result<u16, AllocError>
        requires own { words.now ≡ K.table }
        requires not_ended { end_of U.calls K.budget (machine self.old.core) ≡ None }
        requires low { 0 < seat.old.pending
            → line_of (machine self.old.core).kernel seat.old.poller.proc ≡ None }
        requires start { 0 < seat.old.pending
            → local_on U.calls (machine self.old.core) seat.old.poller.proc ≡ seat.old.start }
        ensures made { IfOk result (λ n. IsEntered U.calls K.budget
            (machine self.old.core) seat.old (Turned n) (machine self.new.core) seat.new) }
        ensures held_stays { OnErr result (machine self.new.core ≡ machine self.old.core) }
        ensures seat_stays { OnErr result (seat.new ≡ seat.old) }
    {
        let made = move_core(&mut self.core, seat)?;
        follow(&mut self.keeper, words, &self.core, &mut self.lines);
        let credit = Credit::Turns(u64::from(made));
        seat.credit(rt, &mut self.keeper, words, credit);
        self.renew(seat);
        Ok(made)
    }
}

// One turn of the seat's processor, or, of a burst that is pending, what the budget and the slice leave: how many events that
// were.
fn move_core<U: UserLevel, K: Named>(core: &mut Core<U>, seat: &Seat<K>) -> Result<u16, AllocError>
    requires workload { (machine core.old).workload ≡ K.workload }
    requires budget { core.old.budget ≡ K.budget }
    requires not_ended { end_of U.calls K.budget (machine core.old) ≡ None }
    requires low { 0 < seat.now.pending
        → line_of (machine core.old).kernel seat.now.poller.proc ≡ None }
    requires start { 0 < seat.now.pending
        → local_on U.calls (machine core.old) seat.now.poller.proc ≡ seat.now.start }
    ensures made { IfOk result (λ n. IsEvents U.calls K.budget
        (machine core.old) seat.now seat.now.pending n (machine core.new)) }
    ensures within { seat.now.poller.proc.0 < K.workload.processors }
    ensures local { CanMove K.workload seat.now.pending seat.now.start }
    ensures budget_same { core.new.budget ≡ core.old.budget }
    ensures err { OnErr result (machine core.new ≡ machine core.old) }
{
    let p = seat.proc();
    let pending = seat.pending();
    if pending == 0 {
        core.turn(p)?;
        return Ok(1);
    }
    core.commit(p, pending)
}
