ghost use Rattle.std.specs.Prelude.{◌≡◌, ◌+◌, ◌≤◌, ◌<◌, length, None, Some, is_some, slice_get, slice_index_or, OnOk, OnErr, IfOk};
ghost use Rattle.std.specs.Option.{option_copied};
ghost use Rattle.sa_base.specs.declared.limits.TheConstants.{MAX_EVENTS};
ghost use Rattle.sa_kernel_model.specs.State.{line_of};
ghost use Rattle.sa_core_model.specs.Turn.{committed};
ghost use Rattle.sa_core_model.specs.End.{end_of, committable, local_on};
ghost use Rattle.sa_core_model.specs.Run.{opening, IsTurn, AreNextLocal};
ghost use Rattle.sa_core_model.specs.Standing.{IsBetween};
ghost use Rattle.sa_kernel.specs.Kept.{kernel_of};
ghost use Rattle.sa_core.specs.View.{machine, IsSame};

use crate::event::turn;
use sa_abstract::{SeatState, UserLevel};
use sa_base::{End, ProcNo, SpaceNo, Trace};
use sa_kernel::Kernel;
use sa_machine::MachineParts;
use sa_spaces::Workload;
use std::alloc::{AllocError, Global};
use std::marker::Model;

// For how many events at least room is made where it is wanted.
const EVENTS_AT_ONCE: usize = 64;

/// A run of a workload within a budget of events, over any user level.
#[derive(Drop)]
pub struct Core<U: UserLevel> {
    budget: u64,
    pub(crate) machine: MachineParts<U>,
    // for how many events there is room
    spare: usize,
}

impl<U: UserLevel> Model for Core<U> {
    ghost use Rattle.sa_core.specs.View.{CoreView};
    ghost use Rattle.sa_core.specs.Room.{IsKept};

    ghost Value = { CoreView U U.Ctx };

    ghost view = { λ c. record { parts = c.machine; budget = c.budget; spare = c.spare } };

    ghost invariant = { λ c. IsKept U.stands c.machine c.budget c.spare };
}

impl<U: UserLevel> Core<U> {
    /// The run at the opening, which is event 0. Fails only where memory runs out.
    pub fn start(alloc: Global, w: Workload, budget: u64) -> Result<Self, AllocError>
        requires some { 1 ≤ budget }
        requires few { budget ≤ MAX_EVENTS }
        ensures opening { IfOk result (λ core. machine core ≡ opening U.calls w) }
        ensures budget { IfOk result (λ core. core.budget ≡ budget) }
        ensures spare { IfOk result (λ core. core.spare ≡ 0) }
    {
        w.ranges();
        let machine = MachineParts::start(alloc, w)?;
        Ok(Core {
            budget,
            machine,
            spare: 0,
        })
    }

    /// Makes room for at least `events` events, which then take no memory. An error changes nothing.
    pub fn reserve(&mut self, events: usize) -> Result<(), AllocError>
        ensures ok { OnOk result (events ≤ self.new.spare) }
        ensures grows { self.old.spare ≤ self.new.spare }
        ensures machine { machine self.new ≡ machine self.old }
        ensures budget { self.new.budget ≡ self.old.budget }
        ensures err { OnErr result (IsSame self.old self.new) }
    {
        if self.spare < events {
            self.machine.reserve(events)?;
            self.spare = events;
        }
        Ok(())
    }

    // Room for at least `n` events. Where it is not there yet, it is made for some more. An error changes nothing.
    fn make_room(&mut self, n: usize) -> Result<(), AllocError>
        ensures ok { OnOk result (n ≤ self.new.spare) }
        ensures grows { self.old.spare ≤ self.new.spare }
        ensures machine { machine self.new ≡ machine self.old }
        ensures budget { self.new.budget ≡ self.old.budget }
        ensures err { OnErr result ((self.old.spare < n) × IsSame self.old self.new) }
    {
        if self.spare < n {
            return self.reserve(n.max(EVENTS_AT_ONCE));
        }
        Ok(())
    }

    /// One event of the processor. It takes no memory where there is room; an error changes nothing.
    pub fn turn(&mut self, p: ProcNo) -> Result<(), AllocError>
        requires within { p.0 < (machine self.old).workload.processors }
        requires not_ended { end_of U.calls self.old.budget (machine self.old) ≡ None }
        ensures ok { OnOk result (IsTurn U.calls (machine self.old) p (machine self.new)) }
        ensures event { OnOk result ((machine self.new).event ≡ (machine self.old).event + 1) }
        ensures workload { (machine self.new).workload ≡ (machine self.old).workload }
        ensures budget { self.new.budget ≡ self.old.budget }
        ensures spare { self.old.spare ≤ self.new.spare + 1 }
        ensures err { OnErr result ((self.old.spare ≡ 0) × IsSame self.old self.new) }
    {
        self.make_room(1)?;
        turn(&mut self.machine, p);
        self.spare -= 1;
        Ok(())
    }

    /// The next `n` instructions of the context that runs on the processor, which are local, as events one after
    /// another: as many as the budget leaves, and none after the end of a slice. Answers how many. I/Os that are due
    /// wait. It takes no memory where there is room for `n` events; an error changes nothing.
    pub fn commit(&mut self, p: ProcNo, n: u16) -> Result<u16, AllocError>
        requires some { 1 ≤ n }
        requires within { p.0 < (machine self.old).workload.processors }
        requires not_ended { end_of U.calls self.old.budget (machine self.old) ≡ None }
        requires low { line_of (machine self.old).kernel p ≡ None }
        requires next { AreNextLocal (machine self.old).workload n
            (local_on U.calls (machine self.old) p) }
        ensures made { IfOk result (λ k. k ≡ committable self.old.budget (machine self.old) n) }
        ensures some { IfOk result (λ k. 1 ≤ k) }
        ensures machine { IfOk result (λ k.
            machine self.new ≡ committed U.calls p k (machine self.old)) }
        ensures workload { (machine self.new).workload ≡ (machine self.old).workload }
        ensures budget { self.new.budget ≡ self.old.budget }
        ensures spare { self.old.spare ≤ self.new.spare + n }
        ensures err { OnErr result ((self.old.spare < n) × IsSame self.old self.new) }
    {
        self.make_room(usize::from(n))?;
        let made = self.machine.committable(self.budget, n);
        self.machine.commit(p, made);
        self.spare -= usize::from(made);
        Ok(made)
    }

    /// How the run has ended, or `None` where it goes on. Takes constant time while some thread is active.
    pub fn end(&self) -> Option<End>
        ensures { result ≡ end_of U.calls self.now.budget (machine self.now) }
    {
        if self.machine.is_done() {
            return Some(End::AllDone);
        }
        if self.machine.is_stuck() {
            return Some(End::Stuck);
        }
        if self.machine.events == self.budget {
            return Some(End::Budget);
        }
        None
    }

    /// Whether the run has ended. Takes constant time while some thread is active.
    #[inline(always)]
    pub fn has_ended(&self) -> bool
        ensures { result ≡ is_some (end_of U.calls self.now.budget (machine self.now)) }
    {
        self.machine.is_done() || self.machine.is_stuck() || self.machine.events == self.budget
    }

    /// The history of the run.
    pub fn trace(&self) -> &Trace
        ensures { result.now.items ≡ (machine self.now).items }
    {
        &self.machine.trace
    }

    /// The number of events, without the opening.
    pub fn events(&self) -> u64
        ensures { result ≡ (machine self.now).event }
    {
        self.machine.events
    }

    /// The workload that is run.
    pub fn workload(&self) -> &Workload
        ensures { result.now ≡ (machine self.now).workload }
    {
        &self.machine.workload
    }

    /// The kernel.
    pub fn kernel(&self) -> &Kernel<U::Ctx>
        ensures { kernel_of result.now ≡ (machine self.now).kernel }
    {
        &self.machine.kernel
    }

    /// The user level of a space.
    pub fn user(&self, s: SpaceNo) -> &U
        requires { s.0 < length (machine self.now).users }
        ensures { slice_get (machine self.now).users s.0 ≡ Some result.now }
    {
        self.machine.users.level(s)
    }

    /// The context that runs on the processor.
    pub fn running(&self, p: ProcNo) -> Option<&U::Ctx>
        requires { p.0 < (machine self.now).workload.processors }
        ensures { option_copied result ≡ slice_index_or (machine self.now).contexts p.0 None }
    {
        self.machine.contexts[usize::from(p.0)].as_ref()
    }

    /// Shows what always holds between two events. It does nothing.
    pub fn keeps(&self)
        ensures { IsBetween U.stands (machine self.now) }
    {
        let _machine = &self.budget;
    }

    /// The event that raised the processor's line, or `None` where the line is low.
    pub fn line(&self, p: ProcNo) -> Option<u64>
        requires { p.0 < (machine self.now).workload.processors }
        ensures { result ≡ line_of (machine self.now).kernel p }
    {
        self.machine.kernel.line(p)
    }

    /// Where the context that runs on the processor stands; `Away` where none runs there.
    pub fn context(&self, p: ProcNo) -> SeatState
        requires { p.0 < (machine self.now).workload.processors }
        ensures { result ≡ local_on U.calls (machine self.now) p }
    {
        self.machine.context(p)
    }

    /// The history of the run alone.
    pub fn into_trace(self) -> Trace
        ensures { result.items ≡ (machine self).items }
    {
        self.machine.into_trace()
    }

    /// Lets go of the run with all that it holds. A run that goes out of scope is let go too, but by code that is made,
    /// and proved, again in each crate where it does.
    pub fn discard(self) {
        self.machine.discard();
    }
}
