// Room for events, and how a run ends.
ghost use Rattle.std.specs.Prelude.{◌≡◌, ℕ, ◌+◌, ◌*◌, ◌≤◌, ◌<◌, [], OnOk, IfSome};
ghost use Rattle.sa_core_model.specs.End.{all_done, is_stuck, committable};
ghost use Rattle.sa_core_model.specs.Standing.{IsBetween};
ghost use Rattle.sa_machine.specs.View.{machine_of};
ghost use Rattle.sa_machine.specs.Room.{owed, HasRoom};

use crate::machine::{EVENT_ITEMS, MachineParts};
use sa_abstract::UserLevel;
use sa_base::Trace;
use std::alloc::AllocError;

impl<U: UserLevel> MachineParts<U> {
    // The items of that many events and those that are owed before them, if their number fits.
    fn items_for(&self, events: usize) -> Option<usize>
        requires { (machine_of self.now).kernel.telling ≡ [] }
        ensures { IfSome result (λ items. EVENT_ITEMS * events + owed self.now ≤ items) }
    {
        let owed = self.kernel.need().checked_mul(2)?;
        let each = events.checked_mul(EVENT_ITEMS)?;
        each.checked_add(owed)
    }

    /// Makes room for at least `n` events. An error changes nothing but the room, which does not shrink.
    pub fn reserve(&mut self, n: usize) -> Result<(), AllocError>
        requires { (machine_of self.old).kernel.telling ≡ [] }
        ensures ok { OnOk result (HasRoom self.new n) }
        ensures grows { (k : ℕ) → HasRoom self.old k → HasRoom self.new k }
        ensures machine { machine_of self.new ≡ machine_of self.old }
        ensures last { self.new.kernel.last ≡ self.old.kernel.last }
    {
        let items = self.items_for(n).ok_or(AllocError)?;
        self.kernel.reserve(n)?;
        self.trace.reserve(items)
    }

    /// How many of `n` events the budget and the slice leave.
    pub fn committable(&self, budget: u64, n: u16) -> u16
        requires { self.now.events ≤ budget }
        ensures { result ≡ committable budget (machine_of self.now) n }
    {
        let left = u64::from(n).min(budget - self.events);
        let slice = u64::from(self.workload.slice());
        if slice == 0 {
            return left as u16;
        }
        left.min(slice - self.events % slice) as u16
    }

    /// Whether each thread that was made is done.
    pub fn is_done(&self) -> bool
        ensures { result ≡ all_done U.calls (machine_of self.now) }
    {
        self.users.counts().unfinished == 0
    }

    /// Whether nothing can happen any more.
    #[inline(always)]
    pub fn is_stuck(&self) -> bool
        requires { IsBetween U.stands (machine_of self.now) }
        ensures { result ≡ is_stuck U.calls (machine_of self.now) }
    {
        self.users.counts().active == 0 && self.kernel.quiet() && !self.is_any_inside()
    }

    /// The trace alone.
    pub fn into_trace(self) -> Trace
        ensures { result ≡ self.trace }
    {
        self.trace
    }

    /// Lets go of all that it holds.
    pub fn discard(self) {
        let _trace = self.into_trace();
    }
}
