// A gate at which two workers look for each other, for tests.
ghost use Rattle.std.specs.Prelude.{◌≢◌};

use crate::gate::Gate;
use sa_base::ProcNo;
use std::sync::atomic::{AtomicU64, Ordering};

// What a worker saw: nothing yet, not what it looked for, or that.
const LOOKS: u64 = 0;

const MISSED: u64 = 1;

const SAW: u64 = 2;

/// A gate at which the workers of two processors look for each other. It shows that two workers run beside each other; no
/// clause says what they see.
///
/// An arrival counts from its start. The first arrival of `held` looks whether `other` has arrived twice, and the second
/// arrival of `other` looks whether `held` has arrived. Each looks at most as often as the limit allows, and then goes on.
#[derive(Drop)]
pub struct HoldGate {
    held: ProcNo,
    other: ProcNo,
    limit: u64,
    arrivals_of_held: AtomicU64,
    arrivals_of_other: AtomicU64,
    seen_by_held: AtomicU64,
    seen_by_other: AtomicU64,
}

impl HoldGate {
    /// A gate at which nobody has arrived, for two processors that differ. Each looks at most `limit` times.
    pub fn new(held: ProcNo, other: ProcNo, limit: u64) -> HoldGate
        requires { held ≢ other }
    {
        HoldGate {
            held,
            other,
            limit,
            arrivals_of_held: AtomicU64::new(0),
            arrivals_of_other: AtomicU64::new(0),
            seen_by_held: AtomicU64::new(LOOKS),
            seen_by_other: AtomicU64::new(LOOKS),
        }
    }

    /// Whether both saw what they looked for, or `None` as long as one of them has not looked to the end.
    pub fn met(&self) -> Option<bool> {
        let held = self.seen_by_held.load(Ordering::SeqCst);
        let other = self.seen_by_other.load(Ordering::SeqCst);
        if held == LOOKS || other == LOOKS {
            return None;
        }
        Some(held == SAW && other == SAW)
    }

    // Looks whether at least `least` arrivals were counted, at most as often as the limit allows.
    fn look(&self, arrivals: &AtomicU64, least: u64) -> u64 {
        for _look in 0..self.limit {
            if arrivals.load(Ordering::SeqCst) >= least {
                return SAW;
            }
        }
        MISSED
    }
}

impl Gate for HoldGate {
    fn arrive(&self, p: ProcNo) {
        if p == self.held {
            if self.arrivals_of_held.fetch_add(1, Ordering::SeqCst) == 0 {
                let seen = self.look(&self.arrivals_of_other, 2);
                self.seen_by_held.store(seen, Ordering::SeqCst);
            }
        } else if p == self.other && self.arrivals_of_other.fetch_add(1, Ordering::SeqCst) == 1 {
            let seen = self.look(&self.arrivals_of_held, 1);
            self.seen_by_other.store(seen, Ordering::SeqCst);
        }
    }
}
