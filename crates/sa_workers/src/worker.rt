// The worker of one processor.
ghost use Rattle.std.specs.Prelude.{◌<◌, ◌≤◌, OnOk};
ghost use Rattle.sa_base.specs.declared.limits.TheConstants.{MAX_BURST};
ghost use Rattle.sa_workers.specs.Worker.{HasWorked, IsThrough, HasRunAhead};

use crate::gate::Gate;
use sa_abstract::UserLevel;
use sa_seat::{Entered, Machine, Named, Seat};
use std::alloc::AllocError;
use std::sync::Wait;

/// Drives the processor of the seat: runs local instructions ahead, in bursts of at most `burst`, 1 to 64, and of no more than
/// are left of the quota, arrives at the gate and enters, until the run has ended or the seat's count is the quota. An entry
/// that dropped a burst is followed by one without a burst. An error is want of memory.
#[tactic(auto, using(crate::proofs::Acts::worked_none))]
pub fn work<U: UserLevel, K: Named, R: Wait, G: Gate>(
    rt: &R,
    machine: &Machine<U, K>,
    seat: &mut Seat<K>,
    quota: u64,
    burst: u16,
    gate: &G,
) -> Result<(), AllocError>
    requires some { 1 ≤ burst }
    requires few { burst ≤ MAX_BURST }
    ensures worked { HasWorked K.workload quota burst seat.old seat.new }
    ensures through { OnOk result (IsThrough quota seat.new) }
{
    let mut ahead = true;
    while seat.account().count < quota {
        run_ahead(machine, seat, quota, burst, ahead);
        gate.arrive(seat.proc());
        match machine.enter(rt, seat)? {
            Entered::Turned(_) => ahead = true,
            Entered::DroppedLine(_) | Entered::DroppedStart(_, _) => ahead = false,
            Entered::Ended(_) => return Ok(()),
        }
    }
    Ok(())
}

// One burst, where it is wanted and none is pending, of no more instructions than are left of the quota.
#[tactic(auto, using(crate::proofs::Acts::held_back, crate::proofs::Acts::ran_ahead))]
fn run_ahead<U: UserLevel, K: Named>(
    machine: &Machine<U, K>,
    seat: &mut Seat<K>,
    quota: u64,
    burst: u16,
    wanted: bool,
)
    requires some { 1 ≤ burst }
    requires few { burst ≤ MAX_BURST }
    requires left { seat.old.poller.account.count < quota }
    ensures { HasRunAhead K.workload quota burst wanted seat.old seat.new }
{
    if !wanted || seat.pending() != 0 {
        return;
    }
    let left = quota - seat.account().count;
    let limit = left.min(u64::from(burst)) as u16;
    seat.burst(machine, limit);
}
