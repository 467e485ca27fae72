// A run on host threads.
ghost use Rattle.std.specs.Prelude.{◌≡◌, ℕ, ◌<◌, ◌≤◌, length, slice_index_or, IfOk};
ghost use Rattle.sa_base.specs.declared.limits.TheConstants.{MAX_BURST, MAX_EVENTS};
ghost use Rattle.sa_core_model.specs.Run.{opening};
ghost use Rattle.sa_core.specs.View.{machine};
ghost use Rattle.sa_lines.specs.Seen.{fresh_keeper, fresh_pollers};
ghost use Rattle.sa_seat.specs.Seat.{SeatView};
ghost use Rattle.sa_workers.specs.Quota.{quota_of};
ghost use Rattle.sa_workers.specs.Worker.{HasWorked};
ghost use Rattle.sa_workers.specs.Run.{HasRun};

use crate::gate::Gate;
use crate::quotas::quota;
use crate::worker::work;
use sa_abstract::UserLevel;
use sa_base::MAX_PROCESSORS;
use sa_core::Core;
use sa_lines::{Keeper, LineWords, Poller};
use sa_seat::{Closed, Machine, Named, Seat};
use sa_spaces::Workload;
use std::alloc::{AllocError, Global};
use std::marker::Brand;
use std::sync::Wait;
use std::thread::{self, Threads};

/// Within how many events a run is made, and in bursts of how many instructions at most.
#[derive(Clone, Copy)]
pub struct Limits {
    /// 1 to 1,000,000.
    pub budget: u64,
    /// 1 to 64.
    pub burst: u16,
}

/// Runs the workload with a host thread for each processor, until it ends or memory runs out: the history has an end unless a
/// worker ran out of memory. An error is want of memory before any event.
pub fn run<U: UserLevel, R: Threads + Wait + Sync, G: Gate>(
    rt: &R,
    alloc: Global,
    workload: Workload,
    limits: Limits,
    gate: &G,
) -> Result<Closed, AllocError>
    requires some { 1 ≤ limits.budget }
    requires few { limits.budget ≤ MAX_EVENTS }
    requires some_burst { 1 ≤ limits.burst }
    requires few_burst { limits.burst ≤ MAX_BURST }
    ensures { IfOk result (HasRun U.calls workload limits.budget) }
{
    let processors = workload.processors();
    let core = Core::<U>::start(alloc, workload, limits.budget)?;
    let Ok((words, keeper, pollers)) = LineWords::new(alloc, processors) else {
        core.discard();
        return Err(AllocError);
    };
    run_named::<U, Brand, R, G>(rt, alloc, core, words, keeper, pollers, limits, gate)
}

// The same, for the machine that K names.
fn run_named<U: UserLevel, K: Named + Send + Sync, R: Threads + Wait + Sync, G: Gate>(
    rt: &R,
    alloc: Global,
    core: Core<U>,
    words: LineWords,
    keeper: Keeper,
    pollers: Vec<Poller>,
    limits: Limits,
    gate: &G,
) -> Result<Closed, AllocError>
    requires core { machine core ≡ opening U.calls K.workload }
    requires budget { core.budget ≡ K.budget }
    requires limits { limits.budget ≡ K.budget }
    requires few { limits.budget ≤ MAX_EVENTS }
    requires some_burst { 1 ≤ limits.burst }
    requires few_burst { limits.burst ≤ MAX_BURST }
    requires words { words ≡ K.table }
    requires keeper { keeper ≡ fresh_keeper K.table K.workload.processors }
    requires pollers { pollers.items ≡ fresh_pollers K.table K.workload.processors }
    ensures { IfOk result (HasRun U.calls K.workload K.budget) }
{
    let processors = core.workload().processors();
    core.workload().ranges();
    let (machine, mut seats) = Machine::<U, K>::start(alloc, core, words, keeper, pollers)?;
    drive(rt, &machine, seats.as_mut_slice(), processors, limits, gate);
    Ok(machine.close(seats))
}

// A worker for each seat, each in a host thread of its own; they are joined at the end.
fn drive<U: UserLevel, K: Named + Send + Sync, R: Threads + Wait + Sync, G: Gate>(
    rt: &R,
    machine: &Machine<U, K>,
    seats: &mut [Seat<K>],
    processors: u16,
    limits: Limits,
    gate: &G,
)
    requires processors { processors ≡ K.workload.processors }
    requires some_burst { 1 ≤ limits.burst }
    requires few_burst { limits.burst ≤ MAX_BURST }
    ensures { (i : ℕ) (d : SeatView) → i < length seats.old →
        let old = slice_index_or seats.old i d in
        HasWorked K.workload (quota_of processors old.poller.proc.0 limits.budget) limits.burst old (slice_index_or seats.new i d) }
{
    thread::for_each_mut(
        rt,
        seats,
        MAX_PROCESSORS as usize,
        &|_i, seat: &mut Seat<K>|
            requires { (processors ≡ K.workload.processors) × (1 ≤ limits.burst) × (limits.burst ≤ MAX_BURST) }
            ensures { HasWorked K.workload (quota_of processors seat.old.poller.proc.0 limits.budget) limits.burst seat.old seat.new }
        {
            let quota = quota(limits.budget, processors, seat.proc());
            // A worker that runs out of memory leaves a history without an end.
            let _ = work(rt, machine, seat, quota, limits.burst, gate);
        },
    );
}
