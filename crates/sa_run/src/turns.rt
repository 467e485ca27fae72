ghost use Rattle.std.specs.Prelude.{◌≡◌, ◌⊎◌, ◌≤◌, [], IfOk, IfErr};
ghost use Rattle.sa_sched.specs.Kind.{order_of, AreAmong};
ghost use Rattle.sa_run.specs.Run.{RunsTo, RunsUnended};

use sa_abstract::UserLevel;
use sa_base::{End, MAX_EVENTS, Trace};
use sa_core::Core;
use sa_sched::laws::turns_are_in_order;
use sa_sched::{Kind, Schedule};
use sa_spaces::Workload;
use std::alloc::Global;

/// A run that ended.
#[derive(Drop)]
pub struct Ended {
    pub trace: Trace,
    pub end: End,
    /// The number of its last event, 1 to 1,000,000.
    pub events: u64,
}

/// Runs the workload by the order of turns until it ends, within `budget` events, 1 to 1,000,000. An error is want of
/// memory, with the trace so far: the run has no end there.
pub fn run<U: UserLevel>(
    alloc: Global,
    workload: Workload,
    kind: Kind,
    budget: u64,
) -> Result<Ended, Trace>
    requires some { 1 ≤ budget }
    requires few { budget ≤ MAX_EVENTS }
    requires among { AreAmong workload.processors (order_of kind) }
    ensures ok { IfOk result (λ ended. RunsTo U.calls workload (order_of kind) budget
        ended.trace.items ended.end ended.events) }
    ensures err { IfErr result (λ trace. (trace.items ≡ [])
        ⊎ RunsUnended U.calls workload (order_of kind) budget trace.items) }
{
    turns_are_in_order();
    let mut schedule = Schedule::new(kind, workload.processors());
    let Ok(mut core) = Core::<U>::start(alloc, workload, budget) else {
        return Err(Trace::new(alloc));
    };
    loop {
        if let Some(end) = core.end() {
            let events = core.events();
            return Ok(Ended {
                trace: core.into_trace(),
                end,
                events,
            });
        }
        let Ok(()) = core.turn(schedule.next()) else {
            return Err(core.into_trace());
        };
    }
}
