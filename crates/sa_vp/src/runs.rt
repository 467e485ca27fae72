ghost use Rattle.std.specs.Prelude.{◌≡◌, ◌⊎◌, ◌≤◌, [], IfOk, IfErr};
ghost use Rattle.sa_sched.specs.Kind.{order_of, AreAmong};
ghost use Rattle.sa_vp.specs.Run.{RunsTo, RunsSoFar};

use crate::vp::Vp;
use sa_base::{End, MAX_EVENTS, Trace};
use sa_sched::laws::turns_are_in_order;
use sa_sched::{Kind, Schedule};
use sa_spaces::Workload;
use std::alloc::Global;

/// A run that ended.
#[derive(Drop)]
pub struct Ended {
    pub trace: Trace,
    pub end: End,
    /// The number of its last event, 0 to 1,000,000.
    pub events: u64,
    /// What each space has lost, in turns.
    pub lost: Vec<u64>,
}

/// Runs the workload on virtual processors by the order of turns until it ends, within `budget` events, 1 to 1,000,000. An
/// error is want of memory, with the trace so far.
pub fn run(alloc: Global, workload: Workload, kind: Kind, budget: u64) -> Result<Ended, Trace>
    requires some { 1 ≤ budget }
    requires few { budget ≤ MAX_EVENTS }
    requires among { AreAmong workload.processors (order_of kind) }
    ensures ok { IfOk result (λ ended. RunsTo workload (order_of kind) budget
        ended.trace.items ended.end ended.events ended.lost.items) }
    ensures err { IfErr result (λ trace. (trace.items ≡ [])
        ⊎ RunsSoFar workload (order_of kind) budget trace.items) }
{
    turns_are_in_order();
    workload.ranges();
    let mut schedule = Schedule::new(kind, workload.processors());
    let Ok(mut vp) = Vp::start(alloc, workload, budget) else {
        return Err(Trace::new(alloc));
    };
    loop {
        if let Some(end) = vp.end() {
            let events = vp.events();
            let (trace, lost) = vp.into_losses();
            return Ok(Ended {
                trace,
                end,
                events,
                lost,
            });
        }
        let Ok(()) = vp.turn(schedule.next()) else {
            return Err(vp.into_trace());
        };
    }
}
