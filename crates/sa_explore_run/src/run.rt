// A search and what is told of it.
ghost use Rattle.std.specs.Prelude.{◌≤◌, IfOk, IfSome};
ghost use Rattle.std.specs.Option.{option_copied};
ghost use Rattle.sa_base.specs.declared.limits.TheConstants.{MAX_EVENTS};
ghost use Rattle.sa_debug.specs.Reached.{IsPlayable};
ghost use Rattle.sa_debug.specs.Stuck.{StuckThreadsWait};
ghost use Rattle.sa_explore_runs.specs.Runs.{CanBeRun};
ghost use Rattle.sa_explore_run.specs.Behind.{LeadToStuck};
ghost use Rattle.sa_explore_run.specs.Answer.{AreStuckWaits, IsAnswer};

use crate::waiting::left_behind;
use sa_abstract::UserLevel;
use sa_explore::{Progress, explore};
use sa_explore_model::{Explored, Found};
use sa_keys::Keyed;
use sa_spaces::Workload;
use sa_states::MAX_STATES;
use sa_waits::Wait;
use std::alloc::{AllocError, Global};

/// What is told of a search.
#[derive(Drop)]
pub struct Answer {
    /// What it found.
    pub explored: Explored,
    /// The threads that wait at the end of the schedule to a stuck end, in order of spaces and threads: each that was made and is not done.
    pub waits: Vec<Wait>,
}

/// Goes through every order of turns of a workload, after its turn lines, and keeps at most that many states, 1 to 10,000,000. Fails only
/// where memory runs out.
pub fn search<U: Keyed, P: Progress>(
    alloc: Global,
    workload: &Workload,
    most: u32,
    progress: &mut P,
) -> Result<Answer, AllocError>
    requires some { 1 ≤ most }
    requires few { most ≤ MAX_STATES }
    requires playable { IsPlayable U.calls workload.now MAX_EVENTS }
    requires complete { StuckThreadsWait U.calls workload.now MAX_EVENTS }
    ensures { IfOk result (λ answer. IsAnswer U.calls U.plain workload.now most answer.explored answer.waits.items) }
{
    workload.ranges();
    let explored = explore::<U, P>(alloc, workload, most, progress)?;
    let waits = stuck_waits::<U>(alloc, workload, explored.stuck.as_ref())?;
    Ok(Answer { explored, waits })
}

// The threads that wait at the end of the schedule to a stuck end, if one was found.
fn stuck_waits<U: UserLevel>(
    alloc: Global,
    workload: &Workload,
    stuck: Option<&Found>,
) -> Result<Vec<Wait>, AllocError>
    requires run { IfSome (option_copied stuck) (λ found. CanBeRun U.calls workload.now found.schedule.items) }
    requires stuck { IfSome (option_copied stuck) (λ found. LeadToStuck U.calls workload.now found.schedule.items) }
    requires playable { IsPlayable U.calls workload.now MAX_EVENTS }
    requires complete { StuckThreadsWait U.calls workload.now MAX_EVENTS }
    ensures { IfOk result (λ waits. AreStuckWaits U.calls workload.now (option_copied stuck.entry) waits.items) }
{
    match stuck {
        None => Ok(Vec::new(alloc)),
        Some(found) => left_behind::<U>(alloc, workload, &found.schedule),
    }
}
