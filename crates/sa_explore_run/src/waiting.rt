// The threads that wait at the end of a schedule.
ghost use Rattle.std.specs.Prelude.{IfOk};
ghost use Rattle.sa_base.specs.declared.limits.TheConstants.{MAX_EVENTS};
ghost use Rattle.sa_debug.specs.Reached.{IsPlayable};
ghost use Rattle.sa_debug.specs.Stuck.{StuckThreadsWait};
ghost use Rattle.sa_explore_runs.specs.Runs.{CanBeRun};
ghost use Rattle.sa_explore_run.specs.Behind.{LeadToStuck, AreWaits, AreLeft};

use crate::history::history;
use crate::replayed::replayed;
use sa_abstract::UserLevel;
use sa_base::ProcNo;
use sa_spaces::Workload;
use sa_waits::{Wait, waits};
use std::alloc::{AllocError, Global};

/// The threads that wait after these turns of the workload, in order of spaces and threads. Fails only where memory runs out.
pub fn waits_behind<U: UserLevel>(
    alloc: Global,
    workload: &Workload,
    turns: &[ProcNo],
) -> Result<Vec<Wait>, AllocError>
    requires run { CanBeRun U.calls workload.now turns.now }
    requires playable { IsPlayable U.calls workload.now MAX_EVENTS }
    ensures { IfOk result (λ waits. AreWaits U.calls workload.now turns.now waits.items) }
{
    let trace = history::<U>(alloc, workload, turns)?;
    let replay = replayed(alloc, workload, trace.items())?;
    let found = waits(alloc, &replay);
    replay.discard();
    found
}

/// The same of turns that lead to a stuck end: each thread that was made and is not done. Fails only if memory runs out.
pub(crate) fn left_behind<U: UserLevel>(
    alloc: Global,
    workload: &Workload,
    turns: &[ProcNo],
) -> Result<Vec<Wait>, AllocError>
    requires run { CanBeRun U.calls workload.now turns.now }
    requires stuck { LeadToStuck U.calls workload.now turns.now }
    requires playable { IsPlayable U.calls workload.now MAX_EVENTS }
    requires complete { StuckThreadsWait U.calls workload.now MAX_EVENTS }
    ensures { IfOk result (λ waits. AreLeft U.calls workload.now turns.now waits.items) }
{
    let waits = waits_behind::<U>(alloc, workload, turns)?;
    Ok(waits)
}
