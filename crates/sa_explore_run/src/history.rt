// The history of a schedule.
ghost use Rattle.std.specs.Prelude.{IfOk};
ghost use Rattle.sa_explore_runs.specs.Runs.{CanBeRun};
ghost use Rattle.sa_explore_run.specs.Behind.{IsHistory};

use sa_abstract::UserLevel;
use sa_base::{ProcNo, Trace};
use sa_explore::replay;
use sa_spaces::Workload;
use std::alloc::{AllocError, Global};

/// The history of these turns of the workload, from its opening on. Fails only where memory runs out.
pub(crate) fn history<U: UserLevel>(
    alloc: Global,
    workload: &Workload,
    turns: &[ProcNo],
) -> Result<Trace, AllocError>
    requires { CanBeRun U.calls workload.now turns.now }
    ensures { IfOk result (λ trace. IsHistory U.calls workload.now turns.now trace.items) }
{
    let core = replay::<U>(alloc, workload, turns)?;
    Ok(core.into_trace())
}
