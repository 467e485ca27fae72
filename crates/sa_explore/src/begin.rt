// The turn lines of a workload, with which each run begins.
ghost use Rattle.std.specs.Prelude.{◌≡◌, ◌≤◌, length, take, IfOk};
ghost use Rattle.sa_base.specs.declared.limits.TheConstants.{MAX_EVENTS};
ghost use Rattle.sa_core_model.specs.Run.{opening};
ghost use Rattle.sa_core.specs.View.{machine};
ghost use Rattle.sa_explore_runs.specs.Runs.{IsBegun, LeadTo};

use sa_abstract::UserLevel;
use sa_base::MAX_EVENTS;
use sa_core::Core;
use sa_keys::Keyed;
use sa_spaces::Workload;
use std::alloc::{AllocError, Global};

/// A run that has just begun.
pub(crate) struct Begun<U: UserLevel> {
    pub(crate) core: Core<U>,
    /// How many turn lines were done, 0 to 65,536: all, or those up to an end.
    pub(crate) turns: usize,
}

// Does the turn lines of the workload, in order, up to an end, by this run, which is at the opening; how many were done. Fails only where memory
// runs out.
fn do_lines<U: Keyed>(workload: &Workload, core: &mut Core<U>) -> Result<usize, AllocError>
    requires opens { machine core.old ≡ opening U.calls workload.now }
    requires budget { core.old.budget ≡ MAX_EVENTS }
    ensures within { IfOk result (λ made. made ≤ length workload.now.turns) }
    ensures begins { IfOk result (λ made. IsBegun U.calls workload.now (take made workload.now.turns)) }
    ensures leads { IfOk result (λ made.
        LeadTo U.calls workload.now (take made workload.now.turns) (machine core.new)) }
{
    workload.ranges();
    let turns = workload.turns();
    core.reserve(turns.len())?;
    let mut made = 0;
    while made < turns.len() && core.end().is_none() {
        core.turn(turns[made])?;
        made += 1;
    }
    Ok(made)
}

/// Does the turn lines of the workload, in order, up to an end. Fails only where memory runs out.
pub(crate) fn begin<U: Keyed>(alloc: Global, workload: &Workload) -> Result<Begun<U>, AllocError>
    ensures within { IfOk result (λ begun. begun.turns ≤ length workload.now.turns) }
    ensures begins { IfOk result (λ begun.
        IsBegun U.calls workload.now (take begun.turns workload.now.turns)) }
    ensures leads { IfOk result (λ begun.
        LeadTo U.calls workload.now (take begun.turns workload.now.turns) (machine begun.core)) }
{
    let mut core = Core::<U>::start(alloc, workload.copy(alloc)?, MAX_EVENTS)?;
    match do_lines(workload, &mut core) {
        Ok(turns) => Ok(Begun { core, turns }),
        Err(error) => {
            core.discard();
            Err(error)
        }
    }
}
