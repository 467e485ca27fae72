// Runs of a workload that are made again.
ghost use Rattle.std.specs.Prelude.{◌≡◌, IfOk, OnOk};
ghost use Rattle.sa_base.specs.declared.limits.TheConstants.{MAX_EVENTS};
ghost use Rattle.sa_core_model.specs.Run.{opening};
ghost use Rattle.sa_core.specs.View.{machine};
ghost use Rattle.sa_explore_runs.specs.Runs.{end, LeadTo, CanBeRun};

use sa_abstract::UserLevel;
use sa_base::{End, MAX_EVENTS, ProcNo};
use sa_core::Core;
use sa_spaces::Workload;
use std::alloc::{AllocError, Global};

// A run at the opening of the workload, with room for as many events. Fails only where memory runs out.
fn start_with_room<U: UserLevel>(
    alloc: Global,
    workload: &Workload,
    events: usize,
) -> Result<Core<U>, AllocError>
    ensures opens { IfOk result (λ core. machine core ≡ opening U.calls workload.now) }
    ensures budget { IfOk result (λ core. core.budget ≡ MAX_EVENTS) }
{
    let mut core = Core::<U>::start(alloc, workload.copy(alloc)?, MAX_EVENTS)?;
    match core.reserve(events) {
        Ok(()) => Ok(core),
        Err(error) => {
            core.discard();
            Err(error)
        }
    }
}

// Makes these turns by this run, which is at its opening. Fails only where memory runs out.
fn make_turns<U: UserLevel>(core: &mut Core<U>, turns: &[ProcNo]) -> Result<(), AllocError>
    requires can { CanBeRun U.calls (machine core.old).workload turns.now }
    requires opens { machine core.old ≡ opening U.calls (machine core.old).workload }
    requires budget { core.old.budget ≡ MAX_EVENTS }
    ensures leads { OnOk result (LeadTo U.calls (machine core.old).workload turns.now (machine core.new)) }
    ensures budget { core.new.budget ≡ MAX_EVENTS }
{
    for p in turns {
        core.turn(*p)?;
    }
    Ok(())
}

/// The run of these turns of the workload, from its opening on, with room for two turns more. Fails only where memory runs out.
pub fn replay<U: UserLevel>(
    alloc: Global,
    workload: &Workload,
    turns: &[ProcNo],
) -> Result<Core<U>, AllocError>
    requires { CanBeRun U.calls workload.now turns.now }
    ensures leads { IfOk result (λ core. LeadTo U.calls workload.now turns.now (machine core)) }
    ensures budget { IfOk result (λ core. core.budget ≡ MAX_EVENTS) }
{
    let mut core = start_with_room::<U>(alloc, workload, turns.len() + 2)?;
    match make_turns(&mut core, turns) {
        Ok(()) => Ok(core),
        Err(error) => {
            core.discard();
            Err(error)
        }
    }
}

/// How runs end where this one is, however many events it has had; `None` where they go on.
pub(crate) fn end_at<U: UserLevel>(core: &Core<U>) -> Option<End>
    ensures { result ≡ end U.calls (machine core.now) }
{
    match core.end() {
        Some(End::Budget) => None,
        other => other,
    }
}
