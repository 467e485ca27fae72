// A history, replayed.
ghost use Rattle.std.specs.Prelude.{◌≡◌, IfOk, OnOk};
ghost use Rattle.sa_laws.specs.State.{opening_state};
ghost use Rattle.sa_debug.specs.Reached.{CanPlay};
ghost use Rattle.sa_debug.specs.Views.{state_behind};

use sa_base::Item;
use sa_replay::Replay;
use sa_spaces::Workload;
use std::alloc::{AllocError, Global};

// Takes these items of a run, by this replay, which is at the opening. Fails only where memory runs out.
fn take_items(replay: &mut Replay, items: &[Item]) -> Result<(), AllocError>
    requires opens { replay.old.state ≡ opening_state replay.old.workload }
    requires plays { CanPlay replay.old.workload (opening_state replay.old.workload) items.now }
    ensures { OnOk result (replay.new.state
        ≡ state_behind replay.old.workload (opening_state replay.old.workload) items.now) }
{
    for item in items {
        replay.change(item.proc, &item.what)?;
    }
    Ok(())
}

/// The abstract machine after these items of a run of the workload.
pub(crate) fn replayed(
    alloc: Global,
    workload: &Workload,
    items: &[Item],
) -> Result<Replay, AllocError>
    requires { CanPlay workload.now (opening_state workload.now) items.now }
    ensures { IfOk result (λ replay.
        replay.state ≡ state_behind workload.now (opening_state workload.now) items.now) }
{
    let mut replay = Replay::start(alloc, workload)?;
    match take_items(&mut replay, items) {
        Ok(()) => Ok(replay),
        Err(error) => {
            replay.discard();
            Err(error)
        }
    }
}
