// The commands of a script, one after another.
ghost use Rattle.std.specs.Prelude.{◌≡◌, All, IfOk, OnErr};
ghost use Rattle.sa_core.specs.View.{machine};
ghost use Rattle.sa_debug.specs.OverMachines.{over_machines, session};
ghost use Rattle.sa_package_model.specs.Step.{fast_calls};
ghost use Rattle.sa_debug.specs.script.Text.{FitsCommand};
ghost use Rattle.sa_package_runs.specs.Told.{CameSoFar};
ghost use Rattle.sa_cli.specs.Debugged.{AreDone};

use sa_debug::{DebugCommand, Session, print_reply};
use sa_package::FastThreads;
use std::alloc::{AllocError, Global};

/// Does the commands, whose numbers are in the ranges of the workload. Answers the texts of the replies, one after another.
///
/// An error is want of memory, after some of the commands.
pub(crate) fn do_all(
    alloc: Global,
    debugged: &mut Session<FastThreads>,
    commands: &[DebugCommand],
) -> Result<Vec<u8>, AllocError>
    requires { All (FitsCommand (machine debugged.old.core).workload) commands.now }
    ensures ok { IfOk result (λ text. AreDone debugged.old.core.budget commands.now
        (session debugged.old) (session debugged.new) text.items) }
    ensures err { OnErr result (CameSoFar (over_machines fast_calls debugged.old.core.budget) commands.now
        (session debugged.old) (session debugged.new)) }
    ensures budget { debugged.new.core.budget ≡ debugged.old.core.budget }
{
    let mut text = Vec::new(alloc);
    for command in commands {
        let reply = debugged.command(command)?;
        print_reply(&reply, &mut text)?;
    }
    Ok(text)
}
