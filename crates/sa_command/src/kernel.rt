// The command `kernel`.
ghost use Rattle.std.specs.Prelude.{◌≡◌, map, string_bytes};
ghost use Rattle.sa_command.specs.Commands.{kernel_of};

use crate::command::{Command, ScheduleWord};
use crate::options::{NO_OPTIONS, Options, read_options};
use sa_base::DEFAULT_BUDGET;

pub(crate) fn read_kernel(words: &[String]) -> Option<Command>
    ensures { result ≡ kernel_of (map string_bytes words.now) }
{
    let taken = Options {
        schedule: true,
        budget: true,
        ..NO_OPTIONS
    };
    let settings = read_options(taken, words)?;
    Some(Command::Kernel {
        schedule: settings.schedule.unwrap_or(ScheduleWord::RoundRobin),
        budget: settings.budget.unwrap_or(DEFAULT_BUDGET),
    })
}
