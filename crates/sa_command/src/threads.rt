// The command `threads`.
ghost use Rattle.std.specs.Prelude.{◌≡◌, map, string_bytes};
ghost use Rattle.sa_command.specs.Commands.{threads_of};

use crate::command::Command;
use crate::options::{NO_OPTIONS, Options, read_options};
use sa_base::{DEFAULT_BUDGET, DEFAULT_BURST};

pub(crate) fn read_threads(words: &[String]) -> Option<Command>
    ensures { result ≡ threads_of (map string_bytes words.now) }
{
    let taken = Options {
        budget: true,
        burst: true,
        ..NO_OPTIONS
    };
    let settings = read_options(taken, words)?;
    Some(Command::Threads {
        budget: settings.budget.unwrap_or(DEFAULT_BUDGET),
        burst: settings.burst.unwrap_or(DEFAULT_BURST),
    })
}
