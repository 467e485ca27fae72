// The command `debug`.
ghost use Rattle.std.specs.Prelude.{◌≡◌, map, string_bytes};
ghost use Rattle.sa_command.specs.Commands.{debug_of};

use crate::command::Command;
use crate::options::{NO_OPTIONS, Options, read_options};
use sa_base::DEFAULT_BUDGET;

pub(crate) fn read_debug(words: &[String]) -> Option<Command>
    ensures { result ≡ debug_of (map string_bytes words.now) }
{
    let taken = Options {
        budget: true,
        ..NO_OPTIONS
    };
    let settings = read_options(taken, words)?;
    Some(Command::Debug {
        budget: settings.budget.unwrap_or(DEFAULT_BUDGET),
    })
}
