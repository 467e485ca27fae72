// The command `explore`.
ghost use Rattle.std.specs.Prelude.{◌≡◌, map, string_bytes};
ghost use Rattle.sa_command.specs.Commands.{explore_of};

use crate::command::Command;
use crate::options::{NO_OPTIONS, Options, read_options};
use sa_base::PackageName;

/// The number of states that an exploration keeps where none is given.
pub const DEFAULT_STATES: u32 = 1_000_000;

pub(crate) fn read_explore(words: &[String]) -> Option<Command>
    ensures { result ≡ explore_of (map string_bytes words.now) }
{
    let taken = Options {
        states: true,
        user_level: true,
        give: true,
        ..NO_OPTIONS
    };
    let settings = read_options(taken, words)?;
    Some(Command::Explore {
        states: settings.states.unwrap_or(DEFAULT_STATES),
        user_level: settings.user_level.unwrap_or(PackageName::FastThreads),
        give: settings.give,
    })
}

/// The number of states where none is given. It does nothing.
pub fn default_states_are_these()
    ensures { DEFAULT_STATES ≡ 1000000 }
{}
