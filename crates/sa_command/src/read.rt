ghost use Rattle.std.specs.Prelude.{◌≡◌, map, string_bytes};
ghost use Rattle.sa_command.specs.Commands.{command_of, named, run_of, load_of, migrate_of};

use crate::check::read_check;
use crate::command::{Command, ScheduleWord};
use crate::debug::read_debug;
use crate::explore::read_explore;
use crate::kernel::read_kernel;
use crate::options::{NO_OPTIONS, Options, read_options};
use crate::threads::read_threads;
use crate::value::read_within;
use crate::vp::read_vp;
use sa_base::{DEFAULT_BUDGET, MAX_EVENTS, PackageName};
use sa_io::Words;
use sa_text::read_number;

/// The command that the words are: `None` exactly where they are none. It cannot fail for want of memory.
pub fn read_words(words: &Words) -> Option<Command>
    ensures { result ≡ command_of words.now }
{
    read_list(words.list())
}

fn read_list(words: &[String]) -> Option<Command>
    ensures { result ≡ command_of (map string_bytes words.now) }
{
    match words {
        [] => None,
        [name, rest @ ..] => read_named(name, rest),
    }
}

// The command of this name, and these words after it.
fn read_named(name: &str, words: &[String]) -> Option<Command>
    ensures { result ≡ named name.now (map string_bytes words.now) }
{
    if name == "run" {
        return read_run(words);
    }
    if name == "threads" {
        return read_threads(words);
    }
    if name == "load" {
        return read_load(words);
    }
    if name == "migrate" {
        return read_migrate(words);
    }
    if name == "check" {
        return read_check(words);
    }
    if name == "vp" {
        return read_vp(words);
    }
    if name == "debug" {
        return read_debug(words);
    }
    if name == "explore" {
        return read_explore(words);
    }
    if name == "kernel" {
        return read_kernel(words);
    }
    None
}

fn read_run(words: &[String]) -> Option<Command>
    ensures { result ≡ run_of (map string_bytes words.now) }
{
    let taken = Options {
        schedule: true,
        budget: true,
        user_level: true,
        ..NO_OPTIONS
    };
    let settings = read_options(taken, words)?;
    Some(Command::Run {
        schedule: settings.schedule.unwrap_or(ScheduleWord::RoundRobin),
        budget: settings.budget.unwrap_or(DEFAULT_BUDGET),
        user_level: settings.user_level.unwrap_or(PackageName::FastThreads),
    })
}

fn read_load(words: &[String]) -> Option<Command>
    ensures { result ≡ load_of (map string_bytes words.now) }
{
    let taken = Options {
        budget: true,
        ..NO_OPTIONS
    };
    match words {
        [] => None,
        [number, rest @ ..] => {
            let number = read_number(number.as_bytes())?;
            let settings = read_options(taken, rest)?;
            Some(Command::Load {
                number,
                budget: settings.budget.unwrap_or(DEFAULT_BUDGET),
            })
        }
    }
}

fn read_migrate(words: &[String]) -> Option<Command>
    ensures { result ≡ migrate_of (map string_bytes words.now) }
{
    match words {
        [number] => {
            let slice = read_within(1, MAX_EVENTS, number.as_bytes())?;
            Some(Command::Migrate {
                slice: slice as u32,
            })
        }
        _ => None,
    }
}
