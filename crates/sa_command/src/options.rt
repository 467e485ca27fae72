ghost use Rattle.std.specs.Prelude.{◌≡◌, false, map, string_bytes};
ghost use Rattle.sa_command.specs.Commands.{with_schedule, with_budget, with_burst, with_package, with_states, with_give, with_option, settings_of, set_by};

use crate::command::{GiveWord, ScheduleWord};
use crate::value::{read_give, read_schedule, read_within};
use sa_base::{MAX_BURST, MAX_EVENTS, PackageName, read_package};
use sa_states::MAX_STATES;

/// Which options a command takes.
#[derive(Clone, Copy)]
pub(crate) struct Options {
    pub(crate) schedule: bool,
    pub(crate) budget: bool,
    pub(crate) burst: bool,
    pub(crate) user_level: bool,
    pub(crate) states: bool,
    pub(crate) give: bool,
}

/// No option: a command says which it takes beside it.
pub(crate) const NO_OPTIONS: Options = Options {
    schedule: false,
    budget: false,
    burst: false,
    user_level: false,
    states: false,
    give: false,
};

/// A command takes no option that it does not name. It does nothing.
pub(crate) fn no_options_are_taken()
    ensures { NO_OPTIONS ≡ record {
      schedule = false;
      budget = false;
      burst = false;
      user_level = false;
      states = false;
      give = false;
    } }
{}

/// What the options of a command set.
#[derive(Clone, Copy)]
pub(crate) struct Settings {
    pub(crate) schedule: Option<ScheduleWord>,
    pub(crate) budget: Option<u64>,
    pub(crate) burst: Option<u16>,
    pub(crate) user_level: Option<PackageName>,
    pub(crate) states: Option<u32>,
    pub(crate) give: Option<GiveWord>,
}

/// What these words set of the options that are taken, or none where they are no such options.
pub(crate) fn read_options(taken: Options, words: &[String]) -> Option<Settings>
    ensures { result ≡ set_by taken (map string_bytes words.now) }
{
    let nothing = Settings {
        schedule: None,
        budget: None,
        burst: None,
        user_level: None,
        states: None,
        give: None,
    };
    read_settings(taken, nothing, words)
}

// What is set after these words.
fn read_settings(taken: Options, settings: Settings, words: &[String]) -> Option<Settings>
    ensures { result ≡ settings_of taken settings (map string_bytes words.now) }
{
    match words {
        [] => Some(settings),
        [_] => None,
        [name, value, rest @ ..] => {
            let settings = with_option(taken, settings, name, value.as_bytes())?;
            read_settings(taken, settings, rest)
        }
    }
}

// What is set after one option.
fn with_option(taken: Options, settings: Settings, name: &str, value: &[u8]) -> Option<Settings>
    ensures { result ≡ with_option taken settings name.now value.now }
{
    if name == "--schedule" {
        return with_schedule(taken, settings, value);
    }
    if name == "--budget" {
        return with_budget(taken, settings, value);
    }
    if name == "--burst" {
        return with_burst(taken, settings, value);
    }
    if name == "--package" {
        return with_package(taken, settings, value);
    }
    if name == "--states" {
        return with_states(taken, settings, value);
    }
    if name == "--give" {
        return with_give(taken, settings, value);
    }
    None
}

// The option `--schedule`.
fn with_schedule(taken: Options, settings: Settings, value: &[u8]) -> Option<Settings>
    ensures { result ≡ with_schedule taken settings value.now }
{
    if !taken.schedule || settings.schedule.is_some() {
        return None;
    }
    let schedule = Some(read_schedule(value)?);
    Some(Settings {
        schedule,
        ..settings
    })
}

// The option `--budget`.
fn with_budget(taken: Options, settings: Settings, value: &[u8]) -> Option<Settings>
    ensures { result ≡ with_budget taken settings value.now }
{
    if !taken.budget || settings.budget.is_some() {
        return None;
    }
    let budget = Some(read_within(1, MAX_EVENTS, value)?);
    Some(Settings { budget, ..settings })
}

// The option `--burst`.
fn with_burst(taken: Options, settings: Settings, value: &[u8]) -> Option<Settings>
    ensures { result ≡ with_burst taken settings value.now }
{
    if !taken.burst || settings.burst.is_some() {
        return None;
    }
    let burst = Some(read_within(1, u64::from(MAX_BURST), value)? as u16);
    Some(Settings { burst, ..settings })
}

// The option `--package`.
fn with_package(taken: Options, settings: Settings, value: &[u8]) -> Option<Settings>
    ensures { result ≡ with_package taken settings value.now }
{
    if !taken.user_level || settings.user_level.is_some() {
        return None;
    }
    let user_level = Some(read_package(value)?);
    Some(Settings {
        user_level,
        ..settings
    })
}

// The option `--states`.
fn with_states(taken: Options, settings: Settings, value: &[u8]) -> Option<Settings>
    ensures { result ≡ with_states taken settings value.now }
{
    if !taken.states || settings.states.is_some() {
        return None;
    }
    let states = Some(read_within(1, u64::from(MAX_STATES), value)? as u32);
    Some(Settings { states, ..settings })
}

// The option `--give`.
fn with_give(taken: Options, settings: Settings, value: &[u8]) -> Option<Settings>
    ensures { result ≡ with_give taken settings value.now }
{
    if !taken.give || settings.give.is_some() {
        return None;
    }
    let give = Some(read_give(value)?);
    Some(Settings { give, ..settings })
}
