// The command `check`.
ghost use Rattle.std.specs.Prelude.{◌≡◌, map, string_bytes};
ghost use Rattle.sa_command.specs.Commands.{check_of};

use crate::command::Command;
use sa_base::{RulesName, read_rules};

pub(crate) fn read_check(words: &[String]) -> Option<Command>
    ensures { result ≡ check_of (map string_bytes words.now) }
{
    match words {
        [] => Some(Command::Check {
            rules: RulesName::FastThreads,
        }),
        [name, rules] if name.as_str() == "--package" => {
            let rules = read_rules(rules.as_bytes())?;
            Some(Command::Check { rules })
        }
        _ => None,
    }
}
