// What an input is refused with that is too long.
ghost use Rattle.std.specs.Prelude.{◌≡◌, ◌≤◌, length};
ghost use Rattle.sa_input.specs.Refusals.{too_long};

use sa_base::{Bad, Cause};

/// What an input is refused with that is longer than a limit.
#[tactic(auto, unfolding(crate::specs::Refusals::too_long))]
pub fn refusal_of_long(limit: usize, input: &[u8]) -> Bad
    requires { limit ≤ length input.now }
    ensures { result ≡ too_long limit input.now }
{
    let before = input[..limit].iter().filter(|byte| **byte == b'\n').count();
    Bad::new(before as u64 + 1, Cause::TooMany)
}
