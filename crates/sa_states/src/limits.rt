// The limits of a search, by number.
ghost use Rattle.std.specs.Prelude.{◌≡◌};

use crate::MAX_STATES;

/// The limits of a search, by number. It does nothing.
pub fn state_limits_are_these()
    ensures { MAX_STATES ≡ 10000000 }
{}
