// Why there is no draft.
ghost use Rattle.std.specs.Prelude.{◌≡◌};
ghost use Rattle.toga_draft.specs.declared.unread.Unread.TheVariants.{OutOfMemory};

use std::alloc::{AllocError, AllocFailed};
use toga_diagnostic::Fault;

/// Why a source was not read.
#[derive(Drop)]
pub enum Unread {
    /// It has an error.
    Wrong(Fault),
    OutOfMemory,
}

impl From<AllocError> for Unread {
    ghost from_gives = { λ _ e. e ≡ OutOfMemory };

    fn from(_e: AllocError) -> Unread {
        Unread::OutOfMemory
    }
}

impl<T: Drop> From<AllocFailed<T>> for Unread {
    ghost from_gives = { λ _ e. e ≡ OutOfMemory };

    fn from(_e: AllocFailed<T>) -> Unread {
        Unread::OutOfMemory
    }
}
