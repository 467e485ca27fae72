// Why no source was read.
ghost use Rattle.std.specs.Prelude.{◌≡◌};
ghost use Rattle.toga_read.specs.declared.unread.Unread.TheVariants.{OutOfMemory};
ghost use Rattle.toga_read.specs.Reading.{unread_by};

use sa_base::Bad;
use std::alloc::{AllocError, AllocFailed};
use toga_diagnostic::Fault;

/// Why no source was read.
#[derive(Drop)]
pub enum Unread {
    /// The text is no source: its first error.
    Wrong(Fault),
    /// The text begins as a workload text and is none: the first line that is wrong, and why.
    Workload(Bad),
    /// Memory ran out.
    OutOfMemory,
}

impl From<AllocError> for Unread {
    ghost from_gives = { λ _ e. e ≡ OutOfMemory };

    fn from(_: AllocError) -> Self {
        Unread::OutOfMemory
    }
}

impl<T: Drop> From<AllocFailed<T>> for Unread {
    ghost from_gives = { λ _ e. e ≡ OutOfMemory };

    fn from(_: AllocFailed<T>) -> Self {
        Unread::OutOfMemory
    }
}

impl From<toga_draft::Unread> for Unread {
    ghost from_gives = { λ unread e. e ≡ unread_by unread };

    fn from(unread: toga_draft::Unread) -> Self {
        match unread {
            toga_draft::Unread::Wrong(fault) => Unread::Wrong(fault),
            toga_draft::Unread::OutOfMemory => Unread::OutOfMemory,
        }
    }
}
