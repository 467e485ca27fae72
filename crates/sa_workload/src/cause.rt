// Why a line is refused, before it is known which line it is.
ghost use Rattle.std.specs.Prelude.{◌≡◌};
ghost use Rattle.sa_workload.specs.declared.cause.Refusal.TheVariants.{Because, OutOfMemory};
ghost use Rattle.sa_workload.specs.Stage.{unread_at};

use sa_base::{Bad, Cause, Unread};
use std::alloc::{AllocError, AllocFailed};

/// Why the reader does not go on after a line.
#[derive(Clone, Copy)]
pub enum Refusal {
    /// The line is wrong.
    Because(Cause),
    /// Memory ran out.
    OutOfMemory,
}

impl Refusal {
    /// The same of the line of this number.
    pub fn at(self, line: u64) -> Unread
        ensures { result ≡ unread_at line self }
    {
        match self {
            Refusal::Because(cause) => Unread::Bad(Bad::new(line, cause)),
            Refusal::OutOfMemory => Unread::OutOfMemory,
        }
    }
}

impl From<Cause> for Refusal {
    ghost from_gives = { λ c e. e ≡ Because c };

    fn from(cause: Cause) -> Self {
        Refusal::Because(cause)
    }
}

impl From<AllocError> for Refusal {
    ghost from_gives = { λ _ e. e ≡ OutOfMemory };

    fn from(_: AllocError) -> Self {
        Refusal::OutOfMemory
    }
}

impl<T: Drop> From<AllocFailed<T>> for Refusal {
    ghost from_gives = { λ _ e. e ≡ OutOfMemory };

    fn from(_: AllocFailed<T>) -> Self {
        Refusal::OutOfMemory
    }
}
