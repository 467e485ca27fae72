ghost use Rattle.std.specs.Prelude.{◌≡◌};
ghost use Rattle.sa_base.specs.Cause.{cause_number, bad_at};
ghost use Rattle.sa_base.specs.declared.refusal.Unread.TheVariants.{OutOfMemory};

use std::alloc::{AllocError, AllocFailed};
use std::error::Error;
use std::fmt;

/// The first thing that is wrong with a line of a text.
#[derive(Clone, Copy, Debug)]
pub enum Cause {
    /// A byte is not from 0x20 to 0x7E.
    NotAscii = 1,
    /// Another word is expected, or none.
    BadWord = 2,
    /// A number is expected.
    BadNumber = 3,
    /// The number is out of its range, or not in its order.
    OutOfRange = 4,
    /// The line says again what the one before says.
    Twice = 5,
    /// What the number names is not declared.
    NoSuchName = 6,
    /// A jump goes to no place of its program.
    BadTarget = 7,
    /// There are more lines of this kind, or more bytes, than may be.
    TooMany = 8,
    /// A word, a line or the end of a line is missing.
    Missing = 9,
}

impl Cause {
    /// The number of the cause, from 1 to 9.
    pub fn number(self) -> u8
        ensures { result ≡ cause_number self }
    {
        self as u8
    }
}

/// Why a text is refused: the first line that is wrong, from 1, and the number of the cause.
#[derive(Clone, Copy, Debug)]
pub struct Bad {
    pub line: u64,
    pub why: u8,
}

impl Bad {
    /// The refusal of the line of this number, from 1, for this cause.
    pub fn new(line: u64, cause: Cause) -> Bad
        ensures { result ≡ bad_at line cause }
    {
        Bad {
            line,
            why: cause.number(),
        }
    }
}

impl fmt::Display for Bad {
    fn fmt<W: fmt::Write>(&self, f: &mut fmt::Formatter<W>) -> fmt::Result {
        write!(f, "line {}: why {}", self.line, self.why)
    }
}

impl Error for Bad {}

/// Why a text was not read.
#[derive(Clone, Copy, Debug)]
pub enum Unread {
    /// The text is none of its kind.
    Bad(Bad),
    /// Memory ran out.
    OutOfMemory,
}

impl fmt::Display for Unread {
    fn fmt<W: fmt::Write>(&self, f: &mut fmt::Formatter<W>) -> fmt::Result {
        match self {
            Unread::Bad(bad) => write!(f, "{bad}"),
            Unread::OutOfMemory => write!(f, "out of memory"),
        }
    }
}

impl Error for Unread {}

impl From<AllocError> for Unread {
    ghost from_gives = { λ _ e. e ≡ OutOfMemory };

    fn from(_: AllocError) -> Self {
        Unread::OutOfMemory
    }
}

impl<T: Drop> From<AllocFailed<T>> for Unread {
    ghost from_gives = { λ _ e. e ≡ OutOfMemory };

    fn from(_: AllocFailed<T>) -> Self {
        Unread::OutOfMemory
    }
}
