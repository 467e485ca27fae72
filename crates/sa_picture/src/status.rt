// How the program ends.
ghost use Rattle.std.specs.Prelude.{◌≡◌};
ghost use Rattle.sa_picture.specs.Status.{code_of, status_of, status_of_no_words};

use sa_base::Bad;
use sa_io::{NoWords, ReadError};

/// How the top call ended. `code` is the program's exit status.
#[derive(Clone, Copy)]
pub enum Status {
    /// The picture or page was written, whole.
    Drawn,
    /// The words are no request.
    Usage,
    /// A read failed.
    ReadFault,
    /// A write failed.
    WriteFault,
    /// Memory ran out.
    OutOfMemory,
    /// The first of two texts is no workload text.
    BadWorkload(Bad),
    /// The input is too long, or no trace text.
    BadTrace(Bad),
    /// There is more to draw than a picture or a page may have.
    TooMuch,
}

impl From<NoWords> for Status {
    ghost from_gives = { λ why status. status ≡ status_of_no_words why };

    fn from(why: NoWords) -> Self {
        match why {
            NoWords::NoText => Status::Usage,
            NoWords::OutOfMemory => Status::OutOfMemory,
        }
    }
}

impl From<ReadError> for Status {
    ghost from_gives = { λ error status. status ≡ status_of error };

    fn from(error: ReadError) -> Self {
        match error {
            ReadError::Fault => Status::ReadFault,
            ReadError::OutOfMemory => Status::OutOfMemory,
        }
    }
}

impl Status {
    /// The program's exit status: 0 where the picture or page was written. A status that `sa` has too means the same there.
    pub fn code(self) -> u8
        ensures { result ≡ code_of self }
    {
        match self {
            Status::Drawn => 0,
            Status::Usage => 1,
            Status::BadWorkload(_) => 2,
            Status::ReadFault => 5,
            Status::WriteFault => 6,
            Status::OutOfMemory => 7,
            Status::BadTrace(_) => 9,
            Status::TooMuch => 10,
        }
    }
}
