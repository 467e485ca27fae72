// The reading loop.
ghost use Rattle.std.specs.Prelude.{◌≡◌, ◌+◌, ◌≤◌, IfOk, IsErrOf};
ghost use Rattle.sa_io.specs.Faults.{HasRisen};
ghost use Rattle.sa_io.specs.Input.{ReadsInput, LosesAtMost};
ghost use Rattle.sa_io.specs.declared.input.ReadError.TheVariants.{Fault, OutOfMemory};

use crate::pieces::PIECE;
use crate::traits::{Failed, Source};
use std::alloc::{AllocError, Global};

/// Why an input was not read.
#[derive(Clone, Copy)]
pub enum ReadError {
    Fault,
    OutOfMemory,
}

impl From<Failed> for ReadError {
    ghost from_gives = { λ _ e. e ≡ Fault };

    fn from(_: Failed) -> Self {
        ReadError::Fault
    }
}

impl From<AllocError> for ReadError {
    ghost from_gives = { λ _ e. e ≡ OutOfMemory };

    fn from(_: AllocError) -> Self {
        ReadError::OutOfMemory
    }
}

/// Reads the source to its end, or until one byte more than the limit was got. Whatever it answers, the source has lost the
/// bytes that were got, and no others: at most one more than the limit.
pub fn read_input<S: Source>(
    alloc: Global,
    limit: usize,
    source: &mut S,
) -> Result<Vec<u8>, ReadError>
    ensures input { IfOk result
        (λ bytes. ReadsInput limit (S.left source.old) (S.left source.new) bytes.items) }
    ensures fault { IsErrOf result ReadError.Fault
        → HasRisen (S.faults source.old) (S.faults source.new) }
    ensures lost { LosesAtMost (limit + 1) (S.left source.old) (S.left source.new) }
    ensures counted { S.faults source.old ≤ S.faults source.new }
{
    let mut input = Vec::new(alloc);
    let mut piece = [0; PIECE];
    while input.len() <= limit {
        let room = PIECE.min((limit - input.len()).saturating_add(1));
        let count = source.read(&mut piece[..room])?;
        if count == 0 {
            return Ok(input);
        }
        input.extend_from_slice(&piece[..count])?;
    }
    Ok(input)
}
