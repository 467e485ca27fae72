// A source and a sink of bytes, each with a count of its faults.
ghost use Rattle.std.specs.Prelude.{◌≡◌, ℕ, ◌<◌, ◌≤◌, ◌↔◌, List, [], length, take, Option, Some, codes, IfSome, IfOk, OnOk, OnErr};
ghost use Rattle.std.specs.Io.KnownBytes.{Appends, Consumes, Keeps};
ghost use Rattle.sa_io.specs.Faults.{AppendsPrefix, HasRisen};

use std::error::Error;
use std::fmt;

/// A read or a write failed.
#[derive(Clone, Copy, Debug)]
pub struct Failed;

impl fmt::Display for Failed {
    ghost output = { λ _. Some (codes "a read or a write failed") };

    fn fmt<W: fmt::Write>(&self, f: &mut fmt::Formatter<W>) -> fmt::Result {
        f.write_str("a read or a write failed")
    }
}

impl Error for Failed {}

/// Where bytes come from.
pub trait Source {
    /// The bytes that reads will give from here on, where the source tells them.
    ghost left: { Self → Option (List ℕ) };

    /// How many reads have failed, up to 2^64 - 1, where the count stays. It may rise at a read
    /// that gives bytes, too.
    ghost faults: { Self → ℕ };

    /// Puts the next bytes at the front of `into`, and returns how many came. A read that fails takes
    /// none of them.
    fn read(&mut self, into: &mut [u8]) -> Result<usize, Failed>
        ensures within { IfOk result (λ n. n ≤ length into.old) }
        ensures taken { IfOk result
            (λ n. Consumes (left self.old) (left self.new) (take n into.new)) }

        // Nothing comes exactly at the end of input, where there is room for something.
        ensures end { 0 < length into.old
            → IfOk result (λ n. IfSome (left self.old) (λ bytes. (n ≡ 0) ↔ (bytes ≡ []))) }

        ensures failed { OnErr result (HasRisen (faults self.old) (faults self.new)) }
        ensures err { OnErr result (Keeps (left self.old) (left self.new)) }
        ensures counted { faults self.old ≤ faults self.new };
}

/// Where bytes go.
pub trait Sink {
    /// The bytes that the sink took, where it tells them.
    ghost taken: { Self → Option (List ℕ) };

    /// How many writes have failed, up to 2^64 - 1, where the count stays. It may rise at a write
    /// that takes the piece, too.
    ghost faults: { Self → ℕ };

    /// Takes the whole piece. A write that fails takes a prefix of it.
    fn write(&mut self, piece: &[u8]) -> Result<(), Failed>
        ensures taken { OnOk result (Appends (taken self.old) (taken self.new) piece.now) }
        ensures failed { OnErr result (HasRisen (faults self.old) (faults self.new)) }
        ensures err { OnErr result (AppendsPrefix (taken self.old) (taken self.new) piece.now) }
        ensures counted { faults self.old ≤ faults self.new };
}
