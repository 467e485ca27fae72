// A text that goes out in pieces of one size.
ghost use Rattle.std.specs.Prelude.{◌≡◌, ◌+◌, ◌≤◌, ◌++◌, [], length, OnOk, OnErr};
ghost use Rattle.std.specs.Io.KnownBytes.{Appends};
ghost use Rattle.arrayvec.specs.ArrayVec.{array_vec_len};
ghost use Rattle.sa_io.specs.Faults.{AppendsPrefix, HasRisen};
ghost use Rattle.sa_io.specs.Pieces.{GoesOut};

use crate::traits::{Failed, Sink};
use arrayvec::ArrayVec;
use std::marker::Model;

/// The bytes of each piece of a text but the last one.
pub const PIECE: usize = 4_096;

/// A text on its way to a sink: what was put goes out in pieces of exactly `PIECE` bytes, and the rest at the end. It takes
/// no memory. Contracts see the bytes that still wait.
#[derive(Drop)]
pub struct PieceWriter {
    waiting: ArrayVec<u8, PIECE>,
}

impl Model for PieceWriter {
    ghost use Rattle.std.specs.Prelude.{ℕ, List};

    ghost Value = { List ℕ };

    ghost view = { λ x. x.waiting.items };
}

impl PieceWriter {
    /// Before any text.
    pub fn new() -> Self
        ensures { result ≡ [] }
    {
        PieceWriter {
            waiting: ArrayVec::new(),
        }
    }

    /// Puts more of the text: each piece that is whole goes out. Where a write fails, a prefix of what waited and was put has
    /// gone out.
    pub fn put<K: Sink>(&mut self, sink: &mut K, text: &[u8]) -> Result<(), Failed>
        ensures ok { OnOk result (GoesOut (K.taken sink.old) (K.taken sink.new) self.old text.now self.new) }
        ensures err { OnErr result (AppendsPrefix (K.taken sink.old) (K.taken sink.new) (self.old ++ text.now)) }
        ensures fault { OnErr result (HasRisen (K.faults sink.old) (K.faults sink.new)) }
        ensures counted { K.faults sink.old ≤ K.faults sink.new }
    {
        let mut rest = text;
        while PIECE - self.waiting.len() <= rest.len() {
            let (front, behind) = rest.split_at(PIECE - self.waiting.len());
            extend(&mut self.waiting, front);
            sink.write(self.waiting.as_slice())?;
            self.waiting.clear();
            rest = behind;
        }
        extend(&mut self.waiting, rest);
        Ok(())
    }

    /// The text is whole: the rest goes out.
    pub fn end<K: Sink>(self, sink: &mut K) -> Result<(), Failed>
        ensures ok { OnOk result (Appends (K.taken sink.old) (K.taken sink.new) self) }
        ensures err { OnErr result (AppendsPrefix (K.taken sink.old) (K.taken sink.new) self) }
        ensures fault { OnErr result (HasRisen (K.faults sink.old) (K.faults sink.new)) }
        ensures counted { K.faults sink.old ≤ K.faults sink.new }
    {
        if self.waiting.is_empty() {
            return Ok(());
        }
        sink.write(self.waiting.as_slice())
    }
}

/// Writes the whole text, piece by piece. It takes no memory.
pub fn write_text<K: Sink>(sink: &mut K, text: &[u8]) -> Result<(), Failed>
    ensures ok { OnOk result (Appends (K.taken sink.old) (K.taken sink.new) text.now) }
    ensures err { OnErr result (AppendsPrefix (K.taken sink.old) (K.taken sink.new) text.now) }
    ensures fault { OnErr result (HasRisen (K.faults sink.old) (K.faults sink.new)) }
    ensures counted { K.faults sink.old ≤ K.faults sink.new }
{
    let mut pieces = PieceWriter::new();
    pieces.put(sink, text)?;
    pieces.end(sink)
}

// Appends these bytes.
fn extend(waiting: &mut ArrayVec<u8, PIECE>, bytes: &[u8])
    requires { array_vec_len waiting.old + length bytes.now ≤ PIECE }
    ensures { waiting.new.items ≡ waiting.old.items ++ bytes.now }
{
    let Ok(()) = waiting.try_extend_from_slice(bytes) else {
        unreachable!()
    };
}
