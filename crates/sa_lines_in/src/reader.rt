// The reader of lines.
ghost use Rattle.std.specs.Prelude.{◌≡◌, ◌+◌, ◌<◌, ◌≤◌, ◌++◌, length, take, drop, IsErrOf, IfOk, OnErr};
ghost use Rattle.std.specs.Io.KnownBytes.{Keeps};
ghost use Rattle.arrayvec.specs.ArrayVec.{array_vec_len};
ghost use Rattle.sa_io.specs.Faults.{HasRisen};
ghost use Rattle.sa_lines_in.specs.Line.{line_len};
ghost use Rattle.sa_lines_in.specs.Reading.{is_decided, AnswersLine, FillsBy};

use crate::line::{LINE_LIMIT, line_len};
use arrayvec::ArrayVec;
use sa_base::Cause;
use sa_io::{Failed, PIECE, Source};
use std::marker::Model;

/// A line without its line feed.
pub type ShortLine = ArrayVec<u8, LINE_LIMIT>;

/// Why no line was read.
#[derive(Clone, Copy)]
pub enum NoLine {
    /// The line is wrong for this cause: `Missing` if the input ends before its line feed, `TooMany` if it is longer than
    /// `LINE_LIMIT`, and `NotAscii`; the first of them that applies at the first byte, from the left, where one does.
    Bad(Cause),
    /// A read failed.
    Fault,
}

/// The most bytes of one read.
const ROOM: usize = PIECE - LINE_LIMIT;

/// A reader of lines, which keeps what was read and is not used yet. It takes no memory. Contracts see the bytes that are kept.
#[derive(Drop)]
pub struct LineReader {
    bytes: ArrayVec<u8, PIECE>,
    // what is kept begins here
    from: usize,
}

impl Model for LineReader {
    ghost use Rattle.std.specs.Prelude.{◌≤◌, ℕ, List, length, drop};
    ghost use Rattle.sa_io.specs.declared.pieces.TheConstants.{PIECE};

    ghost Value = { List ℕ };

    ghost view = { λ r. drop r.from r.bytes.items };

    ghost invariant = { λ r. (r.from ≤ length r.bytes.items) × (length r.bytes.items ≤ PIECE) };
}

impl LineReader {
    /// A reader that keeps these bytes.
    pub fn new(kept: &[u8]) -> Self
        requires { length kept.now ≤ PIECE }
        ensures { result ≡ kept.now }
    {
        let mut bytes = ArrayVec::new();
        extend(&mut bytes, kept);
        LineReader { bytes, from: 0 }
    }

    /// Whether the next line is whole in what is kept, or what is kept says why it is wrong: then no read is made for it.
    pub fn is_decided(&self) -> bool
        ensures { result ≡ is_decided (line_len self.now) }
    {
        match line_len(self.kept()) {
            Ok(_) => true,
            Err(Cause::Missing) => false,
            Err(_) => true,
        }
    }

    /// The next line. Reads are made only as long as it is not whole in what is kept, and what came too much is kept.
    pub fn next_line<S: Source>(&mut self, source: &mut S) -> Result<ShortLine, NoLine>
        ensures answer { AnswersLine self.old self.new (S.left source.old) (S.left source.new) result }
        ensures fault { IsErrOf result NoLine.Fault → HasRisen (S.faults source.old) (S.faults source.new) }
        ensures counted { S.faults source.old ≤ S.faults source.new }
    {
        loop {
            match line_len(self.kept()) {
                Ok(len) => return Ok(self.take(len)),
                Err(Cause::Missing) => {}
                Err(cause) => return Err(NoLine::Bad(cause)),
            }
            match self.fill(source) {
                Ok(0) => return Err(NoLine::Bad(Cause::Missing)),
                Ok(_) => {}
                Err(Failed) => return Err(NoLine::Fault),
            }
        }
    }

    // What is kept.
    fn kept(&self) -> &[u8]
        ensures { result.now ≡ self.now }
    {
        &self.bytes.as_slice()[self.from..]
    }

    // Takes a line of this length from the front, with its line feed.
    fn take(&mut self, len: usize) -> ShortLine
        requires short { len ≤ LINE_LIMIT }
        requires within { len < length self.old }
        ensures line { result.items ≡ take len self.old }
        ensures rest { self.new ≡ drop (len + 1) self.old }
    {
        let mut line = ArrayVec::new();
        extend(&mut line, &self.kept()[..len]);
        self.from += len + 1;
        line
    }

    // Reads once, and answers how many bytes came, which are behind what is kept. Its pieces are cleared: so it is a function of its own,
    // and a line that is whole costs none of that.
    #[inline(never)]
    fn fill<S: Source>(&mut self, source: &mut S) -> Result<usize, Failed>
        requires { length self.old ≤ LINE_LIMIT }
        ensures ok { IfOk result (λ n. FillsBy self.old self.new (S.left source.old) (S.left source.new) n) }
        ensures err { OnErr result ((self.new ≡ self.old) × Keeps (S.left source.old) (S.left source.new)) }
        ensures fault { OnErr result (HasRisen (S.faults source.old) (S.faults source.new)) }
        ensures counted { S.faults source.old ≤ S.faults source.new }
    {
        let mut piece = [0; ROOM];
        let count = source.read(&mut piece)?;
        let mut bytes = ArrayVec::new();
        extend(&mut bytes, self.kept());
        extend(&mut bytes, &piece[..count]);
        self.bytes = bytes;
        self.from = 0;
        Ok(count)
    }
}

// Appends these bytes.
fn extend<const N: usize>(to: &mut ArrayVec<u8, N>, bytes: &[u8])
    requires { array_vec_len to.old + length bytes.now ≤ N }
    ensures { to.new.items ≡ to.old.items ++ bytes.now }
{
    let Ok(()) = to.try_extend_from_slice(bytes) else {
        unreachable!()
    };
}
