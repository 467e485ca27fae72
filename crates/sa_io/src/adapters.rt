// Readers and writers of std's, as sources and sinks.
ghost use Rattle.std.specs.Prelude.{◌≡◌, ◌<◌, ◌≤◌, ◌↔◌, [], length, take, IfSome, IfOk, OnOk, OnErr};
ghost use Rattle.std.specs.Io.KnownBytes.{Appends, Consumes, Keeps};
ghost use Rattle.sa_io.specs.Faults.{AppendsPrefix, HasRisen, count_up};

use crate::traits::{Failed, Sink, Source};
use std::io::{ErrorKind, Read, Write};
use std::marker::Model;

/// A reader of std's as a source. It tells the bytes that the reader tells.
#[derive(Drop)]
pub struct StdSource<R> {
    reader: R,
    faults: u64,
}

impl<R> Model for StdSource<R> {
    ghost use Rattle.sa_io.specs.Adapted.{Adapted};

    ghost Value = { Adapted R };

    ghost view = { λ s. record { inner = s.reader; faults = s.faults } };
}

impl<R> StdSource<R> {
    /// A source over the reader, with no fault yet.
    pub fn new(reader: R) -> StdSource<R>
        ensures { result ≡ record { inner = reader; faults = 0 } }
    {
        StdSource { reader, faults: 0 }
    }
}

impl<R: Read> Source for StdSource<R> {
    ghost left = { λ s. R.remaining s.inner };

    ghost faults = { λ s. s.faults };

    // Reads again where a signal interrupts the reader. Any other error of the reader's is a fault.
    fn read(&mut self, into: &mut [u8]) -> Result<usize, Failed>
        // As any source does.
        ensures within { IfOk result (λ n. n ≤ length into.old) }
        ensures taken { IfOk result (λ n.
            Consumes (R.remaining self.old.inner) (R.remaining self.new.inner) (take n into.new)) }
        ensures end { 0 < length into.old → IfOk result
            (λ n. IfSome (R.remaining self.old.inner) (λ bytes. (n ≡ 0) ↔ (bytes ≡ []))) }
        ensures failed { OnErr result (HasRisen self.old.faults self.new.faults) }
        ensures err { OnErr result
            (Keeps (R.remaining self.old.inner) (R.remaining self.new.inner)) }
        ensures counted { self.old.faults ≤ self.new.faults }

        // The count is exact.
        ensures no_fault { OnOk result (self.new.faults ≡ self.old.faults) }
        ensures one_fault { OnErr result (self.new.faults ≡ count_up self.old.faults) }
    {
        for _ in 0..u64::MAX {
            match self.reader.read(into) {
                Ok(count) => return Ok(count),
                Err(error) => {
                    if error.kind() != ErrorKind::Interrupted {
                        break;
                    }
                }
            }
        }
        self.faults = self.faults.saturating_add(1);
        Err(Failed)
    }
}

/// A writer of std's as a sink. It tells the bytes that the writer tells.
#[derive(Drop)]
pub struct StdSink<W> {
    writer: W,
    faults: u64,
}

impl<W> Model for StdSink<W> {
    ghost use Rattle.sa_io.specs.Adapted.{Adapted};

    ghost Value = { Adapted W };

    ghost view = { λ s. record { inner = s.writer; faults = s.faults } };
}

impl<W> StdSink<W> {
    /// A sink over the writer, with no fault yet.
    pub fn new(writer: W) -> StdSink<W>
        ensures { result ≡ record { inner = writer; faults = 0 } }
    {
        StdSink { writer, faults: 0 }
    }
}

impl<W: Write> Sink for StdSink<W> {
    ghost taken = { λ s. W.contents s.inner };

    ghost faults = { λ s. s.faults };

    // Writes on until the writer has the whole piece, again where a signal interrupts it. Any other
    // error of the writer's is a fault, and so is a write of no byte.
    fn write(&mut self, piece: &[u8]) -> Result<(), Failed>
        // As any sink does.
        ensures taken { OnOk result
            (Appends (W.contents self.old.inner) (W.contents self.new.inner) piece.now) }
        ensures failed { OnErr result (HasRisen self.old.faults self.new.faults) }
        ensures err { OnErr result
            (AppendsPrefix (W.contents self.old.inner) (W.contents self.new.inner) piece.now) }
        ensures counted { self.old.faults ≤ self.new.faults }

        // The count is exact.
        ensures no_fault { OnOk result (self.new.faults ≡ self.old.faults) }
        ensures one_fault { OnErr result (self.new.faults ≡ count_up self.old.faults) }
    {
        let mut rest = piece;
        for _ in 0..u64::MAX {
            if rest.is_empty() {
                return Ok(());
            }
            match self.writer.write(rest) {
                Ok(0) => break,
                Ok(count) => rest = &rest[count..],
                Err(error) => {
                    if error.kind() != ErrorKind::Interrupted {
                        break;
                    }
                }
            }
        }
        self.faults = self.faults.saturating_add(1);
        Err(Failed)
    }
}
