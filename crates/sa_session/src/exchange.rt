// What was said and is not written yet, and the reader of replies.
ghost use Rattle.std.specs.Prelude.{◌≡◌, ◌⊎◌, ◌≤◌, [], true, false, IfOk, IfErr, OnOk, OnErr};
ghost use Rattle.std.specs.Io.KnownBytes.{Appends};
ghost use Rattle.sa_io.specs.Faults.{AppendsPrefix, HasRisen};
ghost use Rattle.sa_io.specs.Pieces.{GoesOut};
ghost use Rattle.sa_lines_in.specs.Line.{line_len};
ghost use Rattle.sa_lines_in.specs.Reading.{is_decided};
ghost use Rattle.sa_session.specs.declared.exchange.NoTalk.TheVariants.{OutOfMemory};
ghost use Rattle.sa_session.specs.Exchange.{Hears, IsHeard, FailsFor, WrittenFor};

use sa_base::Cause;
use sa_io::{Failed, Sink, Source};
use sa_lines_in::{LineReader, NoLine, ShortLine};
use std::alloc::{AllocError, Global};
use std::marker::Model;

/// Why a session could not go on.
#[derive(Clone, Copy)]
pub enum NoTalk {
    /// A read failed.
    Read,
    /// A write failed.
    Write,
    /// Memory ran out.
    OutOfMemory,
}

impl From<AllocError> for NoTalk {
    ghost from_gives = { λ error why. why ≡ OutOfMemory };

    fn from(_error: AllocError) -> NoTalk {
        NoTalk::OutOfMemory
    }
}

/// What was read for a reply.
#[derive(Drop)]
pub(crate) enum Heard {
    /// A line.
    Line(ShortLine),
    /// No line, for this cause.
    Bad(Cause),
}

/// What was said and is not written yet, and the reader of replies, with what it keeps.
#[derive(Drop)]
pub(crate) struct Exchange {
    pub(crate) said: Vec<u8>,
    lines: LineReader,
}

impl Model for Exchange {
    ghost use Rattle.sa_session.specs.Exchange.{ExchangeView};

    ghost Value = { ExchangeView };

    ghost view = { λ x. record { said = x.said.items; kept = x.lines } };
}

impl Exchange {
    /// Nothing was said yet.
    pub(crate) fn new(alloc: Global, lines: LineReader) -> Exchange
        ensures said { result.said ≡ [] }
        ensures kept { result.kept ≡ lines }
    {
        Exchange {
            said: Vec::new(alloc),
            lines,
        }
    }

    /// Writes all that was said.
    pub(crate) fn write<K: Sink>(&mut self, sink: &mut K) -> Result<(), NoTalk>
        ensures said { OnOk result (self.new.said ≡ []) }
        ensures ok { OnOk result (Appends (K.taken sink.old) (K.taken sink.new) self.old.said) }
        ensures err { OnErr result (AppendsPrefix (K.taken sink.old) (K.taken sink.new) self.old.said) }
        ensures why { IfErr result (λ why. (why ≡ NoTalk.Write) × HasRisen (K.faults sink.old) (K.faults sink.new)) }
        ensures counted { K.faults sink.old ≤ K.faults sink.new }
        ensures kept { self.new.kept ≡ self.old.kept }
    {
        match sink.write(self.said.as_slice()) {
            Ok(()) => {
                self.said.clear();
                Ok(())
            }
            Err(Failed) => Err(NoTalk::Write),
        }
    }

    /// Reads the next line. If it is not whole in what is kept, all that was said is written first.
    pub(crate) fn hear<S: Source, K: Sink>(
        &mut self,
        source: &mut S,
        sink: &mut K,
    ) -> Result<Heard, NoTalk>
        ensures ok { IfOk result (IsHeard self.old.kept self.new.kept (S.left source.old) (S.left source.new)) }
        ensures out { OnOk result (GoesOut (K.taken sink.old) (K.taken sink.new) self.old.said [] self.new.said) }
        ensures err { IfErr result (λ why. WrittenFor why (K.taken sink.old) (K.taken sink.new) self.old.said) }
        ensures lost { OnErr result (Hears self.old.kept self.new.kept (S.left source.old) (S.left source.new) []) }
        ensures why { IfErr result (λ why. FailsFor why (S.faults source.old) (S.faults source.new) (K.faults sink.old) (K.faults sink.new)) }
        ensures reads { S.faults source.old ≤ S.faults source.new }
        ensures writes { K.faults sink.old ≤ K.faults sink.new }
    {
        if !self.lines.is_decided() {
            self.write(sink)?;
        }
        self.read(source)
    }

    // Reads the next line, after all that was said was written, if a read is made for it.
    fn read<S: Source>(&mut self, source: &mut S) -> Result<Heard, NoTalk>
        requires written { (self.old.said ≡ []) ⊎ (is_decided (line_len self.old.kept) ≡ true) }
        ensures ok { IfOk result (IsHeard self.old.kept self.new.kept (S.left source.old) (S.left source.new)) }
        ensures lost { OnErr result (Hears self.old.kept self.new.kept (S.left source.old) (S.left source.new) []) }
        ensures needed { OnErr result (is_decided (line_len self.old.kept) ≡ false) }
        ensures why { IfErr result (λ why. (why ≡ NoTalk.Read) × HasRisen (S.faults source.old) (S.faults source.new)) }
        ensures counted { S.faults source.old ≤ S.faults source.new }
        ensures said { self.new.said ≡ self.old.said }
    {
        match self.lines.next_line(source) {
            Ok(line) => Ok(Heard::Line(line)),
            Err(NoLine::Bad(cause)) => Ok(Heard::Bad(cause)),
            Err(NoLine::Fault) => Err(NoTalk::Read),
        }
    }
}
