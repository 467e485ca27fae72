// What the adapters over std's readers and writers do, and that a sink in memory is made where there is memory.
use sa_io::{MemSink, Sink, Source, StdSink, StdSource};
use std::alloc::Global;
use std::io::{Error, ErrorKind, Read, Write};
use std::process::Abort;
use std::test::Fail;

// Reads as often as there are answers, each time into four bytes.
fn read_through<S: Source>(rt: &impl Abort, source: &mut S, answers: &[Option<usize>]) {
    let mut room = [0u8; 4];
    for answer in answers {
        assert!(rt; source.read(&mut room).ok() == *answer);
    }
}

// Writes the piece, and compares the answer.
fn write_piece<K: Sink>(rt: &impl Abort, sink: &mut K, piece: &[u8], answer: bool) {
    assert!(rt; sink.write(piece).is_ok() == answer);
}

// Writes "abc", "" and "def", and compares the answers.
fn write_through<K: Sink>(rt: &impl Abort, sink: &mut K, answers: [bool; 3]) {
    write_piece(rt, sink, b"abc", answers[0]);
    write_piece(rt, sink, b"", answers[1]);
    write_piece(rt, sink, b"def", answers[2]);
}

#[test]
fn a_sink_in_memory_is_made(rt: HostRuntime) -> Result<(), Fail> {
    let mut sink = MemSink::new(rt.alloc(), 6, Vec::new(rt.alloc()))?;
    write_through(&rt, &mut sink, [true, true, true]);
    assert!(rt; sink.taken() == b"abcdef".as_slice());
    Ok(())
}

// A reader and a writer that moves at most so many bytes a call, or fails in this way, turn by turn.
#[derive(Drop)]
struct Halting<'a> {
    turns: &'a [Result<usize, ErrorKind>],
    written: Vec<u8>,
}

impl<'a> Halting<'a> {
    fn next_turn(&mut self) -> Result<usize, Error> {
        let Some((turn, rest)) = self.turns.split_first() else {
            return Ok(0);
        };
        self.turns = rest;
        match *turn {
            Ok(most) => Ok(most),
            Err(kind) => Err(Error::from(kind)),
        }
    }
}

impl<'a> Read for Halting<'a> {
    fn read(&mut self, buf: &mut [u8]) -> std::io::Result<usize> {
        Ok(self.next_turn()?.min(buf.len()))
    }
}

impl<'a> Write for Halting<'a> {
    fn write(&mut self, buf: &[u8]) -> std::io::Result<usize> {
        let count = self.next_turn()?.min(buf.len());
        self.written.extend_from_slice(&buf[..count])?;
        Ok(count)
    }

    fn flush(&mut self) -> std::io::Result<()> {
        Ok(())
    }
}

const AGAIN: Result<usize, ErrorKind> = Err(ErrorKind::Interrupted);

const BROKEN: Result<usize, ErrorKind> = Err(ErrorKind::BrokenPipe);

#[test]
fn an_interrupted_read_is_made_again(rt: HostRuntime) {
    let turns = [AGAIN, AGAIN, Ok(3), BROKEN, AGAIN, Ok(9), Ok(0)];
    let mut source = StdSource::new(Halting {
        turns: &turns,
        written: Vec::new(rt.alloc()),
    });
    read_through(&rt, &mut source, &[Some(3), None, Some(4), Some(0)]);
}

// Writes through a writer of these turns, and compares the answers and what was written.
fn write_halting(
    rt: &impl Abort,
    alloc: Global,
    turns: &[Result<usize, ErrorKind>],
    answers: [bool; 3],
    written: &[u8],
) {
    let mut halting = Halting {
        turns,
        written: Vec::new(alloc),
    };
    write_through(rt, &mut StdSink::new(&mut halting), answers);
    assert!(rt; halting.written.as_slice() == written);
}

// The whole piece in parts, nothing to write, and a write of no byte; then an error in mid-piece, and a write after it.
#[test]
fn an_interrupted_write_is_made_again(rt: HostRuntime) {
    let parts = [Ok(1), AGAIN, Ok(2), Ok(1), AGAIN, Ok(0)];
    write_halting(&rt, rt.alloc(), &parts, [true, true, false], b"abcd");
    let breaks = [Ok(2), AGAIN, BROKEN, Ok(3)];
    write_halting(&rt, rt.alloc(), &breaks, [false, true, true], b"abdef");
}
