// What a line of a trace text says after the items before it.
ghost use Rattle.std.specs.Prelude.{◌≡◌};
ghost use Rattle.sa_text.specs.Line.{IsWithin, text_of_line};
ghost use Rattle.sa_trace.specs.Pieces.{number_in};
ghost use Rattle.sa_trace.specs.Line.{least_event, processor_in, record_in, item_at, counts_at, end_at, said_by, line_in};

use crate::from_parts::record_with;
use crate::pieces::{check_counts, read_end, read_fields, read_kind};
use crate::so_far::SoFar;
use crate::words::{next, read_pieces, read_within};
use sa_base::{Cause, End, Item, ProcNo, Record};
use sa_text::{Line, Pieces};

/// What a line says.
#[derive(Clone, Copy)]
pub enum Said {
    /// The next item.
    Next(Item),
    /// The run ended so, after that many events: this is the last line.
    Last(End, u64),
}

/// What the line says after what is so far, or the first thing that is wrong with it.
pub(crate) fn read_line(so_far: &SoFar, text: &[u8], line: Line) -> Result<Said, Cause>
    requires { IsWithin text.now line }
    ensures { result ≡ line_in so_far.now (text_of_line text.now line) }
{
    let mut words = read_pieces(text, line)?;
    read_words(so_far, &mut words)
}

// What the pieces of a line say.
fn read_words(so_far: &SoFar, words: &mut Pieces) -> Result<Said, Cause>
    ensures { result ≡ said_by so_far.now words.old }
{
    let piece = next(words)?;
    if piece == b"end".as_slice() {
        return read_last(so_far, words);
    }
    let event = read_within(least_event(so_far.last), u64::MAX, piece)?;
    read_item(so_far.last, event, words)
}

// The least event that may follow this item.
fn least_event(last: Option<Item>) -> u64
    ensures { result ≡ least_event last }
{
    match last {
        None => 0,
        Some(item) => item.event,
    }
}

// What follows the event of a line: its processor, and the record.
fn read_item(last: Option<Item>, event: u64, words: &mut Pieces) -> Result<Said, Cause>
    ensures { result ≡ item_at last event words.old }
{
    let piece = next(words)?;
    let proc = read_processor(last, event, piece)?;
    let what = read_record(words)?;
    Ok(Said::Next(Item {
        event,
        proc: ProcNo(proc),
        what,
    }))
}

// The processor of an event after this item.
fn read_processor(last: Option<Item>, event: u64, piece: &[u8]) -> Result<u16, Cause>
    ensures { result ≡ processor_in last event piece.now }
{
    match last {
        None => read_small(0, u16::MAX, piece),
        Some(item) => {
            if event == item.event {
                read_small(item.proc.0, item.proc.0, piece)
            } else {
                read_small(0, u16::MAX, piece)
            }
        }
    }
}

// The number of 16 bits that the piece spells, where it is from `least` to `greatest`.
fn read_small(least: u16, greatest: u16, piece: &[u8]) -> Result<u16, Cause>
    ensures { result ≡ number_in least greatest piece.now }
{
    let n = read_within(u64::from(least), u64::from(greatest), piece)?;
    Ok(n as u16)
}

// The record of these pieces.
fn read_record(words: &mut Pieces) -> Result<Record, Cause>
    ensures { result ≡ record_in words.old }
{
    let kind = read_kind(words)?;
    let fields = read_fields(kind.form().fields, words)?;
    record_with(kind, fields.as_slice()).ok_or(Cause::OutOfRange)
}

// What follows the word `end`: how the run ended, the number of events, and the counts.
fn read_last(so_far: &SoFar, words: &mut Pieces) -> Result<Said, Cause>
    ensures { result ≡ end_at so_far.now words.old }
{
    let word = next(words)?;
    let end = read_end(word)?;
    read_counts(least_event(so_far.last), &so_far.counts, end, words)
}

// The number of events, and the counts.
fn read_counts(least: u64, counts: &[u64], end: End, words: &mut Pieces) -> Result<Said, Cause>
    ensures { result ≡ counts_at least counts.now end words.old }
{
    let piece = next(words)?;
    let events = read_within(least, u64::MAX, piece)?;
    check_counts(counts, words)?;
    Ok(Said::Last(end, events))
}
