// A trace text, read line by line.
ghost use Rattle.std.specs.Prelude.{◌≡◌, ◌+◌, ◌<◌, ◌≤◌, [], ◌∷◌, length, slice_index, take, MatchOption, IfSome};
ghost use Rattle.sa_text.specs.LineText.{LacksLineFeed, line_texts};
ghost use Rattle.sa_text.specs.Line.{IsWithin, text_of_line};
ghost use Rattle.sa_trace.specs.Reading.{bad_after, cause_after};

use crate::line::{Said, read_line};
use crate::quick::quick_item;
use crate::so_far::SoFar;
use crate::words::read_pieces;
use sa_base::{Bad, Cause};
use sa_text::Line;
use std::marker::Model;

/// Reads a trace text line by line. It cannot fail for want of memory.
#[derive(Drop)]
pub struct Reader<'a> {
    // The text from the next line on.
    rest: &'a [u8],
    // How many lines came before it.
    passed: u64,
    so_far: SoFar,
}

impl<'a> Model for Reader<'a> {
    ghost use Rattle.std.specs.Prelude.{◌+◌, ◌^◌, ◌<◌, All, length};
    ghost use Rattle.sa_text.specs.LineText.{line_texts};
    ghost use Rattle.sa_trace.specs.Reader.{LeftToRead};

    ghost Value = { LeftToRead };

    ghost view = { λ r. record {
      number = r.passed + 1;
      so = r.so_far;
      lines = line_texts r.rest.now;
    } };

    // a line has a byte at least, and no kind has more items than there are lines so far
    ghost invariant = { λ r. (r.passed + length r.rest.now < 2 ^ 63) × All (λ n. n < r.passed + 1) r.so_far.counts };
}

impl<'a> Reader<'a> {
    ghost use Rattle.std.specs.Prelude.{◌<◌, Err, IfOk, MatchResult};
    ghost use Rattle.sa_trace.specs.Reading.{read_of};
    ghost use Rattle.sa_trace.specs.Reader.{left, with_said};

    /// A reader at the first line of the text.
    pub fn new(text: &'a [u8]) -> Self
        ensures told { left result ≡ read_of text.now }
        ensures few { length result.lines ≤ length text.now }
    {
        Reader {
            rest: text,
            passed: 0,
            so_far: SoFar::new(),
        }
    }

    /// What the next line says.
    ///
    /// `Err` exactly where it is bad, or missing, or where a line follows the last one. After the
    /// last line, and after an `Err`, nothing is promised of what the reader says next.
    pub fn next(&mut self) -> Result<Said, Bad>
        ensures says { MatchResult result (λ said. left self.old ≡ with_said said (left self.new))
            (λ bad. left self.old ≡ Err bad) }
        ensures fewer { IfOk result (λ _. length self.new.lines < length self.old.lines) }
    {
        let Some(found) = quick_item(&self.so_far, self.rest) else {
            return self.next_of_any_form();
        };
        self.rest = found.rest;
        self.passed += 1;
        self.so_far.add(found.item);
        Ok(Said::Next(found.item))
    }

    // The same of a line of any form.
    #[inline(never)]
    fn next_of_any_form(&mut self) -> Result<Said, Bad>
        ensures says { MatchResult result (λ said. left self.old ≡ with_said said (left self.new))
            (λ bad. left self.old ≡ Err bad) }
        ensures fewer { IfOk result (λ _. length self.new.lines < length self.old.lines) }
    {
        let number = self.passed + 1;
        let text = self.rest;
        let Some((line, rest)) = split_line(text, number) else {
            return Err(Bad::new(number, Cause::Missing));
        };
        let said = match read_line(&self.so_far, text, line) {
            Err(cause) => return Err(Bad::new(number, cause)),
            Ok(said) => said,
        };
        self.rest = rest;
        self.passed = number;
        match said {
            Said::Next(item) => {
                self.so_far.add(item);
                Ok(Said::Next(item))
            }
            Said::Last(end, events) => {
                if let Some(bad) = bad_behind(rest, number + 1) {
                    return Err(bad);
                }
                Ok(Said::Last(end, events))
            }
        }
    }
}

// The first line of a text, which has this number, and what is behind it: `None` exactly where no line is left.
#[tactic(auto, using(crate::proofs::FirstLine::ended_first, crate::proofs::FirstLine::open_first))]
fn split_line(text: &[u8], number: u64) -> Option<(Line, &[u8])>
    ensures line { MatchOption result (line_texts text.now ≡ []) (λ found.
        line_texts text.now ≡ text_of_line text.now found.0 ∷ line_texts found.1.now) }
    ensures within { IfSome result (λ found. IsWithin text.now found.0) }
    ensures fewer { IfSome result (λ found. length found.1.now + 1 ≤ length text.now) }
{
    if text.is_empty() {
        return None;
    }
    let end = bytes_of_line(text);
    if end == text.len() {
        return Some((line_to(number, end, false), &[]));
    }
    Some((line_to(number, end, true), &text[end + 1..]))
}

// The line of this number from the first byte of a text on.
fn line_to(number: u64, end: usize, ended: bool) -> Line
    ensures { result ≡ record { number = number; start = 0; end = end; ended = ended } }
{
    Line {
        number,
        start: 0,
        end,
        ended,
    }
}

// How many bytes are before the first line feed: all of them where none is.
fn bytes_of_line(text: &[u8]) -> usize
    ensures within { result ≤ length text.now }
    ensures before { LacksLineFeed (take result text.now) }
    ensures stopped { result < length text.now → slice_index text.now result ≡ 10 }
{
    for (end, byte) in text.iter().enumerate() {
        if *byte == b'\n' {
            return end;
        }
    }
    text.len()
}

// What is wrong with a text behind the last line: its first line, if there is one, which has this number.
fn bad_behind(text: &[u8], number: u64) -> Option<Bad>
    ensures { result ≡ bad_after cause_after number (line_texts text.now) }
{
    let (line, _) = split_line(text, number)?;
    match read_pieces(text, line) {
        Ok(_) => Some(Bad::new(number, Cause::BadWord)),
        Err(cause) => Some(Bad::new(number, cause)),
    }
}
