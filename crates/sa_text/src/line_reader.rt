// The lines of a text, one after another.
ghost use Rattle.std.specs.Prelude.{◌≡◌, ◌+◌, ◌≤◌, [], ◌∷◌, length, map, IfSome, MatchOption};

use crate::scan::length_before;
use std::marker::Model;

/// Where a line is in a text: its bytes are `text[start..end]`.
#[derive(Clone, Copy)]
pub struct Line {
    /// The line's number, from 1.
    pub number: u64,
    /// The place of its first byte, or of its line feed where the line is empty.
    pub start: usize,
    /// The place after its last byte: at most the text's length.
    pub end: usize,
    /// Whether a line feed follows, at `end`.
    pub ended: bool,
}

/// A reader of the lines of a text. It cannot fail for want of memory.
///
/// A line feed ends a line, and what follows the last one is a line where it is not empty.
#[derive(Drop)]
pub struct Lines<'a> {
    text: &'a [u8],
    // where the next line begins
    start: usize,
    // how many lines came before it
    passed: u64,
}

impl<'a> Model for Lines<'a> {
    ghost use Rattle.std.specs.Prelude.{◌+◌, ◌≤◌, length};
    ghost use Rattle.sa_text.specs.Line.{LinesLeft, lines_from};

    ghost Value = { LinesLeft };

    ghost view = { λ l. record {
      text = l.text.now;
      number = l.passed + 1;
      left = lines_from l.text.now (l.passed + 1) l.start;
    } };

    ghost invariant = { λ l. (l.start ≤ length l.text.now) × (l.passed ≤ l.start) };
}

impl<'a> Lines<'a> {
    ghost use Rattle.sa_text.specs.LineText.{line_texts};
    ghost use Rattle.sa_text.specs.Line.{lines_of, text_of_line, IsWithin};

    /// A reader at the first line of `text`.
    pub fn new(text: &'a [u8]) -> Self
        ensures text { result.text ≡ text.now }
        ensures number { result.number ≡ 1 }
        ensures lines { result.left ≡ lines_of text.now }
        ensures bytes { map (text_of_line text.now) result.left ≡ line_texts text.now }
        ensures few { length result.left ≤ length text.now }
    {
        Lines {
            text,
            start: 0,
            passed: 0,
        }
    }

    /// The number of the next line, or the one that it would have where no line is left.
    pub fn number(&self) -> u64
        ensures { result ≡ self.now.number }
    {
        self.passed + 1
    }

    /// The next line; `None` exactly where no line is left.
    pub fn next(&mut self) -> Option<Line>
        ensures text { self.new.text ≡ self.old.text }
        ensures first { MatchOption result
            ((self.old.left ≡ []) × (self.new ≡ self.old))
            (λ line. self.old.left ≡ line ∷ self.new.left) }
        ensures number { IfSome result (λ line.
            (line.number ≡ self.old.number) × (self.new.number ≡ self.old.number + 1)) }
        ensures within { IfSome result (IsWithin self.old.text) }
    {
        let start = self.start;
        if start == self.text.len() {
            return None;
        }
        let end = start + length_before(&self.text[start..], b'\n');
        let ended = end < self.text.len();
        self.passed += 1;
        self.start = if ended { end + 1 } else { end };
        Some(Line {
            number: self.passed,
            start,
            end,
            ended,
        })
    }
}

impl<'a> Iterator for Lines<'a> {
    ghost use Rattle.std.specs.Iterator.{YieldsFirst, item_count};

    type Item = Line;

    ghost next_gives = { YieldsFirst (λ lines. lines.left) };

    ghost remaining = { item_count (λ lines. lines.left) };

    fn next(&mut self) -> Option<Line> {
        Lines::next(self)
    }
}
