// The pieces of a line, between its spaces.
ghost use Rattle.std.specs.Prelude.{◌≡◌, ◌+◌, ◌<◌, ◌≤◌, ◌↔◌, ◌&&◌, nat_le, [], ◌∷◌, length, slice_index, slice_range, IsNone, IfSome, MatchOption};
ghost use Rattle.sa_text.specs.Line.{IsWithin};
ghost use Rattle.sa_text.specs.Pieces.{pieces_of, pieces_from, is_printed, LacksSpace};

use crate::line_reader::Line;
use crate::scan::length_before;
use std::marker::Model;

/// The piece of `line` that begins at `from`, as the place of its first byte and the place after its last: it
/// goes up to the next space or the line's end, and may be empty.
///
/// `None` exactly where `from` is past the line's end. The next piece begins one place after this one.
pub fn token(text: &[u8], line: &Line, from: usize) -> Option<(usize, usize)>
    requires in_text { line.now.end ≤ length text.now }
    requires in_line { line.now.start ≤ from }
    ensures none { IsNone result ↔ (line.now.end < from) }
    ensures start { IfSome result (λ piece. piece.0 ≡ from) }
    ensures end { IfSome result (λ piece. (from ≤ piece.1) × (piece.1 ≤ line.now.end)) }
    ensures no_space { IfSome result (λ piece. LacksSpace (slice_range text.now from piece.1)) }
    ensures at_space { IfSome result
        (λ piece. piece.1 < line.now.end → slice_index text.now piece.1 ≡ 32) }

    // Of the pieces from `from` on, this is the first, and the others are those that begin after its end.
    ensures pieces { MatchOption result (pieces_from text.now from line.now.end ≡ [])
        (λ piece. pieces_from text.now from line.now.end
        ≡ slice_range text.now piece.0 piece.1 ∷ pieces_from text.now (piece.1 + 1) line.now.end) }
{
    if from > line.end {
        return None;
    }
    Some((from, from + length_before(&text[from..line.end], b' ')))
}

/// The pieces of a line that are still to be read. Contracts see the list of their bytes.
#[derive(Drop)]
pub struct Pieces<'a> {
    text: &'a [u8],
    line: Line,
    // where the next piece begins
    from: usize,
}

impl<'a> Model for Pieces<'a> {
    ghost use Rattle.std.specs.Prelude.{◌≤◌, ℕ, List, length};
    ghost use Rattle.sa_text.specs.Pieces.{pieces_from};

    ghost Value = { List (List ℕ) };

    ghost view = { λ p. pieces_from p.text.now p.from p.line.end };

    ghost invariant = { λ p. (p.line.start ≤ p.from) × (p.line.end ≤ length p.text.now) };
}

impl<'a> Pieces<'a> {
    /// All pieces of the line.
    pub fn new(text: &'a [u8], line: Line) -> Self
        requires { IsWithin text.now line }
        ensures { result ≡ pieces_of (slice_range text.now line.start line.end) }
    {
        Pieces {
            text,
            line,
            from: line.start,
        }
    }

    /// The next piece; `None` exactly where none is left.
    pub fn next(&mut self) -> Option<&'a [u8]>
        ensures { MatchOption result ((self.old ≡ []) × (self.new ≡ []))
            (λ piece. self.old ≡ piece.now ∷ self.new) }
    {
        let (start, end) = token(self.text, &self.line, self.from)?;
        self.from = end + 1;
        Some(&self.text[start..end])
    }
}

/// Whether each byte is a printed ASCII character, 32 to 126.
pub fn is_printed(bytes: &[u8]) -> bool
    ensures { result ≡ is_printed bytes.now }
{
    let mut printed = true;
    for byte in bytes {
        printed &= is_printed_byte(*byte);
    }
    printed
}

// The byte is a printable ASCII character.
fn is_printed_byte(byte: u8) -> bool
    ensures { result ≡ (nat_le 32 byte && nat_le byte 126) }
{
    32 <= byte && byte <= 126
}
