// The text in front of the lines, which is read first.
ghost use Rattle.std.specs.Prelude.{◌≡◌, ◌+◌, ◌≤◌, ◌++◌, [], length, drop, codes, IfOk, IsErrOf};
ghost use Rattle.std.specs.Str.{bytes_eq};
ghost use Rattle.sa_io.specs.Faults.{HasRisen};
ghost use Rattle.sa_io.specs.Input.{LosesAtMost};
ghost use Rattle.sa_front.specs.Front.{ReadsFront, TakesPiece, IsOpen};

use sa_io::{PIECE, ReadError, Source};
use sa_lines_in::LineReader;
use std::alloc::{AllocError, Global};

/// What was read in front of the lines.
#[derive(Drop)]
pub struct Front {
    /// The bytes through the first line that is `close`; or all, where there is no such line.
    pub text: Vec<u8>,
    /// The reader of the lines behind it.
    pub lines: LineReader,
}

/// Reads the source through its first line that is `close`, or to its end, or until one byte more than the limit was got. No read
/// is made once that line has come, and what came too much is kept for the lines. Whatever it answers, the source has lost the bytes
/// that were got, and no others: at most one more than the limit.
pub fn read_front<S: Source>(
    alloc: Global,
    limit: usize,
    source: &mut S,
) -> Result<Front, ReadError>
    ensures front { IfOk result (λ front.
        ReadsFront limit (S.left source.old) (S.left source.new) front.text.items front.lines) }
    ensures fault { IsErrOf result ReadError.Fault → HasRisen (S.faults source.old) (S.faults source.new) }
    ensures lost { LosesAtMost (limit + 1) (S.left source.old) (S.left source.new) }
    ensures counted { S.faults source.old ≤ S.faults source.new }
{
    let mut text = Vec::new(alloc);
    let mut line = 0;
    let mut piece = [0; PIECE];
    while text.len() <= limit {
        let room = PIECE.min((limit - text.len()).saturating_add(1));
        let count = source.read(&mut piece[..room])?;
        if count == 0 {
            return Ok(unclosed(text));
        }
        let came = &piece[..count];
        if let Some(used) = take_piece(&mut text, &mut line, came)? {
            let lines = LineReader::new(&came[used..]);
            return Ok(Front { text, lines });
        }
    }
    Ok(unclosed(text))
}

// A text that no line follows.
fn unclosed(text: Vec<u8>) -> Front
    ensures text { result.text ≡ text }
    ensures lines { result.lines ≡ [] }
{
    Front {
        text,
        lines: LineReader::new(&[]),
    }
}

// Appends the bytes of a piece to the text, through the end of a line that is `close`, and answers how many they are if there is such
// a line. Otherwise all bytes are appended, and `line` is where the last line begins.
fn take_piece(
    text: &mut Vec<u8>,
    line: &mut usize,
    piece: &[u8],
) -> Result<Option<usize>, AllocError>
    requires within { line.old ≤ length text.old.items }
    requires no_close { IsOpen text.old.items (drop line.old text.old.items) }
    ensures { IfOk result (TakesPiece text.old.items text.new.items line.new piece.now) }
{
    for (i, byte) in piece.iter().enumerate() {
        let is_end = *byte == b'\n' && is_close(&text[*line..]);
        text.push(*byte)?;
        if is_end {
            return Ok(Some(i + 1));
        }
        if *byte == b'\n' {
            *line = text.len();
        }
    }
    Ok(None)
}

// The line is `close`.
fn is_close(line: &[u8]) -> bool
    ensures { result ≡ bytes_eq line.now (codes "close") }
{
    line == b"close".as_slice()
}
