// The lines of losses that may follow a trace text: a run on virtual processors ends in them.
ghost use Rattle.std.specs.Prelude.{◌≡◌, ◌≤◌, length};
ghost use Rattle.sa_text.specs.Line.{IsWithin};
ghost use Rattle.sa_drawing.specs.Losses.{losses_at, is_loss_of, is_loss, are_losses, trace_part};

use sa_text::{Line, Lines, Pieces, read_number};

/// The trace text of an input: the input without the lines of losses at its end, where what follows the trace is nothing else.
#[tactic(auto, unfolding(crate::specs::Losses::trace_part))]
pub fn trace_part(input: &[u8]) -> &[u8]
    ensures part { result.now ≡ trace_part input.now }
    ensures short { length result.now ≤ length input.now }
{
    let end = losses_at(input);
    if are_losses(&input[end..]) {
        &input[..end]
    } else {
        input
    }
}

// Where the first line begins that follows another one and begins with the word of a loss; the input's end where there is none.
fn losses_at(input: &[u8]) -> usize
    ensures at { result ≡ losses_at input.now }
    ensures within { result ≤ length input.now }
{
    for (i, byte) in input.iter().enumerate() {
        if *byte == b'\n' && input[i + 1..].starts_with(b"lost ") {
            return i + 1;
        }
    }
    input.len()
}

// Each line is that of a loss: of space 0, of space 1, and so on.
fn are_losses(text: &[u8]) -> bool
    ensures { result ≡ are_losses text.now }
{
    let mut lines = Lines::new(text);
    while let Some(line) = lines.next() {
        if !is_loss(text, line) {
            return false;
        }
    }
    true
}

// The line is `lost S N`, where S is the number of lines before it.
fn is_loss(text: &[u8], line: Line) -> bool
    requires { IsWithin text.now line }
    ensures { result ≡ is_loss text.now line }
{
    let mut pieces = Pieces::new(text, line);
    let Some(word) = pieces.next() else {
        return false;
    };
    let Some(space) = pieces.next() else {
        return false;
    };
    let Some(lost) = pieces.next() else {
        return false;
    };
    if pieces.next().is_some() {
        return false;
    }
    line.ended && is_loss_of(line.number, word, space, lost)
}

// These are the words of a loss in the line of this number, from 1.
fn is_loss_of(number: u64, word: &[u8], space: &[u8], lost: &[u8]) -> bool
    ensures { result ≡ is_loss_of number word.now space.now lost.now }
{
    let Some(s) = read_number(space) else {
        return false;
    };
    word == b"lost".as_slice() && s == number.saturating_sub(1) && read_number(lost).is_some()
}
