//! The words of a line, one after another, each with what it may be refused for.
ghost use Rattle.std.specs.Prelude.{◌≡◌, ◌≤◌, [], ◌∷◌, MatchResult, IfOk};
ghost use Rattle.std.specs.Result.{result_err};
ghost use Rattle.sa_text.specs.Line.{IsWithin, text_of_line};
ghost use Rattle.sa_trace.specs.Line.{pieces_in};
ghost use Rattle.sa_trace.specs.Pieces.{at_end, number_in};

use sa_base::Cause;
use sa_text::{Line, Pieces, is_printed, read_number};

/// The pieces of a line of printed ASCII that is ended.
pub fn read_pieces(text: &[u8], line: Line) -> Result<Pieces<'_>, Cause>
    requires { IsWithin text.now line }
    ensures { result ≡ pieces_in (text_of_line text.now line) }
{
    if !is_printed(&text[line.start..line.end]) {
        return Err(Cause::NotAscii);
    }
    if !line.ended {
        return Err(Cause::Missing);
    }
    Ok(Pieces::new(text, line))
}

/// The next piece; `Missing` exactly where none is left.
pub fn next<'a>(words: &mut Pieces<'a>) -> Result<&'a [u8], Cause>
    ensures { MatchResult result
        (λ piece. words.old ≡ piece.now ∷ words.new)
        (λ cause. (words.old ≡ []) × (cause ≡ Cause.Missing)) }
{
    words.next().ok_or(Cause::Missing)
}

/// That no piece is left.
pub fn finish(words: &mut Pieces) -> Result<(), Cause>
    ensures { result_err result ≡ at_end words.old }
{
    match words.next() {
        None => Ok(()),
        Some(_) => Err(Cause::BadWord),
    }
}

/// The number that the piece spells, where it is from `least` to `greatest`.
pub fn read_within(least: u64, greatest: u64, piece: &[u8]) -> Result<u64, Cause>
    ensures number { result ≡ number_in least greatest piece.now }
    ensures small { IfOk result (λ n. n ≤ greatest) }
{
    let n = read_number(piece).ok_or(Cause::BadNumber)?;
    if least <= n && n <= greatest {
        Ok(n)
    } else {
        Err(Cause::OutOfRange)
    }
}
