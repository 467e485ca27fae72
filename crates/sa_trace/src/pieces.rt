// What a piece says where a number, a field or a word is expected.
ghost use Rattle.std.specs.Prelude.{◌≡◌, ◌≤◌, length, find};
ghost use Rattle.std.specs.Result.{result_err};
ghost use Rattle.sa_trace.specs.Pieces.{field_in, fields_in, and_then, wrong_count, has_note, kind_at, note_at, end_of, with_rest};

use crate::field::Field;
use crate::kind::{KINDS, Kind, MAX_FIELDS};
use crate::words::{finish, next, read_within};
use arrayvec::ArrayVec;
use sa_base::{Cause, End};
use sa_text::Pieces;

/// The fields of a record.
pub(crate) type Fields = ArrayVec<Option<u64>, MAX_FIELDS>;

// What the piece says of such a field.
fn read_field(field: Field, piece: &[u8]) -> Result<Option<u64>, Cause>
    ensures { result ≡ field_in field piece.now }
{
    let range = field.range();
    if range.optional && piece == b"-".as_slice() {
        return Ok(None);
    }
    let n = read_within(0, range.greatest, piece)?;
    Ok(Some(n))
}

/// What the pieces that are left say of these fields.
pub(crate) fn read_fields(fields: &[Field], words: &mut Pieces) -> Result<Fields, Cause>
    requires { length fields.now ≤ MAX_FIELDS }
    ensures { and_then result (λ values. Ok values.items) ≡ fields_in fields.now words.old }
{
    let mut values = Fields::new();
    for field in fields {
        let piece = next(words)?;
        let value = read_field(*field, piece)?;
        values.push(value);
    }
    finish(words)?;
    Ok(values)
}

/// Whether the pieces that are left are these numbers.
pub(crate) fn check_counts(counts: &[u64], words: &mut Pieces) -> Result<(), Cause>
    ensures { result_err result ≡ wrong_count counts.now words.old }
{
    for count in counts {
        let piece = next(words)?;
        read_within(*count, *count, piece)?;
    }
    finish(words)
}

/// The kind that the next piece names, or where that is `told`, the next two.
pub(crate) fn read_kind(words: &mut Pieces) -> Result<Kind, Cause>
    ensures { with_rest result words.new ≡ kind_at words.old }
{
    let word = next(words)?;
    if word == b"told".as_slice() {
        return read_note(words);
    }
    Kind::of_word(word).ok_or(Cause::BadWord)
}

// The kind of the notice that the next piece names.
fn read_note(words: &mut Pieces) -> Result<Kind, Cause>
    ensures { with_rest result words.new ≡ note_at words.old }
{
    let word = next(words)?;
    note_of(word).ok_or(Cause::BadWord)
}

// The kind whose word is `told` and this one.
fn note_of(word: &[u8]) -> Option<Kind>
    ensures { result ≡ find (has_note word.now) KINDS }
{
    KINDS.iter().copied().find(|kind| is_note(*kind, word))
}

// Whether the kind's word is `told` and this one.
fn is_note(kind: Kind, word: &[u8]) -> bool
    ensures { result ≡ has_note word.now kind }
{
    match kind.form().word.strip_prefix(b"told ") {
        None => false,
        Some(note) => note == word,
    }
}

/// How a run ended.
pub(crate) fn read_end(word: &[u8]) -> Result<End, Cause>
    ensures { result ≡ end_of word.now }
{
    if word == b"alldone".as_slice() {
        return Ok(End::AllDone);
    }
    if word == b"stuck".as_slice() {
        return Ok(End::Stuck);
    }
    if word == b"budget".as_slice() {
        return Ok(End::Budget);
    }
    Err(Cause::BadWord)
}
