// The whole text of an error.
ghost use Rattle.std.specs.Prelude.{◌≡◌, ◌++◌, IfOk, OnOk, slice_range};
ghost use Rattle.toga_lines.specs.Content.{content_of};
ghost use Rattle.toga_diagnostic.specs.Text.{cause_text, diagnostic_text, is_label, nth_word, place_text, said_of, seen_text, sentence_text, word_of, words_after_label};

use crate::cause::{Cause, Fault, Part};
use crate::listed::push_counted;
use crate::sentence::{
    push_about, push_few, push_many, push_missing, push_part, push_twice, push_wanted,
};
use crate::shown::{push_carets, push_line};
use std::alloc::{AllocError, Global};
use toga_lines::{Place, content_of, places_of, word_at};

/// The text of an error in the source of this name, whose line has these bytes.
///
/// Fails only where memory runs out.
pub fn diagnostic(
    alloc: Global,
    name: &[u8],
    line: &[u8],
    fault: &Fault,
) -> Result<Vec<u8>, AllocError>
    ensures { IfOk result (λ text. text.items ≡ diagnostic_text name.now line.now fault.now) }
{
    let mut out = Vec::new(alloc);
    push_text(&mut out, alloc, name, line, fault)?;
    Ok(out)
}

// Appends the text of an error.
fn push_text(
    out: &mut Vec<u8>,
    alloc: Global,
    name: &[u8],
    line: &[u8],
    fault: &Fault,
) -> Result<(), AllocError>
    ensures { OnOk result (out.new.items ≡ out.old.items ++ diagnostic_text name.now line.now fault.now) }
{
    push_place(out, name, fault)?;
    push_said(out, alloc, line, fault)?;
    out.extend_from_slice(b"\n")?;
    push_shown(out, alloc, line, fault)
}

// Appends the sentence of an error in this line.
fn push_said(out: &mut Vec<u8>, alloc: Global, line: &[u8], fault: &Fault) -> Result<(), AllocError>
    ensures { OnOk result (out.new.items ≡ out.old.items ++ sentence_text (content_of line.now) fault.now) }
{
    push_sentence(out, alloc, content_of(line), fault)
}

// Appends what is shown of the line, and the carets below it.
fn push_shown(
    out: &mut Vec<u8>,
    alloc: Global,
    line: &[u8],
    fault: &Fault,
) -> Result<(), AllocError>
    ensures { OnOk result (out.new.items ≡ out.old.items ++ seen_text (said_of fault.now.cause line.now) fault.now) }
{
    push_seen(out, alloc, shown_of(&fault.cause, line), fault)
}

// Appends a line, and the carets below it.
fn push_seen(out: &mut Vec<u8>, alloc: Global, line: &[u8], fault: &Fault) -> Result<(), AllocError>
    ensures { OnOk result (out.new.items ≡ out.old.items ++ seen_text line.now fault.now) }
{
    push_line(out, alloc, fault.line, fault.column, line)?;
    push_carets(out, fault.column, fault.width)
}

// Appends where an error is.
#[tactic(auto, unfolding(crate::specs::Text::place_text))]
fn push_place(out: &mut Vec<u8>, name: &[u8], fault: &Fault) -> Result<(), AllocError>
    ensures { OnOk result (out.new.items ≡ out.old.items ++ place_text name.now fault.now) }
{
    out.extend_from_slice(name)?;
    push_counted(out, b":", fault.line, b":")?;
    push_counted(out, b"", fault.column as u64, b": error: ")
}

// What is shown of a line: all of it where the source is too long, else what is no comment.
fn shown_of<'a>(cause: &Cause, line: &'a [u8]) -> &'a [u8]
    ensures { result.now ≡ said_of cause.now line.now }
{
    match cause {
        Cause::Part(Part::TooLong) => line,
        _ => content_of(line),
    }
}

// Appends the sentence of an error in a line of this content.
#[tactic(auto, unfolding(crate::specs::Text::sentence_text))]
fn push_sentence(
    out: &mut Vec<u8>,
    alloc: Global,
    content: &[u8],
    fault: &Fault,
) -> Result<(), AllocError>
    ensures { OnOk result (out.new.items ≡ out.old.items ++ sentence_text content.now fault.now) }
{
    let places = places_of(alloc, content)?;
    let words = after_label(content, &places);
    push_cause(out, content, words, &fault.cause, word_of(content, fault))
}

// The bytes that an error is about.
fn word_of<'a>(content: &'a [u8], fault: &Fault) -> &'a [u8]
    ensures { result.now ≡ word_of content.now fault.now }
{
    let from = fault.column.saturating_sub(1);
    let place = Place {
        from,
        to: from.saturating_add(fault.width),
    };
    word_at(content, &place)
}

// The words of a line without its label, where others follow that.
fn after_label<'a>(content: &[u8], places: &'a [Place]) -> &'a [Place]
    ensures { result.now ≡ words_after_label content.now places.now }
{
    if places.len() > 1 && is_label(nth_word(content, places, 0)) {
        return &places[1..];
    }
    places
}

// Whether the word ends with a colon.
fn is_label(word: &[u8]) -> bool
    ensures { result ≡ is_label word.now }
{
    word.len() > 0 && word[word.len() - 1] == b':'
}

// The word of this number, or none.
fn nth_word<'a>(content: &'a [u8], places: &[Place], number: usize) -> &'a [u8]
    ensures { result.now ≡ nth_word content.now places.now number }
{
    match places.get(number) {
        Some(place) => word_at(content, place),
        None => &[],
    }
}

// Appends the sentence of a cause.
fn push_cause(
    out: &mut Vec<u8>,
    content: &[u8],
    words: &[Place],
    cause: &Cause,
    word: &[u8],
) -> Result<(), AllocError>
    ensures { OnOk result (out.new.items ≡ out.old.items ++ cause_text content.now words.now cause.now word.now) }
{
    let first = nth_word(content, words, 0);
    let second = nth_word(content, words, 1);
    let third = nth_word(content, words, 2);
    match cause {
        Cause::About(about) => push_about(out, *about, word),
        Cause::Wanted(wanted) => push_wanted(out, *wanted, word),
        Cause::Twice(twice) => push_twice(out, *twice, word),
        Cause::Missing(missing) => push_missing(out, missing, word),
        Cause::Part(part) => push_part(out, part, word),
        Cause::TooFew(next) => push_few(out, *next, first),
        Cause::TooMany(most) => push_many(out, *most, word, first, second, third),
    }
}
