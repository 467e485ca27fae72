// A source with a schedule as its turns.
ghost use Rattle.std.specs.Prelude.{◌≡◌, ◌++◌, IfOk, OnOk};
ghost use Rattle.sa_text.specs.LineText.{line_texts, whole_line};
ghost use Rattle.toga_say.specs.Given.{before_turns, given_text, has_turns, without_feed};

use sa_base::ProcNo;
use sa_text::Lines;
use std::alloc::{AllocError, Global};
use toga_lines::{content_of, places_of, word_at};
use toga_source::push_schedule;

/// The text of a source up to its first line of turns, with these turns behind it: all of it, if it has no such line. Fails only if memory runs
/// out.
#[tactic(auto, unfolding(crate::specs::Given::given_text))]
pub fn given_source(alloc: Global, text: &[u8], turns: &[ProcNo]) -> Result<Vec<u8>, AllocError>
    ensures { IfOk result (λ given. given.items ≡ given_text text.now turns.now) }
{
    let mut out = before_turns(alloc, text)?;
    drop_feed(&mut out);
    push_schedule(&mut out, alloc, b"", turns)?;
    Ok(out)
}

// The lines before the first one of turns.
fn before_turns(alloc: Global, text: &[u8]) -> Result<Vec<u8>, AllocError>
    ensures { IfOk result (λ before. before.items ≡ before_turns (line_texts text.now)) }
{
    let mut before = Vec::new(alloc);
    let mut lines = Lines::new(text);
    while let Some(line) = lines.next() {
        let bytes = &text[line.start..line.end];
        if has_turns(alloc, bytes)? {
            return Ok(before);
        }
        push_line(&mut before, bytes, line.ended)?;
    }
    Ok(before)
}

// Appends a line, with its line feed if it has one.
fn push_line(before: &mut Vec<u8>, bytes: &[u8], ended: bool) -> Result<(), AllocError>
    ensures { OnOk result (before.new.items ≡ before.old.items
        ++ whole_line (record { bytes = bytes.now; ended = ended })) }
{
    before.extend_from_slice(bytes)?;
    if ended {
        before.extend_from_slice(b"\n")?;
    }
    Ok(())
}

// Whether a line is one of turns.
fn has_turns(alloc: Global, line: &[u8]) -> Result<bool, AllocError>
    ensures { IfOk result (λ has. has ≡ has_turns line.now) }
{
    let content = content_of(line);
    let places = places_of(alloc, content)?;
    match places.get(0) {
        Some(place) => Ok(word_at(content, place) == b"turns".as_slice()),
        None => Ok(false),
    }
}

// Takes the line feed at the end away, if there is one.
fn drop_feed(text: &mut Vec<u8>)
    ensures { text.new.items ≡ without_feed text.old.items }
{
    if let Some(b'\n') = text.last() {
        text.truncate(text.len() - 1);
    }
}
