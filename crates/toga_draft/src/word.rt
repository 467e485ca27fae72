// The words of a line, with their columns.
ghost use Rattle.std.specs.Prelude.{◌≡◌, IfOk};
ghost use Rattle.toga_draft.specs.Reading.{Gives};
ghost use Rattle.toga_draft.specs.Words.{fault_at, words_in, words_of};

use crate::unread::Unread;
use std::alloc::{AllocError, Global};
use std::marker::Model;
use toga_diagnostic::{About, Cause, Fault, Part};
use toga_lines::{first_unprinted, places_of, word_at};
use toga_source::Name;

/// A word: its bytes, and the number of its first one in its line, from 1.
#[derive(Drop)]
pub struct Word {
    pub text: Name,
    pub column: usize,
}

/// A word of a line that is read. Contracts see it as a word.
#[derive(Drop)]
pub(crate) struct LineWord<'a> {
    pub(crate) text: &'a [u8],
    pub(crate) column: usize,
}

impl<'a> Model for LineWord<'a> {
    ghost use Rattle.std.specs.Prelude.{◌+◌, ◌^◌, ◌≤◌, length};
    ghost use Rattle.toga_draft.specs.declared.word.Word.{Word};

    ghost Value = { Word };

    ghost view = { λ w. record { text = w.text.now; column = w.column } };

    // A line has fewer bytes than that.
    ghost invariant = { λ w. w.column + length w.text.now ≤ 2 ^ 63 };
}

impl<'a> LineWord<'a> {
    /// The word, to be kept.
    pub(crate) fn kept(&self, alloc: Global) -> Result<Word, AllocError>
        ensures { IfOk result (λ word. word ≡ self.now) }
    {
        Ok(Word {
            text: self.name(alloc)?,
            column: self.column,
        })
    }

    /// Its bytes, to be kept.
    pub(crate) fn name(&self, alloc: Global) -> Result<Name, AllocError>
        ensures { IfOk result (λ name. name ≡ self.now.text) }
    {
        Ok(Name::new(Vec::from_slice(alloc, self.text)?))
    }

    /// The error of the word.
    pub(crate) fn fault(&self, line: u64, cause: Cause) -> Unread
        ensures { result ≡ Unread.Wrong (fault_at line self.now cause) }
    {
        Unread::Wrong(Fault {
            line,
            column: self.column,
            width: self.text.len(),
            cause,
        })
    }

    /// The error that the word tells alone.
    pub(crate) fn about(&self, line: u64, about: About) -> Unread
        ensures { result ≡ Unread.Wrong (fault_at line self.now (Cause.About about)) }
    {
        self.fault(line, Cause::About(about))
    }
}

/// The words of the content of a line, or the error of its first byte that is neither a printed ASCII character nor a tab.
#[tactic(auto, unfolding(crate::specs::Words::words_in))]
pub(crate) fn words_in<'a>(
    alloc: Global,
    line: u64,
    content: &'a [u8],
) -> Result<Vec<LineWord<'a>>, Unread>
    ensures { Gives (λ words. words.items) result (words_in line content.now) }
{
    if let Some(at) = first_unprinted(content) {
        return Err(Unread::Wrong(Fault {
            line,
            column: at + 1,
            width: 1,
            cause: Cause::Part(Part::BadByte(content[at])),
        }));
    }
    let words = words_of(alloc, content)?;
    Ok(words)
}

// The words of the content of a line.
fn words_of<'a>(alloc: Global, content: &'a [u8]) -> Result<Vec<LineWord<'a>>, AllocError>
    ensures { IfOk result (λ words. words.items ≡ words_of content.now) }
{
    let mut words = Vec::new(alloc);
    for place in &places_of(alloc, content)? {
        words.push(LineWord {
            text: word_at(content, place),
            column: place.from + 1,
        })?;
    }
    Ok(words)
}
