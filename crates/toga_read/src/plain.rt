// Workload texts as sources.
ghost use Rattle.std.specs.Prelude.{◌≡◌, ◌++◌, IfOk, IfErr, OnOk, Ok, slice_get};
ghost use Rattle.sa_text.specs.Line.{IsWithin};
ghost use Rattle.toga_read.specs.Reading.{Refuses, is_instr_word, instr_line, instr_lines, plain_of, plain_source, refusal};

use crate::source::Source;
use crate::unread::Unread;
use sa_base::Unread as NoWorkload;
use sa_instr::Operation;
use sa_spaces::Workload;
use sa_text::{Line, Lines, Pieces};
use std::alloc::{AllocError, Global};
use toga_source::plain_names;

/// The source that a workload text is.
#[tactic(auto, unfolding(crate::specs::Reading::plain_of))]
pub(crate) fn read_plain(alloc: Global, text: &[u8]) -> Result<Source, Unread>
    ensures ok { IfOk result (λ source. plain_of text.now ≡ Ok source) }
    ensures err { IfErr result (λ unread. Refuses unread (plain_of text.now)) }
{
    match sa_workload::read(alloc, text) {
        Ok(workload) => Ok(plain_source(alloc, text, workload)?),
        Err(unread) => Err(refusal(unread)),
    }
}

// Why there is no source where there is no workload.
fn refusal(unread: NoWorkload) -> Unread
    ensures { result ≡ refusal unread }
{
    match unread {
        NoWorkload::Bad(bad) => Unread::Workload(bad),
        NoWorkload::OutOfMemory => Unread::OutOfMemory,
    }
}

// The source of the workload whose text this is.
fn plain_source(alloc: Global, text: &[u8], workload: Workload) -> Result<Source, AllocError>
    ensures { IfOk result (λ source. source ≡ plain_source text.now workload) }
{
    let names = plain_names(alloc, &workload)?;
    let lines = instr_lines(alloc, text)?;
    Ok(Source::new(workload, names, lines))
}

// The lines of the instructions of a workload text.
fn instr_lines(alloc: Global, text: &[u8]) -> Result<Vec<u64>, AllocError>
    ensures { IfOk result (λ lines. lines.items ≡ instr_lines text.now) }
{
    let mut numbers = Vec::new(alloc);
    let mut lines = Lines::new(text);
    while let Some(line) = lines.next() {
        push_instr_line(&mut numbers, text, line)?;
    }
    Ok(numbers)
}

// Appends the number of the line, if it begins with the word of an instruction.
fn push_instr_line(numbers: &mut Vec<u64>, text: &[u8], line: Line) -> Result<(), AllocError>
    requires { IsWithin text.now line }
    ensures { OnOk result (numbers.new.items ≡ numbers.old.items ++ instr_line text.now line) }
{
    let mut words = Pieces::new(text, line);
    if is_instr(&mut words) {
        numbers.push(line.number)?;
    }
    Ok(())
}

// Whether the first of the words is that of an instruction.
fn is_instr(words: &mut Pieces) -> bool
    ensures { result ≡ is_instr_word (slice_get words.old 0) }
{
    match words.next() {
        Some(word) => Operation::of_word(word).is_some(),
        None => false,
    }
}
