// The lines of a program, and its end.
ghost use Rattle.std.specs.Prelude.{◌≡◌, ◌≤◌, ◌==◌, find, length};
ghost use Rattle.std.specs.Option.{option_map};
ghost use Rattle.sa_instr.specs.declared.limits.TheConstants.{MAX_INSTRUCTIONS};
ghost use Rattle.toga_draft.specs.Reading.{Gives, Leaves};
ghost use Rattle.toga_draft.specs.Words.{fault_at, without_colon};
ghost use Rattle.toga_draft.specs.Programs.{add_instr, add_label, instr_in, label_line, next_after, unless_alone, unless_end, whole_program};

use crate::declarations::at_most;
use crate::draft::{InstrDraft, LabelDraft, ProgramDraft};
use crate::operands::{count_words, next_of, nth_operand};
use crate::unread::Unread;
use crate::word::{LineWord, Word};
use sa_instr::{MAX_INSTRUCTIONS, OperandKind, Operation};
use std::alloc::Global;
use toga_diagnostic::{About, Cause, Fault, Kind, Next, Part, Twice};
use toga_lines::is_name;
use toga_source::Name;

/// Adds a label, at the place of the next instruction.
#[tactic(auto, unfolding(crate::specs::Programs::add_label))]
pub(crate) fn add_label(
    alloc: Global,
    line: u64,
    word: &LineWord,
    program: &mut ProgramDraft,
) -> Result<(), Unread>
    requires { length program.old.instrs ≤ MAX_INSTRUCTIONS }
    ensures { Leaves program.new result (add_label line word.now program.old) }
{
    let name = without_colon(word);
    if !is_name(name.text) {
        return Err(word.about(line, About::BadLabel));
    }
    if let Some(earlier) = label_line(&program.labels, name.text) {
        return Err(name.fault(line, Cause::Twice(Twice::Label(earlier))));
    }
    let place = program.instrs.len() as u16;
    let name = name.kept(alloc)?;
    program.labels.push(LabelDraft { name, line, place })?;
    Ok(())
}

// A word without its last byte.
fn without_colon<'a>(word: &LineWord<'a>) -> LineWord<'a>
    ensures { result ≡ without_colon word.now }
{
    LineWord {
        text: &word.text[..word.text.len().saturating_sub(1)],
        column: word.column,
    }
}

// The line of the first label with the name, if there is one.
fn label_line(labels: &[LabelDraft], name: &[u8]) -> Option<u64>
    ensures { result ≡ label_line labels.now name.now }
{
    labels
        .iter()
        .find(|l| l.name.text.bytes() == name)
        .map(|l| l.line)
}

/// Adds an instruction.
#[tactic(auto, unfolding(crate::specs::Programs::add_instr))]
pub(crate) fn add_instr(
    alloc: Global,
    line: u64,
    operation: Operation,
    word: &LineWord,
    operands: &[LineWord],
    program: &mut ProgramDraft,
) -> Result<(), Unread>
    ensures { Leaves program.new result (add_instr line operation word.now operands.now program.old) }
{
    at_most(
        line,
        word,
        Kind::Instruction,
        MAX_INSTRUCTIONS,
        program.instrs.len(),
    )?;
    let instr = instr_in(alloc, line, operation, word, operands)?;
    program.instrs.push(instr)?;
    Ok(())
}

// The instruction of a line.
#[tactic(auto, unfolding(crate::specs::Programs::instr_in))]
fn instr_in(
    alloc: Global,
    line: u64,
    operation: Operation,
    word: &LineWord,
    operands: &[LineWord],
) -> Result<InstrDraft, Unread>
    ensures { Gives (λ instr. instr) result (instr_in line operation word.now operands.now) }
{
    let kinds = operation.form().operands;
    let next = next_after(kinds, operands.len());
    count_words(line, word, operands, kinds.len(), kinds.len(), next)?;
    let first = nth_operand(alloc, line, operands, kinds, 0)?;
    let second = nth_operand(alloc, line, operands, kinds, 1)?;
    Ok(InstrDraft {
        operation,
        line,
        column: word.column,
        first,
        second,
    })
}

// What should follow so many operands of these kinds.
fn next_after(kinds: &[OperandKind], operands: usize) -> Next
    ensures { result ≡ next_after kinds.now operands }
{
    match kinds.get(operands) {
        Some(kind) => next_of(*kind),
        None => Next::Name,
    }
}

/// Looks at a program that ends.
#[tactic(auto, unfolding(crate::specs::Programs::whole_program))]
pub(crate) fn whole_program(alloc: Global, program: &ProgramDraft) -> Result<(), Unread>
    ensures { Gives (λ _. tt) result (whole_program program.now) }
{
    no_label_alone(&program.labels, program.instrs.len())?;
    match program.instrs.last() {
        Some(last) => ends(alloc, last, &program.name),
        None => Err(fault_of(
            program.line,
            &program.name,
            Cause::About(About::NoInstruction),
        )),
    }
}

// Checks that no label is at the place after the last instruction.
fn no_label_alone(labels: &[LabelDraft], place: usize) -> Result<(), Unread>
    ensures { Gives (λ _. tt) result (unless_alone (find (λ l. l.place == place) labels.now)) }
{
    match alone_label(labels, place) {
        Some(label) => Err(fault_of(label.line, &label.name, Cause::About(About::LabelAlone))),
        None => Ok(()),
    }
}

// The first label at the place.
fn alone_label(labels: &[LabelDraft], place: usize) -> Option<&LabelDraft>
    ensures { option_map (λ l. l.now) result ≡ find (λ l. l.place == place) labels.now }
{
    labels.iter().find(|l| l.place as usize == place)
}

// Checks that the last instruction is `end`.
fn ends(alloc: Global, last: &InstrDraft, program: &Word) -> Result<(), Unread>
    ensures { Gives (λ _. tt) result (unless_end last.now program.now) }
{
    if let Operation::End = last.operation {
        return Ok(());
    }
    let name = Name::new(Vec::from_slice(alloc, program.text.bytes())?);
    Err(Unread::Wrong(Fault {
        line: last.line,
        column: last.column,
        width: last.operation.form().word.len(),
        cause: Cause::Part(Part::NoEnd(name)),
    }))
}

// The error of a word that was kept.
fn fault_of(line: u64, word: &Word, cause: Cause) -> Unread
    ensures { result ≡ Unread.Wrong (fault_at line word.now cause) }
{
    Unread::Wrong(Fault {
        line,
        column: word.column,
        width: word.text.bytes().len(),
        cause,
    })
}
