// Operands, instructions and programs of a draft.
ghost use Rattle.std.specs.Prelude.{◌≡◌, ◌++◌, IfOk, IfErr, Ok, All};
ghost use Rattle.sa_instr.specs.Parts.{FitTheOperation, parts};
ghost use Rattle.toga_draft.specs.Reading.{Fails};
ghost use Rattle.toga_draft.specs.Whole.{IsInstrDraft, IsProgramDraft, IsSpaceDraft};
ghost use Rattle.toga_read.specs.Outcome.{each};
ghost use Rattle.toga_read.specs.Operands.{fitting, instr_in, listed, operand_by, operand_of, program_of, programs_of};

use crate::lookup::{named_number, said_number};
use sa_instr::{Instr, Operand, Operation, Program};
use std::alloc::Global;
use toga_diagnostic::Kind;
use toga_draft::{InstrDraft, OperandDraft, ProgramDraft, SpaceDraft, Unread};

// A number of this kind as an operand.
fn operand_by(kind: Kind, number: u16) -> Operand
    ensures { result ≡ operand_by kind number }
{
    match kind {
        Kind::Label => Operand::Place(number),
        Kind::Mutex => Operand::Mutex(number),
        Kind::Semaphore => Operand::Semaphore(number),
        Kind::Cell => Operand::Cell(number),
        _ => Operand::Program(number),
    }
}

// An operand of an instruction in this line, if there is one.
#[tactic(auto, unfolding(crate::specs::Operands::operand_of))]
fn operand_of(
    alloc: Global,
    space: &SpaceDraft,
    program: &ProgramDraft,
    line: u64,
    operand: &OperandDraft,
) -> Result<Option<Operand>, Unread>
    requires space { IsSpaceDraft space.now }
    requires program { IsProgramDraft program.now }
    ensures ok { IfOk result (λ o. operand_of space.now program.now line operand.now ≡ Ok o) }
    ensures err { IfErr result (λ e. Fails e (operand_of space.now program.now line operand.now)) }
{
    match operand {
        OperandDraft::None => Ok(None),
        OperandDraft::Known(operand) => Ok(Some(*operand)),
        OperandDraft::Named(kind, word) => {
            let number = named_number(alloc, space, program, line, *kind, word)?;
            Ok(Some(operand_by(*kind, number)))
        }
        OperandDraft::Numbered(kind, number) => {
            let number = said_number(alloc, space, program, line, *kind, *number)?;
            Ok(Some(operand_by(*kind, number)))
        }
    }
}

// The instruction of this operation with these operands.
fn fitting(operation: Operation, first: Option<Operand>, second: Option<Operand>) -> Instr
    requires { FitTheOperation (parts operation (listed first ++ listed second)) }
    ensures { result ≡ fitting operation (listed first ++ listed second) }
{
    let made = match (first, second) {
        (Some(a), Some(b)) => Instr::from_parts(operation, &[a, b]),
        (Some(a), None) => Instr::from_parts(operation, &[a]),
        (None, Some(b)) => Instr::from_parts(operation, &[b]),
        (None, None) => Instr::from_parts(operation, &[]),
    };
    made.unwrap()
}

// An instruction of a program.
#[tactic(auto, unfolding(crate::specs::Operands::instr_in))]
fn instr_in(
    alloc: Global,
    space: &SpaceDraft,
    program: &ProgramDraft,
    instr: &InstrDraft,
) -> Result<Instr, Unread>
    requires space { IsSpaceDraft space.now }
    requires program { IsProgramDraft program.now }
    requires instr { IsInstrDraft instr.now }
    ensures ok { IfOk result (λ i. instr_in space.now program.now instr.now ≡ Ok i) }
    ensures err { IfErr result (λ e. Fails e (instr_in space.now program.now instr.now)) }
{
    let first = operand_of(alloc, space, program, instr.line, &instr.first)?;
    let second = operand_of(alloc, space, program, instr.line, &instr.second)?;
    Ok(fitting(instr.operation, first, second))
}

// These instructions of a program.
fn instrs_of(
    alloc: Global,
    space: &SpaceDraft,
    program: &ProgramDraft,
    drafts: &[InstrDraft],
) -> Result<Vec<Instr>, Unread>
    requires space { IsSpaceDraft space.now }
    requires program { IsProgramDraft program.now }
    requires drafts { All IsInstrDraft drafts.now }
    ensures ok { IfOk result (λ instrs. each (instr_in space.now program.now) drafts.now ≡ Ok instrs.items) }
    ensures err { IfErr result (λ e. Fails e (each (instr_in space.now program.now) drafts.now)) }
{
    let mut instrs = Vec::new(alloc);
    for draft in drafts {
        instrs.push(instr_in(alloc, space, program, draft)?)?;
    }
    Ok(instrs)
}

// A program of a space.
#[tactic(auto, unfolding(crate::specs::Operands::program_of))]
fn program_of(alloc: Global, space: &SpaceDraft, program: &ProgramDraft) -> Result<Program, Unread>
    requires space { IsSpaceDraft space.now }
    requires program { IsProgramDraft program.now }
    ensures ok { IfOk result (λ made. program_of space.now program.now ≡ Ok made) }
    ensures err { IfErr result (λ e. Fails e (program_of space.now program.now)) }
{
    let instrs = instrs_of(alloc, space, program, &program.instrs)?;
    Ok(Program::new(instrs).unwrap())
}

// These programs of a space.
fn each_program(
    alloc: Global,
    space: &SpaceDraft,
    drafts: &[ProgramDraft],
) -> Result<Vec<Program>, Unread>
    requires space { IsSpaceDraft space.now }
    requires drafts { All IsProgramDraft drafts.now }
    ensures ok { IfOk result (λ programs. each (program_of space.now) drafts.now ≡ Ok programs.items) }
    ensures err { IfErr result (λ e. Fails e (each (program_of space.now) drafts.now)) }
{
    let mut programs = Vec::new(alloc);
    for draft in drafts {
        programs.push(program_of(alloc, space, draft)?)?;
    }
    Ok(programs)
}

/// The programs of a space, or the first fault.
#[tactic(auto, unfolding(crate::specs::Operands::programs_of))]
pub(crate) fn programs_of(alloc: Global, space: &SpaceDraft) -> Result<Vec<Program>, Unread>
    requires { IsSpaceDraft space.now }
    ensures ok { IfOk result (λ programs. programs_of space.now ≡ Ok programs.items) }
    ensures err { IfErr result (λ e. Fails e (programs_of space.now)) }
{
    each_program(alloc, space, &space.programs)
}
