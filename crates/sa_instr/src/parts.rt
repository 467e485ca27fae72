// An instruction as its operation and its operands, and back.
ghost use Rattle.std.specs.Prelude.{◌≡◌, ◌↔◌, ◌≤◌, [], ◌∷◌, length, slice_get, IsSome, IfSome};
ghost use Rattle.sa_instr.specs.Parts.{parts, parts_of, instr_from, instr_of, FitTheOperation};

use crate::instr::Instr;
use crate::operand::Operand;
use crate::operation::Operation;
use std::marker::Model;

/// An instruction as its operation and its operands.
#[derive(Drop)]
pub struct InstrParts {
    operation: Operation,
    operands: Operands,
}

// The operands, as many as there are.
#[derive(Drop)]
enum Operands {
    None,
    One([Operand; 1]),
    Two([Operand; 2]),
}

impl Model for InstrParts {
    ghost use Rattle.sa_instr.specs.PartsFields.{parts_inside};
    ghost use Rattle.sa_instr.specs.Parts.{InstrView};

    ghost Value = { InstrView };

    ghost view = { parts_inside };
}

impl InstrParts {
    /// The operation of the instruction.
    pub fn operation(&self) -> Operation
        ensures { result ≡ self.now.operation }
    {
        self.operation
    }

    /// The operands of the instruction, in order; at most 2.
    pub fn operands(&self) -> &[Operand]
        ensures operands { result.now ≡ self.now.operands }
        ensures few { length result.now ≤ 2 }
    {
        match &self.operands {
            Operands::None => &[],
            Operands::One(operands) => operands,
            Operands::Two(operands) => operands,
        }
    }
}

impl Instr {
    /// The instruction as its operation and its operands.
    pub fn parts(&self) -> InstrParts
        ensures parts { result ≡ parts_of self.now }
        ensures fit { FitTheOperation result }
    {
        match *self {
            Instr::Compute => none(Operation::Compute),
            Instr::Set(r, n) => two(Operation::Set, Operand::Register(r), Operand::Value(n)),
            Instr::Add(r, q) => two(Operation::Add, Operand::Register(r), Operand::Register(q)),
            Instr::Sub(r, q) => two(Operation::Sub, Operand::Register(r), Operand::Register(q)),
            Instr::Jnz(r, place) => two(
                Operation::Jnz,
                Operand::Register(r),
                Operand::Place(place),
            ),
            Instr::Load(r, cell) => two(Operation::Load, Operand::Register(r), Operand::Cell(cell)),
            Instr::Store(r, cell) => two(
                Operation::Store,
                Operand::Register(r),
                Operand::Cell(cell),
            ),
            Instr::Out(r) => one(Operation::Out, Operand::Register(r)),
            Instr::Fork(r, program) => two(
                Operation::Fork,
                Operand::Register(r),
                Operand::Program(program),
            ),
            Instr::Join(r) => one(Operation::Join, Operand::Register(r)),
            Instr::Lock(mutex) => one(Operation::Lock, Operand::Mutex(mutex)),
            Instr::Unlock(mutex) => one(Operation::Unlock, Operand::Mutex(mutex)),
            Instr::Wait(semaphore) => one(Operation::Wait, Operand::Semaphore(semaphore)),
            Instr::Signal(semaphore) => one(Operation::Signal, Operand::Semaphore(semaphore)),
            Instr::Io(length) => one(Operation::Io, Operand::Length(length)),
            Instr::Touch(page) => one(Operation::Touch, Operand::Page(page)),
            Instr::End => none(Operation::End),
        }
    }

    /// The instruction of this operation with these operands, or `None` exactly where they are not
    /// those that the operation has.
    pub fn from_parts(operation: Operation, operands: &[Operand]) -> Option<Instr>
        ensures instr { result ≡ instr_of operation operands.now }
        ensures fit { IsSome result ↔ FitTheOperation (parts operation operands.now) }
        ensures parts { IfSome result (λ made. parts_of made ≡ parts operation operands.now) }
    {
        if operands.len() != operation.form().operands.len() {
            return None;
        }
        from_operands(operation, operands)
    }
}

// The instruction of an operation whose operands begin like these.
fn from_operands(operation: Operation, o: &[Operand]) -> Option<Instr>
    ensures { result ≡ instr_from operation o.now }
{
    use Operand::{Cell, Length, Mutex, Page, Place, Program, Register, Semaphore, Value};
    match (operation, operand_at(o, 0), operand_at(o, 1)) {
        (Operation::Compute, _, _) => Some(Instr::Compute),
        (Operation::Set, Some(Register(r)), Some(Value(n))) => Some(Instr::Set(r, n)),
        (Operation::Add, Some(Register(r)), Some(Register(q))) => Some(Instr::Add(r, q)),
        (Operation::Sub, Some(Register(r)), Some(Register(q))) => Some(Instr::Sub(r, q)),
        (Operation::Jnz, Some(Register(r)), Some(Place(n))) => Some(Instr::Jnz(r, n)),
        (Operation::Load, Some(Register(r)), Some(Cell(n))) => Some(Instr::Load(r, n)),
        (Operation::Store, Some(Register(r)), Some(Cell(n))) => Some(Instr::Store(r, n)),
        (Operation::Out, Some(Register(r)), _) => Some(Instr::Out(r)),
        (Operation::Fork, Some(Register(r)), Some(Program(n))) => Some(Instr::Fork(r, n)),
        (Operation::Join, Some(Register(r)), _) => Some(Instr::Join(r)),
        (Operation::Lock, Some(Mutex(n)), _) => Some(Instr::Lock(n)),
        (Operation::Unlock, Some(Mutex(n)), _) => Some(Instr::Unlock(n)),
        (Operation::Wait, Some(Semaphore(n)), _) => Some(Instr::Wait(n)),
        (Operation::Signal, Some(Semaphore(n)), _) => Some(Instr::Signal(n)),
        (Operation::Io, Some(Length(n)), _) => Some(Instr::Io(n)),
        (Operation::Touch, Some(Page(n)), _) => Some(Instr::Touch(n)),
        (Operation::End, _, _) => Some(Instr::End),
        _ => None,
    }
}

// An instruction with no operand, one or two.

fn none(operation: Operation) -> InstrParts
    ensures { result ≡ parts operation [] }
{
    InstrParts {
        operation,
        operands: Operands::None,
    }
}

fn one(operation: Operation, a: Operand) -> InstrParts
    ensures { result ≡ parts operation (a ∷ []) }
{
    InstrParts {
        operation,
        operands: Operands::One([a]),
    }
}

fn two(operation: Operation, a: Operand, b: Operand) -> InstrParts
    ensures { result ≡ parts operation (a ∷ b ∷ []) }
{
    InstrParts {
        operation,
        operands: Operands::Two([a, b]),
    }
}

// The operand at a place.
fn operand_at(operands: &[Operand], k: usize) -> Option<Operand>
    ensures { result ≡ slice_get operands.now k }
{
    operands.get(k).copied()
}
