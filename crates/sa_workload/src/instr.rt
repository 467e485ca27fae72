// The instruction of a line.
ghost use Rattle.std.specs.Prelude.{◌≡◌, ◌<◌, Some};
ghost use Rattle.sa_instr.specs.Operation.{form_of, operation_of};
ghost use Rattle.sa_instr.specs.Parts.{instr_of};
ghost use Rattle.sa_workload.specs.Next.{is_end, made_by, operand_from, operands_from};
ghost use Rattle.sa_workload.specs.Rooms.{room_for, AllHaveRoom};

use sa_instr::{Instr, Operand, OperandKind, Operation, Reg};

/// The instruction of this word and the numbers after it.
pub(crate) fn instr_in(word: &[u8], numbers: &[u64]) -> Option<Instr>
    requires { AllHaveRoom (operation_of word.now) numbers.now }
    ensures { result ≡ made_by numbers.now (operation_of word.now) }
{
    instr_of(Operation::of_word(word)?, numbers)
}

// The instruction of an operation and the numbers of its operands.
fn instr_of(operation: Operation, numbers: &[u64]) -> Option<Instr>
    requires { AllHaveRoom (Some operation) numbers.now }
    ensures { result ≡ instr_of operation (operands_from (form_of operation).operands numbers.now) }
{
    let kinds = operation.form().operands;
    if kinds.len() == 0 {
        return Instr::from_parts(operation, &[]);
    }
    let first = operand_of(kinds[0], numbers[0]);
    if kinds.len() == 1 {
        return Instr::from_parts(operation, &[first]);
    }
    let second = operand_of(kinds[1], numbers[1]);
    Instr::from_parts(operation, &[first, second])
}

// The operand of this kind and number.
fn operand_of(kind: OperandKind, n: u64) -> Operand
    requires { n < room_for kind }
    ensures { result ≡ operand_from kind n }
{
    match kind {
        OperandKind::Register => Operand::Register(Reg::new(n as u8).unwrap()),
        OperandKind::Value => Operand::Value(n),
        OperandKind::Place => Operand::Place(n as u16),
        OperandKind::Cell => Operand::Cell(n as u16),
        OperandKind::Program => Operand::Program(n as u16),
        OperandKind::Mutex => Operand::Mutex(n as u16),
        OperandKind::Semaphore => Operand::Semaphore(n as u16),
        OperandKind::Length => Operand::Length(n as u32),
        OperandKind::Page => Operand::Page(n as u16),
    }
}

/// Whether the instruction is `end`.
pub(crate) fn is_end(instr: &Instr) -> bool
    ensures { result ≡ is_end instr.now }
{
    matches!(instr, Instr::End)
}
