// The operands of instructions.
ghost use Rattle.std.specs.Prelude.{◌≡◌, ◌↔◌, IsTrue};
ghost use Rattle.sa_instr.specs.Operand.{kind_of, InRange, IsPlaceBelow, IsDeclared};

use crate::declared::Declared;
use crate::instr::Reg;
use crate::limits::{LAST_PAGE, MAX_IO_LENGTH};
use sa_base::FIRST_THREAD_PAGE;

/// What an operand of an instruction is.
#[derive(Clone, Copy)]
pub enum OperandKind {
    /// A register.
    Register,
    /// A number of 64 bits.
    Value,
    /// The place of an instruction of the same program.
    Place,
    /// A cell of the space.
    Cell,
    /// A program of the space.
    Program,
    /// A mutex of the space.
    Mutex,
    /// A semaphore of the space.
    Semaphore,
    /// How many events an I/O takes, from 1 to 1,000,000.
    Length,
    /// A page of the threads' own, from 2 to 15.
    Page,
}

/// An operand of an instruction.
#[derive(Clone, Copy)]
pub enum Operand {
    Register(Reg),
    Value(u64),
    Place(u16),
    Cell(u16),
    Program(u16),
    Mutex(u16),
    Semaphore(u16),
    Length(u32),
    Page(u16),
}

impl Operand {
    /// What the operand is.
    pub fn kind(self) -> OperandKind
        ensures { result ≡ kind_of self }
    {
        match self {
            Operand::Register(_) => OperandKind::Register,
            Operand::Value(_) => OperandKind::Value,
            Operand::Place(_) => OperandKind::Place,
            Operand::Cell(_) => OperandKind::Cell,
            Operand::Program(_) => OperandKind::Program,
            Operand::Mutex(_) => OperandKind::Mutex,
            Operand::Semaphore(_) => OperandKind::Semaphore,
            Operand::Length(_) => OperandKind::Length,
            Operand::Page(_) => OperandKind::Page,
        }
    }

    /// Whether a number with a range of its own is in it.
    pub(crate) fn is_in_range(&self) -> bool
        ensures { IsTrue result ↔ InRange self.now }
    {
        match self {
            // Any number of 64 bits; the proof reads its range from the type.
            Operand::Value(value) => {
                let _value = *value;
                true
            }
            Operand::Length(length) => 1 <= *length && *length <= MAX_IO_LENGTH,
            Operand::Page(page) => FIRST_THREAD_PAGE <= *page && *page <= LAST_PAGE,
            _ => true,
        }
    }

    /// Whether a place is below `len`.
    pub(crate) fn is_below(&self, len: usize) -> bool
        ensures { IsTrue result ↔ IsPlaceBelow len self.now }
    {
        match self {
            Operand::Place(place) => (*place as usize) < len,
            _ => true,
        }
    }

    /// Whether what the operand names is declared.
    pub(crate) fn is_declared(&self, declared: &Declared) -> bool
        ensures { IsTrue result ↔ IsDeclared declared.now.mutexes declared.now.sems
            declared.now.cells declared.now.programs self.now }
    {
        match self {
            Operand::Cell(cell) => *cell < declared.cells,
            Operand::Program(program) => (*program as usize) < declared.programs,
            Operand::Mutex(mutex) => *mutex < declared.mutexes,
            Operand::Semaphore(semaphore) => (*semaphore as usize) < declared.sems,
            _ => true,
        }
    }
}
