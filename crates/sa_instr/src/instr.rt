// Registers and instructions.
ghost use Rattle.std.specs.Prelude.{◌≡◌, ◌<◌, ◌↔◌, IsTrue, IsSome, IfSome};
ghost use Rattle.sa_instr.specs.Instr.{reg_number, IsInRange, JumpsBelow, NamesDeclared};

use crate::declared::Declared;
use crate::limits::REGISTERS;

/// One of a thread's eight registers, each of 64 bits.
#[derive(Clone, Copy)]
pub enum Reg {
    R0,
    R1,
    R2,
    R3,
    R4,
    R5,
    R6,
    R7,
}

impl Reg {
    /// The register of number `n`, or `None` exactly where `n` is not below 8.
    pub fn new(n: u8) -> Option<Reg>
        ensures some { IsSome result ↔ (n < REGISTERS) }
        ensures number { IfSome result (λ reg. reg_number reg ≡ n) }
    {
        match n {
            0 => Some(Reg::R0),
            1 => Some(Reg::R1),
            2 => Some(Reg::R2),
            3 => Some(Reg::R3),
            4 => Some(Reg::R4),
            5 => Some(Reg::R5),
            6 => Some(Reg::R6),
            7 => Some(Reg::R7),
            _ => None,
        }
    }

    /// The register's number, from 0 to 7.
    pub fn number(self) -> u8
        ensures number { result ≡ reg_number self }
        ensures below { result < REGISTERS }
    {
        self as u8
    }
}

/// An instruction of a thread. All but `Jnz`, `Touch` and `End` go on at the next place.
#[derive(Clone, Copy)]
pub enum Instr {
    /// Does nothing.
    Compute,
    /// Puts the number into the register.
    Set(Reg, u64),
    /// Adds the second register to the first, modulo 2^64.
    Add(Reg, Reg),
    /// Takes the second register from the first, modulo 2^64.
    Sub(Reg, Reg),
    /// Goes on at the place where the register is not 0, else at the next.
    Jnz(Reg, u16),
    /// Puts the space's cell of that number into the register.
    Load(Reg, u16),
    /// Puts the register into the space's cell of that number.
    Store(Reg, u16),
    /// Gives the register to the outside.
    Out(Reg),
    /// Makes a thread of the space's program of that number, and puts the thread's number into the
    /// register, or 2^64 - 1 where no more threads may be made.
    Fork(Reg, u16),
    /// Waits until the thread whose number is in the register is done, and puts 1 into the register; or
    /// puts 0 there at once where no such thread was made.
    Join(Reg),
    /// Takes the space's mutex of that number, or waits for it.
    Lock(u16),
    /// Gives the mutex back.
    Unlock(u16),
    /// Takes one from the space's semaphore of that number, or waits for it.
    Wait(u16),
    /// Adds one to the semaphore, or wakes the first that waits for it.
    Signal(u16),
    /// Blocks for an I/O that takes this many events, from 1 to 1,000,000.
    Io(u32),
    /// Goes on where this page of the space, from 2 to 15, is resident; else blocks until it is.
    Touch(u16),
    /// Ends the thread.
    End,
}

impl Instr {
    /// Whether it fits a program of `len` instructions: a jump goes to a place below `len`, and each number with a range of
    /// its own is in it.
    pub(crate) fn fits(&self, len: usize) -> bool
        ensures { IsTrue result ↔ (JumpsBelow len self.now × IsInRange self.now) }
    {
        self.parts()
            .operands()
            .iter()
            .all(|operand| operand.is_below(len) && operand.is_in_range())
    }

    /// Whether the mutex, semaphore, cell or program that the instruction names is declared.
    pub(crate) fn names_declared(&self, declared: &Declared) -> bool
        ensures { IsTrue result ↔ NamesDeclared declared.now.mutexes declared.now.sems
            declared.now.cells declared.now.programs self.now }
    {
        self.parts()
            .operands()
            .iter()
            .all(|operand| operand.is_declared(declared))
    }
}
