// One thread.
ghost use Rattle.std.specs.Prelude.{◌≡◌, ◌+◌, ◌<◌, ◌^◌, false, length};
ghost use Rattle.sa_instr.specs.Local.{instr_at};
ghost use Rattle.sa_laws.specs.State.{at_start};
ghost use Rattle.sa_laws.specs.Effect.{next, next_with};
ghost use Rattle.sa_replay.specs.Local.{is_local, after_local};

use sa_instr::{Local, Program, Reg, Regs, local};
use sa_laws::Place;
use std::marker::Model;

/// A thread that was made: its program, the place of its next instruction, its registers, and where it is.
#[derive(Clone, Copy)]
pub struct ThreadState {
    program: u16,
    pc: u16,
    regs: Regs,
    place: Place,
}

impl Model for ThreadState {
    ghost use Rattle.sa_laws.specs.State.{Thread};

    ghost Value = { Thread };

    ghost view = { λ t. record { program = t.program; pc = t.pc; regs = t.regs; place = t.place } };

    ghost inverse = { λ t. record { program = t.program; pc = t.pc; regs = t.regs; place = t.place } };
}

impl ThreadState {
    /// A thread at the beginning of the program of this number, with each register 0.
    pub fn at_start(program: u16, place: Place) -> ThreadState
        ensures { result ≡ at_start program place }
    {
        ThreadState {
            program,
            pc: 0,
            regs: Regs::zero(),
            place,
        }
    }

    /// The number of its program in the space.
    pub fn program(&self) -> u16
        ensures { result ≡ self.now.program }
    {
        self.program
    }

    /// The place of its next instruction.
    pub fn pc(&self) -> u16
        ensures { result ≡ self.now.pc }
    {
        self.pc
    }

    /// Its registers.
    pub fn regs(&self) -> Regs
        ensures { result ≡ self.now.regs }
    {
        self.regs
    }

    /// Where it is.
    pub fn place(&self) -> Place
        ensures { result ≡ self.now.place }
    {
        self.place
    }

    /// The same thread in another place.
    pub fn moved(&self, place: Place) -> ThreadState
        ensures { result ≡ record self.now { place = place } }
    {
        let mut thread = *self;
        thread.place = place;
        thread
    }

    /// The thread after its instruction.
    pub(crate) fn next(&self) -> ThreadState
        requires { self.now.pc + 1 < 2 ^ 16 }
        ensures { result ≡ next self.now }
    {
        let mut thread = *self;
        thread.pc += 1;
        thread
    }

    /// The same, with a value in a register.
    pub(crate) fn next_with(&self, reg: Reg, value: u64) -> ThreadState
        requires { self.now.pc + 1 < 2 ^ 16 }
        ensures { result ≡ next_with self.now reg value }
    {
        let mut thread = *self;
        thread.regs.set(reg, value);
        thread.pc += 1;
        thread
    }

    /// Runs the next instruction of the program, where it stays within the thread; whether it does.
    #[inline(always)]
    pub(crate) fn run_local(&mut self, program: &Program) -> bool
        requires { self.old.pc < length program.now }
        ensures local { result ≡ is_local (instr_at program.now self.old.pc) }
        ensures thread { self.new ≡ after_local (instr_at program.now self.old.pc) self.old }
        ensures other { result ≡ false → self.new ≡ self.old }
    {
        matches!(local(program, &mut self.regs, &mut self.pc), Local::Went)
    }
}
