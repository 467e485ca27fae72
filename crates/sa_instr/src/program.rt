// Programs.
ghost use Rattle.std.specs.Prelude.{◌≡◌, ◌≢◌, ◌+◌, ◌≤◌, ◌<◌, ◌↔◌, Some, IsTrue, SomeIff, IfOk, All, length, slice_get};
ghost use Rattle.sa_instr.specs.Instr.{IsInRange, JumpsBelow, NamesDeclared};
ghost use Rattle.sa_instr.specs.Local.{instr_at};
ghost use Rattle.sa_instr.specs.Program.{IsProgram};

use crate::declared::Declared;
use crate::instr::Instr;
use crate::limits::MAX_INSTRUCTIONS;
use std::alloc::{AllocError, Global};
use std::marker::Model;

/// A program: its instructions, in the order of their places from 0.
#[derive(Drop)]
pub struct Program {
    instrs: Vec<Instr>,
}

impl Model for Program {
    ghost use Rattle.std.specs.Prelude.{List};
    ghost use Rattle.sa_instr.specs.declared.instr.Instr.{Instr};
    ghost use Rattle.sa_instr.specs.Program.{IsProgram};

    ghost Value = { List Instr };

    ghost view = { λ p. p.instrs.items };

    ghost invariant = { λ p. IsProgram p.instrs.items };
}

impl Program {
    /// The program of these instructions. It cannot fail for want of memory.
    ///
    /// `None` exactly where their number is not 1 to 4,096, the last is not `End`, a jump goes to no
    /// place of theirs, or the number of an `Io` or a `Touch` is out of its range.
    pub fn new(instrs: Vec<Instr>) -> Option<Program>
        ensures { SomeIff result (IsProgram instrs.items) instrs.items }
    {
        if !is_program(&instrs) {
            return None;
        }
        Some(Program { instrs })
    }

    /// The number of instructions, from 1 to 4,096.
    pub fn len(&self) -> u16
        ensures len { result ≡ length self.now }
        ensures some { 1 ≤ result }
        ensures few { result ≤ MAX_INSTRUCTIONS }
    {
        self.instrs.len() as u16
    }

    /// What every program keeps to. It does nothing.
    pub fn ranges(&self)
        ensures { IsProgram self.now }
    {
        let _program = &self.instrs;
    }

    /// The instruction at the place `pc`.
    pub fn at(&self, pc: u16) -> Instr
        requires { pc < length self.now }
        ensures at { slice_get self.now pc ≡ Some result }
        ensures instr { result ≡ instr_at self.now pc }

        // What a program keeps to, at this place: there is a next one, except after an `End`.
        ensures short { length self.now ≤ MAX_INSTRUCTIONS }
        ensures next { result ≢ Instr.End → pc + 1 < length self.now }
        ensures jumps { JumpsBelow (length self.now) result }
        ensures range { IsInRange result }
    {
        self.instrs[pc as usize]
    }

    /// An equal program. Fails only where memory runs out.
    pub fn copy(&self, alloc: Global) -> Result<Program, AllocError>
        ensures { IfOk result (λ program. program ≡ self.now) }
    {
        Ok(Program {
            instrs: Vec::from_slice(alloc, self.instrs.as_slice())?,
        })
    }

    /// Whether each instruction names only what is declared. Each program says so of itself.
    pub fn names_only(&self, declared: &Declared) -> bool
        ensures { IsTrue result ↔ (IsProgram self.now
            × All (NamesDeclared declared.now.mutexes declared.now.sems declared.now.cells
            declared.now.programs) self.now) }
    {
        self.instrs
            .iter()
            .all(|instr| instr.names_declared(declared))
    }
}

// Whether the instructions are a program.
fn is_program(instrs: &[Instr]) -> bool
    ensures { IsTrue result ↔ IsProgram instrs.now }
{
    let len = instrs.len();
    len <= MAX_INSTRUCTIONS
        && matches!(instrs.last(), Some(Instr::End))
        && instrs.iter().all(|instr| instr.fits(len))
}
