// A thread's registers.
ghost use Rattle.std.specs.Prelude.{◌≡◌, replicate};
ghost use Rattle.sa_instr.specs.Regs.{AreRegisters, reg_value, with_reg};

use crate::instr::Reg;
use crate::limits::REGISTERS;
use std::marker::Model;

/// The eight registers of a thread, in the order of their numbers.
#[derive(Clone, Copy, PartialEq, Eq)]
pub struct Regs {
    values: [u64; REGISTERS],
}

impl Model for Regs {
    ghost use Rattle.std.specs.Prelude.{ℕ, List};

    ghost Value = { List ℕ };

    ghost use Rattle.sa_instr.specs.Regs.{AreRegisters};

    ghost view = { λ r. r.values };

    ghost invariant = { λ r. AreRegisters r.values };

    ghost inverse = { λ values. record { values = values } };
}

impl Regs {
    /// Each register 0.
    pub fn zero() -> Self
        ensures { result ≡ replicate REGISTERS 0 }
    {
        Regs {
            values: [0; REGISTERS],
        }
    }

    /// What the register holds.
    pub fn get(&self, reg: Reg) -> u64
        ensures { result ≡ reg_value self.now reg }
    {
        self.values[reg.number() as usize]
    }

    /// What all registers keep to. It does nothing.
    pub fn ranges(&self)
        ensures { AreRegisters self.now }
    {
        let _registers = &self.values;
    }

    /// Puts `value` into the register. The others stay.
    pub fn set(&mut self, reg: Reg, value: u64)
        ensures { self.new ≡ with_reg self.old reg value }
    {
        self.values[reg.number() as usize] = value;
    }
}
