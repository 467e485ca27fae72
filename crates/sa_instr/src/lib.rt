//! Registers, instructions and programs, each checked where it is made, and the instructions that stay within their thread.
#![tactic(auto)]

mod answer;
mod declared;
mod instr;
pub mod laws;
mod limits;
mod operand;
mod operation;
mod parts;
mod program;
mod regs;
mod step;

pub use answer::Local;
pub use declared::Declared;
pub use instr::{Instr, Reg};
pub use limits::{
    LAST_PAGE, MAX_CELLS, MAX_EVICTIONS, MAX_FETCH, MAX_INSTRUCTIONS, MAX_IO_LENGTH, MAX_MUTEXES,
    MAX_PATIENCE, MAX_PRIORITY, MAX_PROGRAMS, MAX_SEMAPHORES, MAX_SLICE, MAX_START, MAX_TURNS,
    REGISTERS, workload_limits_are_these,
};
pub use operand::{Operand, OperandKind};
pub use operation::{OPERATIONS, Operation, OperationForm};
pub use parts::InstrParts;
pub use program::Program;
pub use regs::Regs;
pub use step::local;
