// What a session answers.
use crate::script::command::Point;
use sa_base::{End, ProcNo};
use sa_instr::Regs;
use sa_laws::Place;

/// A thread, as it is shown.
#[derive(Clone, Copy)]
pub struct View {
    pub place: Place,
    /// The place of its next instruction, from 0.
    pub pc: u16,
    pub regs: Regs,
}

/// The answer to a command.
#[derive(Clone, Copy)]
pub enum Reply {
    /// It was done.
    Accepted,
    /// There are as many breakpoints as there may be.
    Full,
    /// There is no such breakpoint or thread.
    NotThere,
    /// The number of the last event.
    Event(u64),
    /// The run had ended before.
    Ended(End),
    /// The processor stands at the breakpoint, and is halted there.
    AtBreak(ProcNo, Point),
    /// Every processor is halted.
    Halted,
    /// The thread.
    Shown(View),
}
