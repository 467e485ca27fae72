use crate::instr::Instr;

/// What came of one step of a thread.
#[derive(Clone, Copy)]
pub enum Local {
    /// The instruction stays within its thread, and was done.
    Went,
    /// The instruction does not stay within its thread, and nothing was done.
    NotLocal(Instr),
    /// The thread is at an `End`, and nothing was done.
    Ended,
}
