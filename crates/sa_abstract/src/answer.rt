// What a user level answers.
use sa_base::{ProcNo, SpaceNo, ThreadNo};
use sa_instr::Regs;

/// What a step of a context asks of the kernel.
#[derive(Clone, Copy)]
pub enum Step {
    /// Nothing.
    Did,
    /// The context blocks for this many events, 1 to 1,000,000: for an I/O, or until this page, 1 to 15, is resident.
    Block { length: u32, page: Option<u16> },
    /// The hint that its space can use this many processors more, at least 1 (SOSP 1991, section 3.2).
    More(u16),
    /// The hint that this processor is idle (SOSP 1991, section 3.2).
    Idle,
    /// The space has no more use for the activations that it has taken.
    GiveBack,
    /// Another processor of the space is to be interrupted.
    InterruptOwn(ProcNo),
}

/// Where a context is, as far as its processor can go on by itself.
#[derive(Clone, Copy, PartialEq, Eq)]
pub enum SeatState {
    /// At the instruction at place `pc` of a program of the space, which its thread runs.
    Local {
        space: SpaceNo,
        thread: ThreadNo,
        program: u16,
        pc: u16,
        regs: Regs,
    },
    /// Inside the package, or without a thread.
    Away,
}

/// How many threads of a space there are, each at most 512.
#[derive(Clone, Copy)]
pub struct Tally {
    /// The threads that were made.
    pub made: u16,
    /// Those of them that are done.
    pub done: u16,
    /// Those that are ready, run, or were stopped or unblocked and are not yet ready again; but for those whose
    /// unblocking the user level was not told of.
    pub active: u16,
}
