// What a session is asked for.
use sa_base::{ProcNo, SpaceNo, ThreadNo};

/// A breakpoint: a place of a thread of a space.
#[derive(Clone, Copy)]
pub struct Point {
    pub space: SpaceNo,
    pub thread: ThreadNo,
    /// The number of an instruction of the thread's program, from 0.
    pub place: u16,
}

/// A command of a session.
#[derive(Clone, Copy)]
pub enum DebugCommand {
    /// Adds the breakpoint.
    Break(Point),
    /// Takes the breakpoint away.
    Clear(Point),
    /// Halts the processor.
    Halt(ProcNo),
    /// Ends the halt of the processor.
    Go(ProcNo),
    /// Makes one turn of the processor, halted or not.
    Step(ProcNo),
    /// Makes at most that many turns, 1 to 1,000,000, of the processors that are not halted.
    Run(u32),
    /// Shows the thread of the space.
    Show(SpaceNo, ThreadNo),
}
