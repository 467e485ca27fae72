// What a burst and an entry answer.
use sa_abstract::SeatState;
use sa_base::End;

/// Why a burst ended.
#[derive(Clone, Copy, PartialEq, Eq)]
pub enum BurstEnd {
    /// The next instruction is not local.
    Shared,
    /// As many instructions were run as the limit allows.
    Limit,
    /// The line of the processor was raised, by this event.
    Line(u64),
    /// No thread's instruction is known to the seat.
    Away,
}

/// What an entry of a seat came to.
#[derive(Clone, Copy, PartialEq, Eq)]
pub enum Entered {
    /// So many events of its processor were made, 1 to 64: the burst, or else one turn.
    Turned(u16),
    /// The burst was dropped, since the line of the processor was raised, by this event.
    DroppedLine(u64),
    /// The burst was dropped, since the context that runs there is the first of these, and the burst began at the second.
    DroppedStart(SeatState, SeatState),
    /// The run has ended so.
    Ended(End),
}
