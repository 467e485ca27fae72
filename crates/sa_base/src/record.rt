use crate::number::{ActNo, IoNo, ProcNo, SpaceNo, ThreadNo};

/// What an upcall passes to the user level: one of the four kernel events of the paper.
#[derive(Clone, Copy, PartialEq, Eq)]
pub enum Note {
    /// Add this processor: it is the space's from now on.
    Add(ProcNo),
    /// The activation was stopped by an interrupt.
    Preempted(ActNo),
    /// The activation blocked in the kernel.
    Blocked(ActNo),
    /// The activation's I/O is over.
    Unblocked(ActNo),
}

/// What is in a place where no notice was put yet.
impl Default for Note {
    fn default() -> Note {
        Note::Add(ProcNo(0))
    }
}

/// What happened, without its event. The 23 kinds are in the order of the trace text's counts.
/// A thread that may be absent is the one that the context carries.
#[derive(Clone, Copy)]
pub enum Record {
    /// The thread ran the instruction at this place.
    Ins(SpaceNo, ThreadNo, u16),
    /// The thread's `out` instruction gave this value.
    Out(SpaceNo, ThreadNo, u64),
    /// The thread was taken from a ready list and runs.
    Run(SpaceNo, ThreadNo),
    /// An interrupt stopped the activation.
    Stop(SpaceNo, Option<ThreadNo>, ActNo),
    /// The activation blocked until this I/O is over.
    Block(SpaceNo, Option<ThreadNo>, ActNo, IoNo),
    /// The activation's I/O is over.
    Unblock(SpaceNo, Option<ThreadNo>, ActNo),
    /// A stopped critical section is continued in its copy.
    Cont(SpaceNo, Option<ThreadNo>),
    /// A continued section is over, and control is back with the handler.
    Back(SpaceNo, Option<ThreadNo>),
    /// The thread is in a ready list.
    Ready(SpaceNo, ThreadNo),
    /// The lock of this processor's ready list was taken.
    Take(SpaceNo, ProcNo, Option<ThreadNo>),
    /// The lock of this processor's ready list was freed.
    Free(SpaceNo, ProcNo, Option<ThreadNo>),
    /// An upcall in this fresh activation.
    Up(SpaceNo, ActNo),
    /// The upcall passed this notice.
    Told(Note),
    /// The processor's owner changed from the first to the second.
    Move(Option<SpaceNo>, Option<SpaceNo>),
    /// The space's demand is this many processors from now on.
    Want(SpaceNo, u16),
    /// The policy gave the processor to this space, or to none.
    Aim(ProcNo, Option<SpaceNo>),
    /// The processor's interrupt line was raised.
    Line(ProcNo),
    /// The fetch of the space's upcall page began.
    Fetch(SpaceNo),
    /// The space's upcall page is resident.
    Fetched(SpaceNo),
    /// The activation's number is free again.
    GiveBack(ActNo),
    /// The context looked at the ready lists and found no thread.
    Idle,
    /// The lock of this processor's ready list was held, and nothing changed.
    Spin(ProcNo),
    /// A turn of a processor that no space owns.
    Tick,
}

/// A record of an event. Event 0 is the opening, and the first turn is event 1.
#[derive(Clone, Copy)]
pub struct Item {
    pub event: u64,
    /// The processor whose turn the event is.
    pub proc: ProcNo,
    pub what: Record,
}

/// How a run ended.
#[derive(Clone, Copy, PartialEq, Eq)]
pub enum End {
    /// Every thread that was made is done.
    AllDone,
    /// Some thread is not done, and nothing can happen any more.
    Stuck,
    /// The number of events reached the budget.
    Budget,
}
