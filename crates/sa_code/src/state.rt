// What the package's code works on.
use crate::code::Code;
use sa_base::{MAX_PROCESSORS, ProcNo, SpaceNo, ThreadNo};
use sa_lists::ReadyLists;

/// How many ready lists a space has at most: one for each processor.
pub const MAX_LISTS: usize = MAX_PROCESSORS as usize;

/// What the contexts of a space share.
#[derive(Drop)]
pub struct PackageState {
    pub space: SpaceNo,
    pub lists: ReadyLists,
    /// For each list that is locked, the thread of its lock: the one that was carried at the take, and then the
    /// one that a pop took.
    pub holders: [Option<ThreadNo>; MAX_LISTS],
    /// The code in use.
    pub code: Code,
}

/// Where a context is in the package's code, and with what.
#[derive(Clone, Copy, Default)]
pub struct Frame {
    /// The place.
    pub pc: u16,
    /// The list that the context works on.
    pub list: Option<ProcNo>,
    /// The list is that of the processor on which the context took it; a list that is the only one is that of processor 0.
    pub own: bool,
    /// The thread that a push still has to put into the list.
    pub pushed: Option<ThreadNo>,
    /// The thread that the context carries.
    pub thread: Option<ThreadNo>,
}

/// What came of a micro-operation.
#[derive(Clone, Copy)]
pub enum MicroDone {
    /// It was done, and the frame is at the next place.
    Did,
    /// The lock was held, and nothing changed.
    Spun,
    /// The package's page was absent, and nothing changed.
    Faulted,
    /// The routine is over.
    Left,
    /// The copy is over, and gives control back.
    Yielded,
}
