// What enters the kernel.
use sa_base::{ActNo, IoNo, ProcNo, Stopped};

/// How many items an entry, or the end of a slice, adds to the trace at most, beside those that were owed before it: what
/// is told of notices that waited, and what is given back of what was taken.
pub const ENTRY_ITEMS: usize = 80;

/// Why the kernel is entered on a processor, and what is handed over.
#[derive(Drop)]
pub enum Entry<C> {
    /// The processor's raised line. The context that ran there is handed over, if one did.
    Interrupt(Option<Stopped<C>>),
    /// The running context blocks for `length` events, for an I/O or, where there is one, until the page is resident.
    Block {
        held: Stopped<C>,
        length: u32,
        page: Option<u16>,
    },
    /// The I/O is over.
    Complete(IoNo),
    /// The hint that the space can use that many more processors.
    More(u16),
    /// The hint that this processor is idle.
    Idle,
    /// The taken activations of the space are given back.
    GiveBack,
    /// The line of another processor of the space is raised.
    InterruptOwn(ProcNo),
}

/// What an entry gave.
#[derive(Clone, Copy, PartialEq, Eq)]
pub enum Given {
    /// No upcall.
    Nothing,
    /// An upcall on the processor of the entry, in this fresh activation.
    Upcall(ActNo),
}
