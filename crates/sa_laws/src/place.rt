use sa_base::ProcNo;

/// Where a thread is. Each thread that was made is in exactly one place.
#[derive(Clone, Copy, PartialEq, Eq)]
pub enum Place {
    /// An activation carries it on this processor.
    Running(ProcNo),
    /// In one of its space's ready lists.
    Ready,
    /// In the kernel, until its I/O is over.
    Blocked,
    /// For a mutex, a semaphore or another thread; or forked or woken, and still to be made ready.
    Waiting,
    /// Stopped or unblocked, and still to be made ready.
    Carried,
    /// At its end.
    Done,
}
