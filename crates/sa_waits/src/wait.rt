// A thread that waits.
use sa_base::{SpaceNo, ThreadNo};

/// What a thread waits for.
#[derive(Clone, Copy)]
pub enum Awaited {
    /// This mutex, which that thread holds.
    Mutex(u16, ThreadNo),
    /// This semaphore.
    Semaphore(u16),
    /// The end of this thread.
    Thread(ThreadNo),
}

/// A thread that waits.
#[derive(Clone, Copy)]
pub struct Wait {
    pub space: SpaceNo,
    pub thread: ThreadNo,
    /// The place of the `lock`, `wait` or `join` in which it waits, from 0.
    pub place: u16,
    pub awaits: Awaited,
}
