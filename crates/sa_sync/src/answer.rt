use sa_base::ThreadNo;

/// What a call did to threads.
#[derive(Clone, Copy)]
pub enum SyncAnswer {
    /// The calling thread goes on, and none was woken.
    Goes,
    /// The calling thread waits.
    Waits,
    /// The calling thread goes on, and this thread, which waited, was woken.
    Wakes(ThreadNo),
}
