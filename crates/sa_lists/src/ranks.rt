// The ranks of threads.

/// The most ranks that ready threads can have; they are numbered from 0.
pub const MAX_RANKS: u16 = 256;

/// How many ranks the threads of ready lists have.
#[derive(Clone, Copy)]
pub enum Ranks {
    /// All threads have the same one.
    One,
    /// Each thread has one of 256.
    Many,
}
