// What threads put out, and whether runs are told apart by it.
use sa_base::{SpaceNo, ThreadNo};

/// A value that a thread put out.
#[derive(Clone, Copy)]
pub struct Put {
    pub space: SpaceNo,
    pub thread: ThreadNo,
    pub value: u64,
}

/// By what the runs that end are told apart, beside their end.
#[derive(Clone, Copy)]
pub enum Telling {
    /// By the final cells.
    Cells,
    /// Also by what each thread put out.
    Outs,
}
