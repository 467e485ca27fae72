use sa_base::{Record, SpaceNo, ThreadNo};

/// What the needs of a record look at beyond the abstract machine's state.
#[derive(Clone, Copy)]
pub struct Beyond {
    /// The record of the same event that comes directly before.
    pub last: Option<Record>,
    /// The resident pages of the record's space: bit k says that page k is resident.
    pub pages: u16,
    /// The life that the record names, if its number is in use.
    pub life: Option<LifeSeen>,
    /// An I/O of that life is under way.
    pub has_io: bool,
}

/// What the needs of a record look at of a life.
#[derive(Clone, Copy)]
pub struct LifeSeen {
    pub space: SpaceNo,
    /// The thread with which it was stopped or has blocked.
    pub thread: Option<ThreadNo>,
    /// It has locked a ready list.
    pub locks_one: bool,
}
