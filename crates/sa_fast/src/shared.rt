// What the contexts of a space share.
use crate::threads::Threads;
use crate::work::WorkLists;
use sa_code::PackageState;
use sa_sync::SyncState;

/// What the contexts of a space share.
#[derive(Drop)]
pub struct Shared {
    /// The ready lists and the package's code.
    pub state: PackageState,
    /// What the threads wait on.
    pub sync: SyncState,
    pub threads: Threads,
    pub works: WorkLists,
}
