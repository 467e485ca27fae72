// What is asked of a user level.
use sa_base::{ActNo, SpaceNo, ThreadNo};

/// What the step of a context is asked with.
#[derive(Clone, Copy)]
pub struct Question {
    /// The space whose step it is.
    pub space: SpaceNo,
    /// The activation that runs.
    pub act: ActNo,
    /// The thread that its context carries.
    pub thread: Option<ThreadNo>,
    /// The number of processors that the space last announced.
    pub demand: u16,
    /// The space's activations that were taken and not given back.
    pub taken: u32,
}
