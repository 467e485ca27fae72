// What the end of an event needs of the moment before it.
use sa_base::ActNo;

/// What the end of an event needs of the moment before it.
#[derive(Clone, Copy)]
pub struct Start {
    /// The life that runs on the event's processor before the event.
    pub running: Option<ActNo>,
    /// The event's first record is a want of less than the space announced before.
    pub lowers: bool,
}
