use sa_base::{ActNo, SpaceNo};

/// What an I/O is for.
#[derive(Clone, Copy)]
pub enum IoKind {
    /// The I/O of a thread, for which the activation of the space blocked.
    Plain(SpaceNo, ActNo),
    /// A page of the space, 1 to 15, for which the activation blocked.
    Page(SpaceNo, ActNo, u16),
    /// The upcall page of the space.
    Upcall(SpaceNo),
}
