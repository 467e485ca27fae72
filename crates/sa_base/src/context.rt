use crate::number::{ProcNo, ThreadNo};

/// A context that the kernel keeps, with what it knows of it.
#[derive(Drop)]
pub struct Stopped<C> {
    pub ctx: C,
    /// The thread that the context carries.
    pub thread: Option<ThreadNo>,
    /// The context was looking for a thread and carried none.
    pub idle: bool,
}

/// What a user level sees of the kernel at its call.
#[derive(Clone, Copy)]
pub struct Seen {
    /// The processor that it runs on.
    pub proc: ProcNo,
    /// The event that the call belongs to.
    pub event: u64,
    /// The number of processors that its space last announced.
    pub demand: u16,
    /// Bit k says that page k of its space is resident.
    pub pages: u16,
    /// The space's activations that were taken and not given back.
    pub taken: u32,
    /// Bit q says that its space owns processor q, whose line is low.
    pub low: u16,
}
