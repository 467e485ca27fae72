use crate::reply::Reply;
use crate::threads::ThreadSet;
use sa_package_model::Package;

/// What a driven user level keeps of its address space.
#[derive(Drop)]
pub struct DrivenSpace {
    /// The threads, and what they wait on. Its ready lists stay empty, and its work lists are empty between calls.
    pub base: Package,
    /// The threads that can be made ready: those that are due, and those that were stopped or unblocked, of which the
    /// space was told.
    pub handed: ThreadSet,
    /// What the next step is to do.
    pub reply: Option<Reply>,
}
