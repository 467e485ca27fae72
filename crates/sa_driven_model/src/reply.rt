// Replies.
use sa_base::{ProcNo, ThreadNo};

/// What a context is told to do in its next step.
#[derive(Clone, Copy)]
pub enum Reply {
    /// The next instruction of its thread.
    Ins,
    /// A ready thread runs.
    Run(ThreadNo),
    /// A thread that is due, or was stopped or unblocked, is ready.
    Ready(ThreadNo),
    /// What was interrupted is continued, with a thread that was stopped or unblocked, or with none.
    Cont(Option<ThreadNo>),
    /// What was continued is over: the thread is put down.
    Back,
    /// The lock of a list is taken.
    Take(ProcNo),
    /// The lock of a list is freed.
    Free(ProcNo),
    /// The lock of a list is waited for.
    Spin(ProcNo),
    /// Nothing is to be done.
    Idle,
    /// The space wants so many processors: more than it announced, or one less.
    Want(u16),
    /// The activations that were taken are given back.
    GiveBack,
    /// Another processor of the space is interrupted.
    Line(ProcNo),
}
