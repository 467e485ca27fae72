// What an activation runs.
ghost use Rattle.std.specs.Prelude.{◌≡◌};
ghost use Rattle.sa_package_model.specs.Context.{fresh, carried_by, stands_idle, stands_between, stands_inside};

use crate::sections::Sections;
use sa_base::ThreadNo;
use sa_code::Frame;

/// Where a context is, with the thread that it carries.
#[derive(Clone, Copy)]
pub enum ContextState {
    /// At a place of the package's code.
    Code(Frame),
    /// Between routines, with something left to do.
    Work(Option<ThreadNo>),
    /// Before the hint that its space can use more processors.
    Hint(Option<ThreadNo>),
    /// Before it gives activations back.
    Return,
    /// At an instruction of its thread.
    User(ThreadNo),
    /// Without a thread: it looked at the ready lists in vain so often, at most 1,000 times.
    Look(u16),
}

impl ContextState {
    /// The thread that is carried.
    pub fn thread(self) -> Option<ThreadNo>
        ensures { result ≡ carried_by self }
    {
        match self {
            ContextState::Code(frame) => frame.thread,
            ContextState::Work(thread) | ContextState::Hint(thread) => thread,
            ContextState::User(thread) => Some(thread),
            ContextState::Return | ContextState::Look(_) => None,
        }
    }

    /// Whether there is no thread and nothing else to do.
    pub fn is_idle(self) -> bool
        ensures { result ≡ stands_idle self }
    {
        matches!(self, ContextState::Look(_))
    }

    /// Whether it is between routines, or at an instruction.
    pub fn is_between(self) -> bool
        ensures { result ≡ stands_between self }
    {
        !matches!(self, ContextState::Code(_) | ContextState::Look(_))
    }

    /// Whether it is inside the package.
    pub fn is_inside(self) -> bool
        ensures { result ≡ stands_inside self }
    {
        !matches!(self, ContextState::User(_) | ContextState::Look(_))
    }
}

/// What an activation runs, in the package or at a thread's instruction.
#[derive(Drop)]
pub struct Context {
    pub state: ContextState,
    /// The critical sections that it has to continue.
    pub sections: Sections,
    /// The first thread of its work list, by which the list is named; `None` where the list is empty.
    pub work: Option<ThreadNo>,
}

impl Context {
    /// The context of a fresh activation: it has nothing to do until it is told.
    pub fn new() -> Context
        ensures { result ≡ fresh }
    {
        Context {
            state: ContextState::Work(None),
            sections: Sections::new(),
            work: None,
        }
    }
}
