ghost use Rattle.std.specs.Prelude.{◌≡◌};
ghost use Rattle.sa_check_lives.specs.Change.{adds_lock, enters};

use crate::lock::ListLock;
use sa_base::ThreadNo;

/// How many looks found no thread, after a step.
#[derive(Clone, Copy)]
pub enum Scan {
    /// One more than before.
    More,
    /// As many as before.
    Same,
    /// None any more.
    Over,
}

/// What becomes of a life at the end of an own event.
#[derive(Clone, Copy)]
pub struct Stepped {
    /// The event was a free.
    pub freed: bool,
    /// How the looks that found no thread are counted on.
    pub scan: Scan,
    /// The life is in, by the test of the user level.
    pub inside: bool,
}

/// What a record, or the end of an event, changes in a life.
#[derive(Drop)]
pub enum Change {
    /// Its stop, of this thread.
    Stop(Option<ThreadNo>),
    /// Its block, of this thread.
    Block(Option<ThreadNo>),
    /// Its unblock, of this thread.
    Unblock(Option<ThreadNo>),
    /// A cont of its own.
    Cont,
    /// A back of its own, of this thread.
    Back(Option<ThreadNo>),
    /// It makes this thread ready.
    Ready(ThreadNo),
    /// It runs this thread.
    Run(ThreadNo),
    /// It takes the lock of a list.
    Take(ListLock),
    /// It frees its first lock.
    Free,
    /// An event of its own ends.
    Step(Stepped),
    /// The event of its up ends, and whether it is in.
    Arise(bool),
}

impl Change {
    /// The change gives a life a lock.
    #[inline(always)]
    pub fn adds_lock(&self) -> bool
        ensures { result ≡ adds_lock self.now }
    {
        match self {
            Change::Take(_) => true,
            _ => false,
        }
    }

    /// The life is in by the change.
    #[inline(always)]
    pub fn enters(&self) -> bool
        ensures { result ≡ enters self.now }
    {
        match self {
            Change::Step(stepped) => stepped.inside,
            Change::Arise(inside) => *inside,
            _ => false,
        }
    }
}
