// A thread that runs.
ghost use Rattle.std.specs.Prelude.{◌≡◌};

use sa_base::{SpaceNo, ThreadNo};
use std::marker::Model;

/// A thread of a space, which runs on some processor.
#[derive(Clone, Copy)]
pub struct RunningThread {
    space: SpaceNo,
    thread: ThreadNo,
}

impl Model for RunningThread {
    ghost use Rattle.sa_laws.specs.State.{Runner};

    ghost Value = { Runner };

    ghost view = { λ r. record { space = r.space; thread = r.thread } };

    ghost inverse = { λ r. record { space = r.space; thread = r.thread } };
}

impl RunningThread {
    /// This thread of this space.
    pub fn new(space: SpaceNo, thread: ThreadNo) -> RunningThread
        ensures { result ≡ record { space = space; thread = thread } }
    {
        RunningThread { space, thread }
    }

    /// Its space.
    pub fn space(&self) -> SpaceNo
        ensures { result ≡ self.now.space }
    {
        self.space
    }

    /// Its number in the space.
    pub fn thread(&self) -> ThreadNo
        ensures { result ≡ self.now.thread }
    {
        self.thread
    }
}
