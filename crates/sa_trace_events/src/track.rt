// The tracks of a viewer: what it shows one below another.
ghost use Rattle.std.specs.Prelude.{◌≡◌};
ghost use Rattle.sa_trace_events.specs.Touches.{number_of};
ghost use Rattle.sa_trace_events.specs.Track.{count_number, pid_of, tid_of};

use sa_base::{ProcNo, SpaceNo, ThreadNo};

/// The slices of a processor, one kind within another.
#[derive(Clone, Copy)]
pub enum Level {
    /// The space that owns it.
    Owner,
    /// The activation that runs there.
    Activation,
    /// What it does.
    Work,
}

/// What is counted of a space.
#[derive(Clone, Copy)]
pub enum Count {
    /// How many processors it can use.
    Demand,
    /// How many the policy gives to it.
    Aimed,
    /// How many it owns.
    Owned,
    /// The threads in its ready lists.
    Ready,
    /// The notices that no upcall has told it yet.
    Untold,
}

/// A track, along which slices are shown; the three of a processor are one within another.
#[derive(Clone, Copy)]
pub enum Track {
    Processor(ProcNo, Level),
    Thread(SpaceNo, ThreadNo),
    /// The lock of a ready list.
    Lock(SpaceNo, ProcNo),
    Count(SpaceNo, Count),
}

impl Count {
    /// Its place among the counts of a space.
    pub(crate) fn number(self) -> usize
        ensures { result ≡ count_number self }
    {
        match self {
            Count::Demand => 0,
            Count::Aimed => 1,
            Count::Owned => 2,
            Count::Ready => 3,
            Count::Untold => 4,
        }
    }
}

impl Track {
    /// Its number among the tracks of its kind.
    pub(crate) fn number(self) -> usize
        ensures { result ≡ number_of self }
    {
        match self {
            Track::Processor(p, _) => usize::from(p.0),
            Track::Thread(_, t) => usize::from(t.0),
            Track::Lock(_, l) => usize::from(l.0),
            Track::Count(_, count) => count.number(),
        }
    }

    /// The number of the viewer's process: 1 for the processors, 10 on for the spaces.
    pub(crate) fn pid(self) -> u64
        ensures { result ≡ pid_of self }
    {
        match self {
            Track::Processor(_, _) => 1,
            Track::Thread(s, _) | Track::Lock(s, _) | Track::Count(s, _) => 10 + u64::from(s.0),
        }
    }

    /// The number of the viewer's thread: from 1 on for processors and threads, from 1001 for locks, from 2001 for counts.
    pub(crate) fn tid(self) -> u64
        ensures { result ≡ tid_of self }
    {
        match self {
            Track::Processor(p, _) => 1 + u64::from(p.0),
            Track::Thread(_, t) => 1 + u64::from(t.0),
            Track::Lock(_, l) => 1001 + u64::from(l.0),
            Track::Count(_, count) => 2001 + count.number() as u64,
        }
    }
}
