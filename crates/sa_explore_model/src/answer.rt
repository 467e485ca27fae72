// What a search keeps, and what it answers.
use sa_base::{End, ProcNo};

/// A state that a search came to: the one that it came from, and how.
#[derive(Clone, Copy)]
pub struct State {
    /// The number of the state before it, which is less than its own. Of state 0, which is the first, it says nothing.
    pub before: u32,
    /// The processor whose turn led here from the state before.
    pub proc: ProcNo,
    /// How runs end here, or `None` where they go on.
    pub end: Option<End>,
}

/// How much a search has looked at.
#[derive(Clone, Copy)]
pub enum Extent {
    /// Every order of turns, of any length.
    All,
    /// Every order of as many turns as the depth says. The states were spent, or a run came to 1,000,000 events.
    Part,
}

/// What a search found of the states that are alike in one thing, as in their end.
#[derive(Drop)]
pub struct Found {
    /// The schedule of the shortest run that comes to such a state: whose turn each of its events is, with the workload's turn lines as
    /// its first. Of the shortest it is the first in order of processors.
    pub schedule: Vec<ProcNo>,
    /// How many such states there are, 1 to 10,000,000.
    pub states: u32,
}

/// What a search through every order of turns answers. States are different by their outlooks.
#[derive(Drop)]
pub struct Explored {
    pub extent: Extent,
    /// How many states it came to, the first and the ends among them: 1 to 10,000,000.
    pub states: u32,
    /// After the turn lines, the turns of the longest of the shortest ways to a state; where `extent` is `Part`, every order of that many
    /// turns was looked at.
    pub depth: u32,
    /// The states in which all threads are done.
    pub all_done: Option<Found>,
    /// The states in which the run is stuck.
    pub stuck: Option<Found>,
    /// The states from which no order of turns ever ends; `None` where `extent` is `Part`.
    pub endless: Option<Found>,
}
