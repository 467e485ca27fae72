// Who is told how far a search has come.

/// Is told how far a search has come.
pub trait Progress {
    /// So many states are kept, and those are looked at to which so many turns lead.
    fn tell(&mut self, states: u32, turns: u32);
}

/// Nobody is told.
#[derive(Drop)]
pub struct NoProgress;

impl Progress for NoProgress {
    fn tell(&mut self, _states: u32, _turns: u32) {}
}
