// How far a search has come, on standard error.
use sa_cli::Progress;
use std::io::Eprint;
use std::time::{Clock, Duration, Instant};

/// Writes once a second how far a search has come.
#[derive(Drop)]
pub(crate) struct Ticker<'a, R> {
    rt: &'a R,
    // when it wrote last, or was made; where it is to write nothing there is no such time
    last: Option<Instant>,
}

impl<'a, R: Clock> Ticker<'a, R> {
    /// One that writes if somebody is watching.
    pub(crate) fn new(rt: &'a R, watched: bool) -> Self {
        let last = if watched { Instant::now(rt).ok() } else { None };
        Ticker { rt, last }
    }
}

impl<'a, R: Clock + Eprint> Progress for Ticker<'a, R> {
    fn tell(&mut self, states: u32, turns: u32) {
        let Some(last) = self.last else {
            return;
        };
        let Ok(now) = Instant::now(self.rt) else {
            return;
        };
        if now.saturating_duration_since(last) < Duration::from_secs(1) {
            return;
        }
        self.last = Some(now);
        // Where standard error takes nothing, the search goes on all the same.
        let _ = eprintln!(self.rt; "{states} states, {turns} turns");
    }
}
