// What is left of a machine.
ghost use Rattle.std.specs.Prelude.{◌≡◌};

use crate::follow::PLACES;
use sa_base::{End, Trace};
use std::marker::Model;

/// The history of a machine whose seats are back. `Machine::close` alone makes one.
#[derive(Drop)]
pub struct Closed {
    pub(crate) trace: Trace,
    pub(crate) end: Option<End>,
    pub(crate) turns: [u64; PLACES],
}

impl Model for Closed {
    ghost use Rattle.sa_seat.specs.Closed.{ClosedView};

    ghost Value = { ClosedView };

    ghost view = { λ c. record { items = c.trace.items; end = c.end; turns = c.turns } };
}

impl Closed {
    /// The history.
    pub fn trace(&self) -> &Trace
        ensures { result.now.items ≡ self.now.items }
    {
        &self.trace
    }

    /// How the run ended, or `None` where it could go on.
    pub fn end(&self) -> Option<End>
        ensures { result ≡ self.now.end }
    {
        self.end
    }

    /// How many events each processor had; 0 past the processors.
    pub fn turns(&self) -> [u64; PLACES]
        ensures { result ≡ self.now.turns }
    {
        self.turns
    }
}
