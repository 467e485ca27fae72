// The breakpoints of a session.
ghost use Rattle.std.specs.Prelude.{◌≡◌, ◌≤◌, ◌<◌, [], ◌∷◌, ◌++◌, ◌%◌, filter, length, IsTrue, ◌↔◌, OnOk, OnErr};
ghost use Rattle.std.specs.List.{list_any};
ghost use Rattle.sa_debug.specs.Points.{same_point, is_other};

use crate::script::Point;
use std::alloc::{AllocError, Global};
use std::marker::Model;

/// The most breakpoints of a session.
pub const MAX_POINTS: usize = 64;

// The slots of a table.
const SLOTS: usize = 64;

/// The breakpoints, in the order in which they were set. The slot of each one's thread is set in `threads`, and that of its
/// place in `places`; the slots of one that was taken away may stay set.
#[derive(Drop)]
pub(crate) struct Points {
    points: Vec<Point>,
    threads: [bool; SLOTS],
    places: [bool; SLOTS],
}

impl Model for Points {
    ghost use Rattle.std.specs.Prelude.{List};
    ghost use Rattle.sa_debug.specs.declared.script.command.Point.{Point};
    ghost use Rattle.std.specs.List.{All};
    ghost use Rattle.sa_debug.specs.Points.{IsMarked};

    ghost Value = { List Point };

    ghost view = { λ s. s.points.items };

    ghost invariant = { λ s. All (IsMarked s.threads s.places) s.points.items };
}

impl Points {
    /// No breakpoint.
    pub(crate) fn new(alloc: Global) -> Points
        ensures { result ≡ [] }
    {
        Points {
            points: Vec::new(alloc),
            threads: [false; SLOTS],
            places: [false; SLOTS],
        }
    }

    /// Whether it is a breakpoint.
    pub(crate) fn has(&self, point: Point) -> bool
        ensures { result ≡ list_any (same_point point) self.now }
    {
        if !self.threads[thread_slot(point)] {
            return false;
        }
        if !self.places[place_slot(point)] {
            return false;
        }
        self.points.iter().any(|other| is_same(point, *other))
    }

    /// Whether there is no breakpoint.
    pub(crate) fn is_empty(&self) -> bool
        ensures { IsTrue result ↔ (self.now ≡ []) }
    {
        self.points.is_empty()
    }

    /// Whether there are as many breakpoints as there may be.
    pub(crate) fn is_full(&self) -> bool
        ensures { IsTrue result ↔ (MAX_POINTS ≤ length self.now) }
    {
        self.points.len() >= MAX_POINTS
    }

    /// Adds a breakpoint after the others. An error changes nothing.
    pub(crate) fn add(&mut self, point: Point) -> Result<(), AllocError>
        ensures ok { OnOk result (self.new ≡ self.old ++ point ∷ []) }
        ensures err { OnErr result (self.new ≡ self.old) }
    {
        self.points.push(point)?;
        self.threads[thread_slot(point)] = true;
        self.places[place_slot(point)] = true;
        Ok(())
    }

    /// Takes the breakpoint away; the others stay.
    pub(crate) fn remove(&mut self, point: Point)
        ensures { self.new ≡ filter (is_other point) self.old }
    {
        self.points.retain(|other| !is_same(point, *other));
    }
}

// The slot of the point's thread, and that of its place.
fn thread_slot(point: Point) -> usize
    ensures { result ≡ point.thread.0 % 64 }
{
    usize::from(point.thread.0) % SLOTS
}

fn place_slot(point: Point) -> usize
    ensures { result ≡ point.place % 64 }
{
    usize::from(point.place) % SLOTS
}

// Whether the two are one place of one thread.
fn is_same(a: Point, b: Point) -> bool
    ensures { result ≡ same_point a b }
{
    a.space.0 == b.space.0 && a.thread.0 == b.thread.0 && a.place == b.place
}
