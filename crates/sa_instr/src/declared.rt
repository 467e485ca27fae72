// How many of each thing a space declares.
ghost use Rattle.std.specs.Prelude.{◌≤◌, ◌↔◌, IsTrue};

use crate::limits::{MAX_CELLS, MAX_MUTEXES, MAX_PROGRAMS, MAX_SEMAPHORES};

/// How many of each thing a space declares, which its programs may name.
#[derive(Clone, Copy)]
pub struct Declared {
    /// Mutexes.
    pub mutexes: u16,
    /// Semaphores.
    pub sems: usize,
    /// Cells.
    pub cells: u16,
    /// Programs.
    pub programs: usize,
}

impl Declared {
    /// Whether a space may declare that many.
    pub fn is_in_range(&self) -> bool
        ensures { IsTrue result ↔
            ((self.now.mutexes ≤ MAX_MUTEXES) × (self.now.sems ≤ MAX_SEMAPHORES)
            × (self.now.cells ≤ MAX_CELLS)
            × (1 ≤ self.now.programs) × (self.now.programs ≤ MAX_PROGRAMS)) }
    {
        self.mutexes <= MAX_MUTEXES
            && self.sems <= MAX_SEMAPHORES
            && self.cells <= MAX_CELLS
            && 1 <= self.programs
            && self.programs <= MAX_PROGRAMS
    }
}
