ghost use Rattle.std.specs.Prelude.{◌≡◌, ◌+◌, ◌≤◌, [], ◌∷◌, ◌++◌, length, drop, slice_get, IsTrue, ◌↔◌, OnOk, OnErr};

use sa_base::Note;
use smallvec::SmallVec;
use std::alloc::{AllocError, Global};
use std::marker::Model;

// How many notices a batch holds in itself: few wait at a time.
const INLINE: usize = 8;

/// Notices that wait to be told, and room for some more, which `reserve` makes. No other call can fail for
/// want of memory.
#[derive(Drop)]
pub struct Batch {
    notes: SmallVec<Note, INLINE>,
    // how many of them were handed out
    first: usize,
    spare: usize,
}

impl Model for Batch {
    ghost use Rattle.std.specs.Prelude.{◌≤◌, ◌+◌, drop, length};
    ghost use Rattle.sa_batch.specs.Noted.{Noted};

    ghost Value = { Noted };

    ghost view = { λ b. record { notes = drop b.first b.notes.items; spare = b.spare } };

    ghost invariant = { λ b. (b.first ≤ length b.notes.items)
        × (length b.notes.items + b.spare ≤ b.notes.capacity) };
}

impl Batch {
    /// An empty batch without room.
    pub fn new(alloc: Global) -> Self
        ensures notes { result.notes ≡ [] }
        ensures spare { result.spare ≡ 0 }
    {
        Batch {
            notes: SmallVec::new(alloc),
            first: 0,
            spare: 0,
        }
    }

    /// Makes room for at least `n` more notices. An error changes nothing.
    pub fn reserve(&mut self, n: usize) -> Result<(), AllocError>
        ensures ok { OnOk result (n ≤ self.new.spare) }
        ensures notes { self.new.notes ≡ self.old.notes }
        ensures grows { self.old.spare ≤ self.new.spare }
        ensures err { OnErr result (self.new ≡ self.old) }
    {
        if self.spare < n {
            self.notes.reserve(n)?;
            self.spare = n;
        }
        Ok(())
    }

    /// Appends a notice, for which there is room.
    pub fn add(&mut self, note: Note)
        requires { 1 ≤ self.old.spare }
        ensures notes { self.new.notes ≡ self.old.notes ++ note ∷ [] }
        ensures spare { self.new.spare + 1 ≡ self.old.spare }
    {
        self.notes.push_reserved(note);
        self.spare -= 1;
    }

    /// Takes the first notice out: `None` exactly where there is none. The room stays.
    pub fn next(&mut self) -> Option<Note>
        ensures first { result ≡ slice_get self.old.notes 0 }
        ensures notes { self.new.notes ≡ drop 1 self.old.notes }
        ensures spare { self.new.spare ≡ self.old.spare }
    {
        let note = *self.notes.as_slice().get(self.first)?;
        self.first += 1;
        if self.first == self.notes.len() {
            self.notes.clear();
            self.first = 0;
        }
        Some(note)
    }

    /// The number of notices that wait.
    pub fn len(&self) -> usize
        ensures { result ≡ length self.now.notes }
    {
        self.notes.len() - self.first
    }

    /// Whether no notice waits.
    pub fn is_empty(&self) -> bool
        ensures { IsTrue result ↔ (self.now.notes ≡ []) }
    {
        self.len() == 0
    }

    /// The notices that wait, as a slice.
    pub fn notes(&self) -> &[Note]
        ensures { result.now ≡ self.now.notes }
    {
        &self.notes.as_slice()[self.first..]
    }
}
