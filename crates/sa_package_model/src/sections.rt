// Critical sections that are to be continued.
ghost use Rattle.std.specs.Prelude.{◌≡◌, ◌+◌, ◌≤◌, ◌<◌, [], ◌∷◌, ◌++◌, drop, length, slice_get};
ghost use Rattle.sa_package_model.specs.Context.{has_some};

use arrayvec::ArrayVec;
use sa_code::{Frame, MAX_LISTS};
use std::marker::Model;

/// Critical sections that were interrupted and are still to be continued, in order: each with its thread, and at the
/// place of its copy. There are at most 16, since each holds the lock of a ready list.
#[derive(Drop)]
pub struct Sections {
    frames: ArrayVec<Frame, MAX_LISTS>,
}

impl Model for Sections {
    ghost use Rattle.std.specs.Prelude.{List};
    ghost use Rattle.sa_code.specs.declared.state.Frame.{Frame};

    ghost Value = { List Frame };

    ghost view = { λ s. s.frames.items };
}

impl Sections {
    /// None.
    pub fn new() -> Sections
        ensures { result ≡ [] }
    {
        Sections {
            frames: ArrayVec::new(),
        }
    }

    /// Adds one at the end.
    pub fn add(&mut self, frame: Frame)
        requires { length self.old < MAX_LISTS }
        ensures { self.new ≡ self.old ++ frame ∷ [] }
    {
        self.frames.push(frame);
    }

    /// Adds others at the end, in their order.
    pub fn append(&mut self, others: &Sections)
        requires { length self.old + length others.now ≤ MAX_LISTS }
        ensures { self.new ≡ self.old ++ others.now }
    {
        for frame in others.frames.as_slice() {
            self.add(*frame);
        }
    }

    /// Whether there are some.
    pub fn has_some(&self) -> bool
        ensures { result ≡ has_some self.now }
    {
        !self.frames.is_empty()
    }

    /// The first: `None` exactly where there is none.
    pub fn first(&self) -> Option<Frame>
        ensures { result ≡ slice_get self.now 0 }
    {
        self.frames.first().copied()
    }

    /// All of them, in order.
    pub fn frames(&self) -> &[Frame]
        ensures { result.now ≡ self.now }
    {
        self.frames.as_slice()
    }

    /// Takes the first out.
    pub fn remove_first(&mut self)
        requires { 0 < length self.old }
        ensures { self.new ≡ drop 1 self.old }
    {
        self.frames.remove(0);
    }
}
