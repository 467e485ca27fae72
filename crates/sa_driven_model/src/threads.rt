// Sets of threads.
ghost use Rattle.std.specs.Prelude.{◌≡◌, ◌<◌, length};
ghost use Rattle.sa_driven_model.specs.Threads.{no_threads, has, with_thread, without_thread, both_sets, share_one};

use sa_base::{MAX_THREADS, ThreadNo};
use std::marker::Model;

/// A set of threads of a space.
#[derive(Drop)]
pub struct ThreadSet {
    // whether each thread is in
    is_in: [bool; MAX_THREADS as usize],
}

impl Model for ThreadSet {
    ghost use Rattle.std.specs.Prelude.{◌≡◌, List, Bool, length};
    ghost use Rattle.sa_base.specs.declared.limits.TheConstants.{MAX_THREADS};

    ghost Value = { List Bool };

    ghost view = { λ s. s.is_in };

    ghost invariant = { λ s. length s.is_in ≡ MAX_THREADS };
}

impl ThreadSet {
    /// The empty set.
    pub fn new() -> ThreadSet
        ensures { result ≡ no_threads }
    {
        ThreadSet {
            is_in: [false; MAX_THREADS as usize],
        }
    }

    /// Whether the thread is in.
    pub fn has(&self, t: ThreadNo) -> bool
        ensures { result ≡ has self.now t.0 }
    {
        t.0 < MAX_THREADS && self.is_in[t.0 as usize]
    }

    /// Puts a thread into the set.
    pub fn add(&mut self, t: ThreadNo)
        requires { t.0 < MAX_THREADS }
        ensures { self.new ≡ with_thread self.old t.0 }
    {
        self.is_in[t.0 as usize] = true;
    }

    /// Takes a thread out of the set.
    pub fn remove(&mut self, t: ThreadNo)
        requires { t.0 < MAX_THREADS }
        ensures { self.new ≡ without_thread self.old t.0 }
    {
        self.is_in[t.0 as usize] = false;
    }

    /// Puts all threads of another set into this one.
    pub fn add_all(&mut self, others: &ThreadSet)
        ensures { self.new ≡ both_sets self.old others.now }
    {
        for t in 0..MAX_THREADS as usize {
            self.is_in[t] = self.is_in[t] || others.is_in[t];
        }
    }

    /// Whether some thread is in both sets.
    pub fn shares(&self, others: &ThreadSet) -> bool
        ensures { result ≡ share_one self.now others.now }
    {
        for t in 0..MAX_THREADS as usize {
            if self.is_in[t] && others.is_in[t] {
                return true;
            }
        }
        false
    }
}
