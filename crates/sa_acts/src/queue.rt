ghost use Rattle.std.specs.Prelude.{◌≡◌, ◌+◌, ◌≤◌, ◌<◌, [], ◌∷◌, ◌++◌, length, drop, slice_get, OnOk};

use sa_base::ActNo;
use std::alloc::{AllocError, Global};
use std::collections::VecDeque;
use std::marker::Model;

/// Numbers of activations, in the order in which they were taken. Only `reserve` can fail for want of memory.
#[derive(Drop)]
pub(crate) struct Queue {
    numbers: VecDeque<ActNo>,
}

impl Model for Queue {
    ghost use Rattle.std.specs.VecDeque.{deque_capacity};
    ghost use Rattle.sa_acts.specs.Queues.{QueueView};

    ghost Value = { QueueView };

    ghost view = { λ q. record { numbers = q.numbers.items; room = deque_capacity q.numbers } };
}

impl Queue {
    pub(crate) fn new(alloc: Global) -> Self
        ensures { result.numbers ≡ [] }
    {
        Queue {
            numbers: VecDeque::new(alloc),
        }
    }

    /// Makes room for `n` numbers in all.
    pub(crate) fn reserve(&mut self, n: usize) -> Result<(), AllocError>
        ensures ok { OnOk result (n ≤ self.new.room) }
        ensures numbers { self.new.numbers ≡ self.old.numbers }
        ensures grows { self.old.room ≤ self.new.room }
    {
        self.numbers.reserve(n)
    }

    pub(crate) fn push(&mut self, a: ActNo)
        requires { length self.old.numbers < self.old.room }
        ensures { self.new ≡ record self.old { numbers = self.old.numbers ++ a ∷ [] } }
    {
        self.numbers.push_back_reserved(a);
    }

    pub(crate) fn pop(&mut self) -> Option<ActNo>
        ensures first { result ≡ slice_get self.old.numbers 0 }
        ensures rest { self.new ≡ record self.old { numbers = drop 1 self.old.numbers } }
    {
        self.numbers.pop_front()
    }

    pub(crate) fn len(&self) -> usize
        ensures { result ≡ length self.now.numbers }
    {
        self.numbers.len()
    }
}
