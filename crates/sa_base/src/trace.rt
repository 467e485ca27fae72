ghost use Rattle.std.specs.Prelude.{◌≡◌, ◌+◌, ◌≤◌, [], ◌∷◌, ◌++◌, length, slice_get, IsTrue, ◌↔◌, OnOk, OnErr};
ghost use Rattle.std.specs.Option.{option_copied};
ghost use Rattle.sa_base.specs.Recorded.{Adds};

use crate::number::ProcNo;
use crate::record::{Item, Record};
use std::alloc::{AllocError, Global};
use std::marker::Model;

/// The history of a run: its items, and room for some more, which `reserve` makes.
#[derive(Drop)]
pub struct Trace {
    items: Vec<Item>,
    spare: usize,
}

impl Model for Trace {
    ghost use Rattle.std.specs.Prelude.{◌≤◌, ◌+◌, vec_len, vec_capacity};
    ghost use Rattle.sa_base.specs.Recorded.{Recorded};

    ghost Value = { Recorded };

    ghost view = { λ t. record { items = t.items.items; spare = t.spare } };

    ghost invariant = { λ t. vec_len t.items + t.spare ≤ vec_capacity t.items };
}

impl Trace {
    /// An empty trace. It cannot fail for want of memory.
    pub fn new(alloc: Global) -> Self
        ensures items { result.items ≡ [] }
        ensures spare { result.spare ≡ 0 }
    {
        Trace {
            items: Vec::new(alloc),
            spare: 0,
        }
    }

    /// Makes room for at least `n` more items. An error changes nothing.
    pub fn reserve(&mut self, n: usize) -> Result<(), AllocError>
        ensures ok { OnOk result (n ≤ self.new.spare) }
        ensures items { self.new.items ≡ self.old.items }
        ensures grows { self.old.spare ≤ self.new.spare }
        ensures err { OnErr result (self.new ≡ self.old) }
    {
        if self.spare < n {
            self.items.reserve(n)?;
            self.spare = n;
        }
        Ok(())
    }

    /// Appends an item, for which there is room. It cannot fail for want of memory.
    pub fn add(&mut self, item: Item)
        requires { 1 ≤ self.old.spare }
        ensures items { self.new.items ≡ self.old.items ++ item ∷ [] }
        ensures spare { self.new.spare + 1 ≡ self.old.spare }
    {
        self.items.push_reserved(item);
        self.spare -= 1;
    }

    /// Appends a record of an event on a processor, for which there is room. It cannot fail for want of memory.
    pub fn say(&mut self, event: u64, p: ProcNo, what: Record)
        requires { 1 ≤ self.old.spare }
        ensures items { self.new.items ≡ self.old.items ++ record { event = event; proc = p; what = what } ∷ [] }
        ensures room { Adds 1 self.old self.new }
    {
        self.add(Item {
            event,
            proc: p,
            what,
        });
    }

    /// The number of items.
    pub fn len(&self) -> usize
        ensures { result ≡ length self.now.items }
    {
        self.items.len()
    }

    /// Whether there is no item yet.
    pub fn is_empty(&self) -> bool
        ensures { IsTrue result ↔ (self.now.items ≡ []) }
    {
        self.items.is_empty()
    }

    /// The item at place `i`, from 0, or `None` where there are no more than `i` items.
    pub fn get(&self, i: usize) -> Option<&Item>
        ensures { option_copied result ≡ slice_get self.now.items i }
    {
        self.items.get(i)
    }

    /// The items as a slice.
    pub fn items(&self) -> &[Item]
        ensures { result.now ≡ self.now.items }
    {
        self.items.as_slice()
    }
}
