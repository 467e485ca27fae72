ghost use Rattle.std.specs.Prelude.{◌≡◌, ◌+◌, ◌≤◌, ◌<◌, ◌^◌, ◌↔◌, [], ◌∷◌, ◌++◌, length, map, IsTrue, IsSome, IfSome, Some, OnOk, OnErr, vec_len};
ghost use Rattle.std.specs.Option.{option_map};
ghost use Rattle.std.specs.BinaryHeap.{heap_items, heap_len, heap_capacity, IsHeap, KeepsHeap};
ghost use Rattle.std.specs.List.Sorted.{IsPermutation};
ghost use Rattle.sa_devices.specs.Kept.{key_cmp, ends_at, entry_of, listed, HaveKeys, AreKept};

use crate::kind::IoKind;
use sa_base::IoNo;
use std::alloc::{AllocError, Global};
use std::cmp::Reverse;
use std::collections::BinaryHeap;
use std::marker::Model;

/// An I/O under way, at the place of its number.
#[derive(Clone, Copy)]
pub struct Entry {
    /// The event from which on it is due.
    pub ends: u64,
    /// What it is for.
    pub kind: IoKind,
}

/// The I/Os that were begun, by their numbers: the place of one that is over is empty. Those under way are
/// in a heap too, by their ends. The heap keeps the key of one that was over before its turn until its turn
/// comes. An ordered map could not promise to begin an I/O with no memory taken.
#[derive(Drop)]
pub(crate) struct UnderWay {
    places: Vec<Option<Entry>>,
    by_end: BinaryHeap<Reverse<(u64, u32)>>,
    spare: usize,
}

impl Model for UnderWay {
    ghost use Rattle.std.specs.Prelude.{◌≤◌, ◌+◌, ◌^◌, length, vec_len, vec_capacity};
    ghost use Rattle.std.specs.BinaryHeap.{heap_items, heap_len, heap_capacity};
    ghost use Rattle.sa_devices.specs.DevicesView.{IosView};
    ghost use Rattle.sa_devices.specs.Kept.{listed, AreKept};

    ghost Value = { IosView };

    ghost view = { λ u. record {
      io_count = length u.places.items;
      under_way = listed 0 u.places.items;
      spare = u.spare;
    } };

    ghost invariant = { λ u. AreKept u.places.items (heap_items u.by_end)
        × (vec_len u.places + u.spare ≤ vec_capacity u.places)
        × (heap_len u.by_end + u.spare ≤ heap_capacity u.by_end)
        × (length u.places.items ≤ 2 ^ 32) };
}

impl UnderWay {
    ghost use Rattle.sa_devices.specs.DevicesView.{IosView, begun_with, ended_with};
    ghost use Rattle.sa_devices.specs.Ios.{Io, due_of, io_at, io_no};

    /// No I/O was begun. It cannot fail for want of memory.
    pub fn new(alloc: Global) -> Self
        ensures { let none : IosView = record { io_count = 0; under_way = []; spare = 0 } in
            result ≡ none }
    {
        UnderWay {
            places: Vec::new(alloc),
            by_end: BinaryHeap::new(alloc),
            spare: 0,
        }
    }

    /// Makes room for at least `n` more I/Os. An error changes nothing.
    pub fn reserve(&mut self, n: usize) -> Result<(), AllocError>
        ensures ok { OnOk result (n ≤ self.new.spare) }
        ensures rest { self.new ≡ record self.old { spare = self.new.spare } }
        ensures grows { self.old.spare ≤ self.new.spare }
        ensures err { OnErr result (self.new ≡ self.old) }
    {
        if self.spare < n {
            self.places.reserve(n)?;
            self.by_end.reserve(n)?;
            self.spare = n;
        }
        Ok(())
    }

    /// Begins an I/O that is due from the event `ends` on, and answers its number. It cannot fail for want of memory.
    pub fn begin(&mut self, kind: IoKind, ends: u64) -> IoNo
        requires room { 1 ≤ self.old.spare }
        requires few { self.old.io_count < 2 ^ 32 }
        ensures number { result.0 ≡ self.old.io_count }
        ensures exact { self.new ≡ begun_with self.old kind ends }
    {
        let number = self.places.len() as u32;
        self.places.push_reserved(Some(Entry { ends, kind }));
        put(&mut self.by_end, Reverse((ends, number)));
        self.spare -= 1;
        IoNo(number)
    }

    /// Of the I/Os whose end is at most `event` the one with the least end, and of these the one with the least
    /// number, or `None` where there is none.
    pub fn due(&self, event: u64) -> Option<IoNo>
        ensures soonest { result ≡ option_map io_no (due_of event self.now.under_way) }
        ensures under_way { IfSome result (λ io. IsSome (io_at io.0 self.now.under_way)) }
    {
        match self.by_end.peek() {
            Some(Reverse((ends, number))) if *ends <= event => Some(IoNo(*number)),
            _ => None,
        }
    }

    /// The I/O, which is under way, is over. Answers what it was for.
    pub fn complete(&mut self, io: IoNo) -> IoKind
        requires { IsSome (io_at io.0 self.old.under_way) }
        ensures kind { option_map (λ (x : Io). x.kind) (io_at io.0 self.old.under_way)
            ≡ Some result }
        ensures exact { self.new ≡ ended_with self.old io.0 }
    {
        let Some(entry) = self.places[io.0 as usize] else {
            unreachable!()
        };
        self.places[io.0 as usize] = None;
        drop_over(self.places.as_slice(), &mut self.by_end);
        entry.kind
    }

    /// Adds the I/Os under way, in the order of their numbers, at the end of `out`. Fails only where memory runs out.
    pub fn copy_to(&self, out: &mut Vec<Entry>) -> Result<(), AllocError>
        ensures { OnOk result (out.new.items ≡ out.old.items ++ map entry_of self.now.under_way) }
    {
        copy_entries(self.places.as_slice(), out)
    }

    /// Whether no I/O is under way.
    pub fn is_empty(&self) -> bool
        ensures { IsTrue result ↔ (self.now.under_way ≡ []) }
    {
        self.by_end.as_slice().is_empty()
    }
}

// Puts a key into a heap that has room for it.
fn put(by_end: &mut BinaryHeap<Reverse<(u64, u32)>>, key: Reverse<(u64, u32)>)
    requires { heap_len by_end.old < heap_capacity by_end.old }
    ensures items { IsPermutation (key ∷ heap_items by_end.old) (heap_items by_end.new) }
    ensures order { KeepsHeap key_cmp (heap_items by_end.old) (heap_items by_end.new) }
    ensures len { heap_len by_end.new ≡ heap_len by_end.old + 1 }
    ensures capacity { heap_capacity by_end.old ≤ heap_capacity by_end.new }
{
    match by_end.push(key) {
        Ok(()) => {}
        Err(_) => unreachable!(),
    }
}

// Takes the first keys out of the heap, as long as their I/Os are over.
fn drop_over(places: &[Option<Entry>], by_end: &mut BinaryHeap<Reverse<(u64, u32)>>)
    requires order { IsHeap key_cmp (heap_items by_end.old) }
    requires keyed { HaveKeys places.now (heap_items by_end.old) }
    ensures kept { AreKept places.now (heap_items by_end.new) }
    ensures len { heap_len by_end.new ≤ heap_len by_end.old }
    ensures capacity { heap_capacity by_end.new ≡ heap_capacity by_end.old }
{
    while let Some(Reverse((ends, number))) = by_end.peek() {
        if is_under_way(places, *ends, *number) {
            break;
        }
        by_end.pop();
    }
}

// Adds the I/Os under way at the end of `out`. Fails only where memory runs out.
fn copy_entries(places: &[Option<Entry>], out: &mut Vec<Entry>) -> Result<(), AllocError>
    ensures { OnOk result (out.new.items ≡ out.old.items ++ map entry_of (listed 0 places.now)) }
{
    for place in places {
        if let Some(entry) = place {
            out.push(*entry)?;
        }
    }
    Ok(())
}

// Whether the I/O with this end and this number is under way.
fn is_under_way(places: &[Option<Entry>], ends: u64, number: u32) -> bool
    ensures { IsTrue result ↔ (ends_at places.now number ≡ Some ends) }
{
    match places.get(number as usize) {
        Some(Some(entry)) => entry.ends == ends,
        _ => false,
    }
}
