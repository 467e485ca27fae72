// A source and a sink in memory, whose calls fail where their numbers say so.
ghost use Rattle.std.specs.Prelude.{◌≡◌, ◌+◌, ◌<◌, ◌≤◌, ◌↔◌, [], ◌++◌, Some, length, take, drop, min, Contains, IsTrue, IsErr, IfOk, OnOk, OnErr};
ghost use Rattle.sa_io.specs.Faults.{AppendsPrefix, HasRisen};
ghost use Rattle.sa_io.specs.Store.{NextWriteFails, after_write, after_failed_write};
ghost use Rattle.sa_io.specs.Supply.{NextReadFails, next_count, after_read, after_failed_read};

use crate::traits::{Failed, Sink, Source};
use std::alloc::{AllocError, Global};
use std::marker::Model;

/// A source of bytes in memory. Chosen reads fail.
#[derive(Drop)]
pub struct MemSource {
    bytes: Vec<u8>,
    at: usize,
    step: usize,
    failing: Vec<u64>,
    calls: u64,
    faults: u64,
}

impl Model for MemSource {
    ghost use Rattle.std.specs.Prelude.{◌≤◌, ◌<◌, drop, length};
    ghost use Rattle.sa_io.specs.Supply.{Supply};

    ghost Value = { Supply };

    ghost view = { λ s. record {
      left = drop s.at s.bytes.items;
      step = s.step;
      failing = s.failing.items;
      calls = s.calls;
      faults = s.faults;
    } };

    ghost invariant = { λ s. (s.at ≤ length s.bytes.items) × (0 < s.step) };
}

impl MemSource {
    /// A source that gives these bytes, at most `step` of them a read. The reads whose numbers, from 1
    /// on, are in `failing` fail, and no others.
    pub fn new(bytes: Vec<u8>, step: usize, failing: Vec<u64>) -> MemSource
        requires { 1 ≤ step }
        ensures { result ≡ record {
          left = bytes.items;
          step = step;
          failing = failing.items;
          calls = 0;
          faults = 0;
        } }
    {
        MemSource {
            bytes,
            at: 0,
            step,
            failing,
            calls: 0,
            faults: 0,
        }
    }
}

impl Source for MemSource {
    ghost left = { λ s. Some s.left };

    ghost faults = { λ s. s.faults };

    // Gives the smaller of the step, the room and what is left.
    fn read(&mut self, into: &mut [u8]) -> Result<usize, Failed>
        // As any source does.
        ensures within { IfOk result (λ n. n ≤ length into.old) }
        ensures taken { IfOk result (λ n. self.old.left ≡ take n into.new ++ self.new.left) }
        ensures end { 0 < length into.old → IfOk result (λ n. (n ≡ 0) ↔ (self.old.left ≡ [])) }
        ensures failed { OnErr result (HasRisen self.old.faults self.new.faults) }
        ensures err { OnErr result (self.new.left ≡ self.old.left) }
        ensures counted { self.old.faults ≤ self.new.faults }

        // The call does exactly this.
        ensures fails { IsErr result ↔ NextReadFails self.old }
        ensures count { IfOk result (λ n. n ≡ next_count self.old (length into.old)) }
        ensures bytes { IfOk result (λ n. into.new ≡ take n self.old.left ++ drop n into.old) }
        ensures after { IfOk result (λ n. self.new ≡ after_read self.old n) }
        ensures after_failed { OnErr result (self.new ≡ after_failed_read self.old) }
        ensures into_kept { OnErr result (into.new ≡ into.old) }
    {
        let is_failing = is_next_listed(&self.failing, self.calls);
        self.calls = self.calls.saturating_add(1);
        if is_failing {
            self.faults = self.faults.saturating_add(1);
            return Err(Failed);
        }
        let count = copy_next(&self.bytes, self.at, self.step, into);
        self.at += count;
        Ok(count)
    }
}

// Copies what `from` has at `at` and behind it to the front of `to`, at most `most` bytes of it, and returns how many.
fn copy_next(from: &[u8], at: usize, most: usize, to: &mut [u8]) -> usize
    requires { at ≤ length from.now }
    ensures count { result ≡ min most (min (length to.old) (length (drop at from.now))) }
    ensures copied { to.new ≡ take result (drop at from.now) ++ drop result to.old }
{
    let left = &from[at..];
    let count = most.min(to.len().min(left.len()));
    to[..count].copy_from_slice(&left[..count]);
    count
}

// Whether the call that follows on this many calls is one of those listed.
fn is_next_listed(numbers: &[u64], calls: u64) -> bool
    ensures { IsTrue result ↔ Contains numbers.now (calls + 1) }
{
    for number in numbers {
        if *number > 0 && *number - 1 == calls {
            return true;
        }
    }
    false
}

/// A sink in memory, of a fixed size. Chosen writes fail.
#[derive(Drop)]
pub struct MemSink {
    bytes: Vec<u8>,
    room: usize,
    failing: Vec<u64>,
    calls: u64,
    faults: u64,
}

impl Model for MemSink {
    ghost use Rattle.std.specs.Prelude.{◌≤◌, length, vec_capacity};
    ghost use Rattle.sa_io.specs.Store.{Store};

    ghost Value = { Store };

    ghost view = { λ s. record {
      taken = s.bytes.items;
      room = s.room;
      failing = s.failing.items;
      calls = s.calls;
      faults = s.faults;
    } };

    ghost invariant = { λ s.
        (length s.bytes.items ≤ s.room) × (s.room ≤ vec_capacity s.bytes) };
}

impl MemSink {
    /// A sink that holds at most `room` bytes, all reserved here, so that no write fails for want of memory. The
    /// writes whose numbers, from 1 on, are in `failing` fail, as does one whose piece does not fit.
    pub fn new(alloc: Global, room: usize, failing: Vec<u64>) -> Result<MemSink, AllocError>
        ensures { IfOk result (λ sink. sink ≡ record {
          taken = [];
          room = room;
          failing = failing.items;
          calls = 0;
          faults = 0;
        }) }
    {
        Ok(MemSink {
            bytes: Vec::with_capacity(alloc, room)?,
            room,
            failing,
            calls: 0,
            faults: 0,
        })
    }

    /// The bytes that the sink took, in the order in which they came.
    pub fn taken(&self) -> &[u8]
        ensures bytes { result.now ≡ self.now.taken }
        ensures within { length result.now ≤ self.now.room }
    {
        &self.bytes
    }
}

impl Sink for MemSink {
    ghost taken = { λ s. Some s.taken };

    ghost faults = { λ s. s.faults };

    // A write that fails takes nothing.
    fn write(&mut self, piece: &[u8]) -> Result<(), Failed>
        // As any sink does.
        ensures taken { OnOk result (self.new.taken ≡ self.old.taken ++ piece.now) }
        ensures failed { OnErr result (HasRisen self.old.faults self.new.faults) }
        ensures err { OnErr result
            (AppendsPrefix (Some self.old.taken) (Some self.new.taken) piece.now) }
        ensures counted { self.old.faults ≤ self.new.faults }

        // The call does exactly this.
        ensures fails { IsErr result ↔ NextWriteFails self.old piece.now }
        ensures after { OnOk result (self.new ≡ after_write self.old piece.now) }
        ensures after_failed { OnErr result (self.new ≡ after_failed_write self.old) }
    {
        let is_failing = is_next_listed(&self.failing, self.calls);
        self.calls = self.calls.saturating_add(1);
        let fits = piece.len() <= self.room - self.bytes.len();
        // The room is reserved, so a piece that fits is always appended.
        if is_failing || !fits || self.bytes.extend_from_slice(piece).is_err() {
            self.faults = self.faults.saturating_add(1);
            return Err(Failed);
        }
        Ok(())
    }
}
