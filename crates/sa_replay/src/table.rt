// The threads of a space by their numbers.
ghost use Rattle.std.specs.Prelude.{◌≡◌, ◌<◌, ◌≤◌, ◌+◌, [], ◌∷◌, ◌++◌, false, length, cond, IfOk, slice_index_or, slice_set};
ghost use Rattle.std.specs.List.{list_all};
ghost use Rattle.sa_laws.specs.declared.place.Place.TheVariants as places;
ghost use Rattle.sa_laws.specs.State.{at_start, is_active};
ghost use Rattle.sa_laws.specs.Ends.{is_done, is_at_rest};
ghost use Rattle.sa_replay.specs.Counts.{is_ready, is_live, is_restless, count_in};
ghost use Rattle.sa_replay.specs.Running.{instr_in, IsAt};
ghost use Rattle.sa_replay.specs.Local.{is_local, after_local};

use crate::thread::ThreadState;
use sa_base::{MAX_THREADS, ThreadNo};
use sa_laws::Place;
use sa_spaces::SpaceDef;
use std::alloc::{AllocError, Global};
use std::marker::Model;

/// The threads that a space has made, by their numbers; at most 512.
///
/// Each call but `new` takes constant time and cannot fail for want of memory.
#[derive(Drop)]
pub struct Threads {
    threads: Vec<ThreadState>,
    // how many are ready or run, how many are ready, how many are not done, and how many are ready, run or are carried
    active: u16,
    ready: u16,
    live: u16,
    restless: u16,
}

impl Model for Threads {
    ghost use Rattle.std.specs.Prelude.{List, ◌≤◌, vec_capacity};
    ghost use Rattle.sa_base.specs.declared.limits.TheConstants.{MAX_THREADS};
    ghost use Rattle.sa_laws.specs.State.{Thread};
    ghost use Rattle.sa_replay.specs.Counts.{IsCounted};

    ghost Value = { List Thread };

    ghost view = { λ t. t.threads.items };

    ghost invariant = { λ t. IsCounted t.threads.items t.active t.ready t.live t.restless
        × (MAX_THREADS ≤ vec_capacity t.threads) };
}

impl Threads {
    /// No thread was made. Fails only where memory runs out.
    pub fn new(alloc: Global) -> Result<Threads, AllocError>
        ensures { IfOk result (λ threads. threads ≡ []) }
    {
        Ok(Threads {
            threads: Vec::with_capacity(alloc, usize::from(MAX_THREADS))?,
            active: 0,
            ready: 0,
            live: 0,
            restless: 0,
        })
    }

    /// How many were made, at most 512.
    pub fn len(&self) -> u16
        ensures len { result ≡ length self.now }
        ensures few { result ≤ MAX_THREADS }
    {
        self.threads.len() as u16
    }

    /// The thread of this number; one that was not made counts as done.
    pub fn get(&self, t: ThreadNo) -> ThreadState
        ensures { result ≡ slice_index_or self.now t.0 (at_start 0 places.Done) }
    {
        match self.threads.get(usize::from(t.0)) {
            Some(thread) => *thread,
            None => ThreadState::at_start(0, Place::Done),
        }
    }

    /// Puts a thread in place of the one of this number.
    pub fn set(&mut self, t: ThreadNo, thread: &ThreadState)
        requires { t.0 < length self.old }
        ensures { self.new ≡ slice_set self.old t.0 thread.now }
    {
        let old = self.threads[usize::from(t.0)].place();
        let new = thread.place();
        if new == old {
            self.threads[usize::from(t.0)] = *thread;
            return;
        }
        self.active = moved(self.active, is_active(old), is_active(new));
        self.ready = moved(self.ready, is_ready(old), is_ready(new));
        self.live = moved(self.live, is_live(old), is_live(new));
        self.restless = moved(self.restless, is_restless(old), is_restless(new));
        self.threads[usize::from(t.0)] = *thread;
    }

    /// Runs the next instruction of a thread, of the space that `def` declares, where it stays within the thread; whether it
    /// does.
    #[inline(always)]
    pub(crate) fn run_local(&mut self, t: ThreadNo, def: &SpaceDef) -> bool
        requires made { t.0 < length self.old }
        requires at { IsAt def.now (slice_index_or self.old t.0 (at_start 0 places.Done)) }
        ensures local { let thread = slice_index_or self.old t.0 (at_start 0 places.Done) in
            result ≡ is_local (instr_in def.now thread) }
        ensures threads { let thread = slice_index_or self.old t.0 (at_start 0 places.Done) in
            self.new ≡ slice_set self.old t.0 (after_local (instr_in def.now thread) thread) }
        ensures other { result ≡ false → self.new ≡ self.old }
    {
        let thread = &mut self.threads[usize::from(t.0)];
        thread.run_local(&def.programs()[usize::from(thread.program())])
    }

    /// Adds a thread, which gets the next number.
    pub fn push(&mut self, thread: ThreadState)
        requires { length self.old < MAX_THREADS }
        ensures { self.new ≡ self.old ++ thread ∷ [] }
    {
        let place = thread.place();
        self.active = moved(self.active, false, is_active(place));
        self.ready = moved(self.ready, false, is_ready(place));
        self.live = moved(self.live, false, is_live(place));
        self.restless = moved(self.restless, false, is_restless(place));
        self.threads.push_reserved(thread);
    }

    /// How many threads are ready or run.
    pub fn active(&self) -> u16
        ensures { result ≡ count_in is_active self.now }
    {
        self.active
    }

    /// How many threads are ready.
    pub fn ready(&self) -> u16
        ensures { result ≡ count_in is_ready self.now }
    {
        self.ready
    }

    /// Whether each thread is done.
    #[tactic(auto, using(crate::proofs::CountLemmas::live_none))]
    pub fn are_done(&self) -> bool
        ensures { result ≡ list_all (λ thread. is_done thread.place) self.now }
    {
        self.live == 0
    }

    /// Whether no thread is ready, runs or is carried.
    #[tactic(auto, using(crate::proofs::CountLemmas::restless_none))]
    pub fn are_at_rest(&self) -> bool
        ensures { result ≡ list_all (λ thread. is_at_rest thread.place) self.now }
    {
        self.restless == 0
    }
}

// Whether a thread there is ready or runs.
fn is_active(place: Place) -> bool
    ensures { result ≡ is_active place }
{
    matches!(place, Place::Ready | Place::Running(_))
}

// Whether a thread there is ready.
fn is_ready(place: Place) -> bool
    ensures { result ≡ is_ready place }
{
    matches!(place, Place::Ready)
}

// Whether a thread there is not done.
fn is_live(place: Place) -> bool
    ensures { result ≡ is_live place }
{
    !matches!(place, Place::Done)
}

// Whether a thread there is ready, runs or is carried.
fn is_restless(place: Place) -> bool
    ensures { result ≡ is_restless place }
{
    matches!(place, Place::Ready | Place::Running(_) | Place::Carried)
}

/// A count of at most 512 things of which one changed: whether it counted, and whether it counts now.
pub fn moved(count: u16, counted: bool, counts: bool) -> u16
    requires some { cond counted 1 0 ≤ count }
    requires few { count ≤ MAX_THREADS }
    ensures { result + cond counted 1 0 ≡ count + cond counts 1 0 }
{
    match (counted, counts) {
        (true, false) => count - 1,
        (false, true) => count + 1,
        _ => count,
    }
}
