ghost use Rattle.std.specs.Prelude.{◌≡◌, ◌-◌, ◌+◌, ◌<◌, ◌≤◌, ◌↔◌, [], ◌++◌, length, IfOk, IsTrue, OnOk};
ghost use Rattle.std.specs.Option.{option_map};
ghost use Rattle.sa_sync.specs.Sync.{opening, cell_at, mutex_at, semaphore_at, joiners_at, WaitsNowhere, WaitsOnce};
ghost use Rattle.sa_sync.specs.Calls.{locked, unlocked, waited, signalled, joined, finished, first_joiner, without_joiner, stored, is_holder};

use crate::answer::SyncAnswer;
use sa_base::{MAX_THREADS, ThreadNo};
use sa_instr::MAX_MUTEXES;
use sa_links::Links;
use sa_spaces::SpaceDef;
use std::alloc::{AllocError, Global};
use std::marker::Model;

/// What the threads of one space wait on, and the cells that they share.
///
/// Every call takes constant time, and none but `new` can fail for want of memory. A queue is first in, first out.
#[derive(Drop)]
pub struct SyncState {
    holders: Vec<Option<ThreadNo>>,
    counts: Vec<u32>,
    // who joins each thread, who waits for each mutex, who waits for each semaphore
    queues: Links,
    done: Vec<bool>,
    cells: Vec<u64>,
}

impl Model for SyncState {
    ghost use Rattle.sa_sync.specs.Sync.{Sync};

    ghost Value = { Sync };

    ghost use Rattle.sa_sync.specs.Parts.{sync_of, IsState};

    ghost view = { sync_of };

    ghost invariant = { IsState };
}

impl SyncState {
    /// The state at the opening of a space. Fails only where memory runs out.
    pub fn new(alloc: Global, def: &SpaceDef) -> Result<SyncState, AllocError>
        ensures { IfOk result (λ state. state ≡ opening def.now) }
    {
        let mutexes = def.mutexes();
        let counts = Vec::from_slice(alloc, def.sems())?;
        let queues = MAX_THREADS as u32 + mutexes as u32 + counts.len() as u32;
        Ok(SyncState {
            holders: vec![in alloc; None; mutexes as usize]?,
            counts,
            done: vec![in alloc; false; MAX_THREADS as usize]?,
            cells: vec![in alloc; 0; def.cells() as usize]?,
            queues: Links::new(alloc, MAX_THREADS as u32, queues)?,
        })
    }

    /// The instruction `lock m` of a thread that waits nowhere: it takes a free mutex, else it waits in the
    /// mutex's queue, also where it holds the mutex itself.
    pub fn lock(&mut self, t: ThreadNo, m: u16) -> SyncAnswer
        requires thread { t.0 < MAX_THREADS }
        requires free { WaitsNowhere self.old t.0 }
        requires declared { m < length self.old.mutexes }
        ensures state { self.new ≡ (locked self.old t.0 m).state }
        ensures answer { result ≡ (locked self.old t.0 m).answer }
    {
        let mutex = m as usize;
        match self.holders[mutex] {
            None => {
                self.holders[mutex] = Some(t);
                SyncAnswer::Goes
            }
            Some(_) => {
                self.queues.push_back(mutex_queue(m), t.0 as u32);
                SyncAnswer::Waits
            }
        }
    }

    /// The instruction `unlock m`: nothing where the thread does not hold the mutex; else the first in its
    /// queue holds it and is woken, or it is free.
    pub fn unlock(&mut self, t: ThreadNo, m: u16) -> SyncAnswer
        requires { m < length self.old.mutexes }
        ensures state { self.new ≡ (unlocked self.old t.0 m).state }
        ensures answer { result ≡ (unlocked self.old t.0 m).answer }
    {
        let mutex = m as usize;
        if !is_held_by(self.holders[mutex], t) {
            return SyncAnswer::Goes;
        }
        match self.queues.pop_front(mutex_queue(m)) {
            None => {
                self.holders[mutex] = None;
                SyncAnswer::Goes
            }
            Some(next) => {
                let next = ThreadNo(next as u16);
                self.holders[mutex] = Some(next);
                SyncAnswer::Wakes(next)
            }
        }
    }

    /// The instruction `wait k` of a thread that waits nowhere: it takes one from a count above 0, else it
    /// waits in the semaphore's queue.
    pub fn wait(&mut self, t: ThreadNo, k: u16) -> SyncAnswer
        requires thread { t.0 < MAX_THREADS }
        requires free { WaitsNowhere self.old t.0 }
        requires declared { k < length self.old.semaphores }
        ensures state { self.new ≡ (waited self.old t.0 k).state }
        ensures answer { result ≡ (waited self.old t.0 k).answer }
    {
        let semaphore = k as usize;
        let count = self.counts[semaphore];
        if count == 0 {
            let queue = semaphore_queue(self.holders.len(), k);
            self.queues.push_back(queue, t.0 as u32);
            SyncAnswer::Waits
        } else {
            self.counts[semaphore] = count - 1;
            SyncAnswer::Goes
        }
    }

    /// The instruction `signal k`: it wakes the first in the semaphore's queue, or adds one to its count,
    /// which is below 2^32 - 1.
    pub fn signal(&mut self, k: u16) -> SyncAnswer
        requires declared { k < length self.old.semaphores }
        requires count { (semaphore_at self.old k).count < u32.MAX }
        ensures state { self.new ≡ (signalled self.old k).state }
        ensures answer { result ≡ (signalled self.old k).answer }
    {
        let semaphore = k as usize;
        let queue = semaphore_queue(self.holders.len(), k);
        match self.queues.pop_front(queue) {
            None => {
                self.counts[semaphore] += 1;
                SyncAnswer::Goes
            }
            Some(first) => SyncAnswer::Wakes(ThreadNo(first as u16)),
        }
    }

    /// The instruction `join` of a thread that waits nowhere, where `made` threads, at most 512, were made:
    /// the thread waits where the other thread was made and is not done.
    pub fn join(&mut self, t: ThreadNo, other: u64, made: u16) -> SyncAnswer
        requires thread { t.0 < MAX_THREADS }
        requires free { WaitsNowhere self.old t.0 }
        requires made { made ≤ MAX_THREADS }
        ensures state { self.new ≡ (joined self.old t.0 other made).state }
        ensures answer { result ≡ (joined self.old t.0 other made).answer }
    {
        if other < made as u64 && !self.done[other as usize] {
            self.queues.push_back(other as u32, t.0 as u32);
            SyncAnswer::Waits
        } else {
            SyncAnswer::Goes
        }
    }

    /// The thread is done. Those that join it go on waiting until `next_joiner` takes them.
    pub fn finish(&mut self, t: ThreadNo)
        requires { t.0 < MAX_THREADS }
        ensures { self.new ≡ finished self.old t.0 }
    {
        self.done[t.0 as usize] = true;
    }

    /// Takes the thread that came first of those that join `t`: `None` exactly where none is left.
    pub fn next_joiner(&mut self, t: ThreadNo) -> Option<ThreadNo>
        requires { t.0 < MAX_THREADS }
        ensures first { option_map (λ u. u.0) result ≡ first_joiner self.old t.0 }
        ensures state { self.new ≡ without_joiner self.old t.0 }
    {
        let first = self.queues.pop_front(t.0 as u32)?;
        Some(ThreadNo(first as u16))
    }

    /// What the cell holds.
    pub fn load(&self, c: u16) -> u64
        requires { c < length self.now.cells }
        ensures { result ≡ cell_at self.now c }
    {
        self.cells[c as usize]
    }

    /// The cell holds this value from now on.
    pub fn store(&mut self, c: u16, v: u64)
        requires { c < length self.old.cells }
        ensures { self.new ≡ stored self.old c v }
    {
        self.cells[c as usize] = v;
    }

    /// Whether the thread is in no queue.
    pub fn waits_nowhere(&self, t: ThreadNo) -> bool
        requires { t.0 < MAX_THREADS }
        ensures { IsTrue result ↔ WaitsNowhere self.now t.0 }
    {
        self.queues.is_free(t.0 as u32)
    }

    /// The count of a semaphore.
    pub fn count(&self, k: u16) -> u32
        requires { k < length self.now.semaphores }
        ensures { result ≡ (semaphore_at self.now k).count }
    {
        self.counts[k as usize]
    }

    /// How many mutexes there are.
    pub fn mutexes(&self) -> u16
        ensures { result ≡ length self.now.mutexes }
    {
        self.holders.len() as u16
    }

    /// How many semaphores there are.
    pub fn semaphores(&self) -> u16
        ensures { result ≡ length self.now.semaphores }
    {
        self.counts.len() as u16
    }

    /// What each cell holds.
    pub fn cells(&self) -> &[u64]
        ensures { result.now ≡ self.now.cells }
    {
        self.cells.as_slice()
    }

    /// The thread that holds a mutex.
    pub fn holder(&self, m: u16) -> Option<ThreadNo>
        requires { m < length self.now.mutexes }
        ensures { option_map (λ t. t.0) result ≡ (mutex_at self.now m).holder }
    {
        self.holders[m as usize]
    }

    /// Of each thread, whether it is done.
    pub fn done(&self) -> &[bool]
        ensures { result.now ≡ self.now.done }
    {
        self.done.as_slice()
    }

    /// Whether no thread joins this one.
    pub fn has_no_joiners(&self, t: ThreadNo) -> bool
        requires { t.0 < MAX_THREADS }
        ensures { IsTrue result ↔ (joiners_at self.now t.0 ≡ []) }
    {
        self.queues.is_empty(u32::from(t.0))
    }

    /// Adds the threads that wait for a mutex, in the order in which they came, at the end of `out`. This and the next two
    /// fail only where memory runs out.
    pub fn copy_mutex_queue(&self, m: u16, out: &mut Vec<u32>) -> Result<(), AllocError>
        requires { m < length self.now.mutexes }
        ensures { OnOk result (out.new.items ≡ out.old.items ++ (mutex_at self.now m).queue) }
    {
        self.queues.copy_list(mutex_queue(m), out)
    }

    /// The same of those that wait for a semaphore.
    pub fn copy_semaphore_queue(&self, k: u16, out: &mut Vec<u32>) -> Result<(), AllocError>
        requires { k < length self.now.semaphores }
        ensures { OnOk result (out.new.items ≡ out.old.items ++ (semaphore_at self.now k).queue) }
    {
        let queue = semaphore_queue(self.holders.len(), k);
        self.queues.copy_list(queue, out)
    }

    /// The same of those that join a thread.
    pub fn copy_joiners(&self, t: ThreadNo, out: &mut Vec<u32>) -> Result<(), AllocError>
        requires { t.0 < MAX_THREADS }
        ensures { OnOk result (out.new.items ≡ out.old.items ++ joiners_at self.now t.0) }
    {
        self.queues.copy_list(u32::from(t.0), out)
    }

    /// Says that each thread is in one queue at most. It does nothing.
    pub fn waits_once(&self)
        ensures { WaitsOnce self.now }
    {
        self.queues.are_apart();
    }
}

// Whether a mutex with this holder is held by the thread.
fn is_held_by(holder: Option<ThreadNo>, t: ThreadNo) -> bool
    ensures { result ≡ is_holder t.0 (option_map (λ u. u.0) holder) }
{
    match holder {
        None => false,
        Some(holder) => holder.0 == t.0,
    }
}

// The number of a mutex's queue among all queues.
fn mutex_queue(m: u16) -> u32
    ensures { result ≡ MAX_THREADS + m }
{
    MAX_THREADS as u32 + m as u32
}

// The number of a semaphore's queue among all queues.
fn semaphore_queue(mutexes: usize, k: u16) -> u32
    requires { mutexes ≤ MAX_MUTEXES }
    ensures { result ≡ MAX_THREADS + mutexes + k }
{
    MAX_THREADS as u32 + mutexes as u32 + k as u32
}
