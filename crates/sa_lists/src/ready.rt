// Ready lists under locks, as callers see them.
ghost use Rattle.std.specs.Prelude.{◌≡◌, ◌<◌, ◌≤◌, ◌-◌, [], ◌↔◌, true, false, not, find, length, IsTrue, IfOk, IfSome, OnOk, ◌++◌};
ghost use Rattle.std.specs.Bool.{OnFalse};
ghost use Rattle.std.specs.List.{range_with_len};
ghost use Rattle.std.specs.Option.{option_map};
ghost use Rattle.sa_lists.specs.ReadyView.{no_threads, thread, processor, list_of, ready_count, rank_of, is_locked, IsLocked, IsUnlisted, with_lock, pushed, newest, without_newest, oldest, without_oldest, is_open, sought, next_made, with_made, home, has_ranks, IsReady};

use crate::ranked::RankedLists;
use crate::ranks::{MAX_RANKS, Ranks};
use sa_base::{MAX_PROCESSORS, MAX_THREADS, ProcNo, ThreadNo};
use std::alloc::{AllocError, Global};
use std::marker::Model;

/// The ready lists of a space, and the numbers of the threads that were made.
///
/// A thread is in at most one list. In a list the threads of the greatest rank come first, and of one rank the newest.
/// Each list has a lock, which whoever changes the list holds. Every call takes constant time, for any number of ready
/// threads, but for `seek`, which looks at each list where some thread is ready.
#[derive(Drop)]
pub struct ReadyLists {
    lists: RankedLists,
    locked: Vec<bool>,
    // how many threads are in the lists
    ready: u32,
    made: u16,
    threads: u16,
}

impl Model for ReadyLists {
    ghost use Rattle.std.specs.Prelude.{◌≡◌};
    ghost use Rattle.sa_lists.specs.ReadyView.{ReadyView, IsStored};

    ghost Value = { ReadyView };

    ghost view = { λ r. record {
      lists = r.lists.lists.lists;
      locked = r.locked.items;
      made = r.made;
      threads = r.threads;
      ranks = r.lists.ranks;
    } };

    ghost invariant = { λ r. IsStored r.lists.lists r.locked.items r.ready r.made r.threads };
}

impl ReadyLists {
    /// So many empty lists, 1 to 16, all locks free, for threads of one rank or of many, and control blocks for 1 to 512
    /// threads. Fails only where memory runs out.
    pub fn new(
        alloc: Global,
        lists: u16,
        ranks: Ranks,
        threads: u16,
    ) -> Result<ReadyLists, AllocError>
        requires some { 1 ≤ lists }
        requires lists { lists ≤ MAX_PROCESSORS }
        requires one { 1 ≤ threads }
        requires threads { threads ≤ MAX_THREADS }
        ensures { IfOk result (λ r. r ≡ no_threads lists ranks threads) }
    {
        let locked = vec![in alloc; false; usize::from(lists)]?;
        let lists = RankedLists::new(alloc, lists, ranks, threads)?;
        Ok(ReadyLists {
            lists,
            locked,
            ready: 0,
            made: 0,
            threads,
        })
    }

    /// Puts a thread that is in no list into the locked list `p`, as the newest of its rank.
    pub fn push(&mut self, p: ProcNo, t: ThreadNo)
        requires list { p.0 < length self.old.lists }
        requires thread { t.0 < self.old.threads }
        requires locked { IsLocked self.old p.0 }
        requires unlisted { IsUnlisted self.old t.0 }
        ensures { self.new ≡ pushed self.old p.0 t.0 }
    {
        self.lists.are_apart();
        self.lists.push(p.0, t.0);
        self.ready += 1;
    }

    /// Takes the first thread out of the locked list `p`, the newest of the greatest rank: `None` exactly where the list is
    /// empty.
    pub fn pop_own(&mut self, p: ProcNo) -> Option<ThreadNo>
        requires list { p.0 < length self.old.lists }
        requires locked { IsLocked self.old p.0 }
        ensures newest { result ≡ option_map thread (newest self.old p.0) }
        ensures lists { self.new ≡ without_newest self.old p.0 }
    {
        let thread = self.lists.pop_first(p.0)?;
        self.ready -= 1;
        Some(ThreadNo(thread as u16))
    }

    /// Takes the last thread out of the locked list `q`, the oldest of the least rank: `None` exactly where the list is empty.
    pub fn take_from(&mut self, q: ProcNo) -> Option<ThreadNo>
        requires list { q.0 < length self.old.lists }
        requires locked { IsLocked self.old q.0 }
        ensures oldest { result ≡ option_map thread (oldest self.old q.0) }
        ensures lists { self.new ≡ without_oldest self.old q.0 }
    {
        let thread = self.lists.pop_last(q.0)?;
        self.ready -= 1;
        Some(ThreadNo(thread as u16))
    }

    /// Takes the lock of list `l`: false exactly where it was held, and then nothing changes.
    pub fn try_lock(&mut self, l: ProcNo) -> bool
        requires { l.0 < length self.old.lists }
        ensures free { result ≡ not (is_locked self.old l.0) }
        ensures taken { self.new ≡ with_lock self.old l.0 true }
        ensures held { OnFalse result (self.new ≡ self.old) }
    {
        let held = &mut self.locked[usize::from(l.0)];
        if *held {
            return false;
        }
        *held = true;
        true
    }

    /// Frees the lock of list `l`, which is held.
    pub fn unlock(&mut self, l: ProcNo)
        requires list { l.0 < length self.old.lists }
        requires held { IsLocked self.old l.0 }
        ensures { self.new ≡ with_lock self.old l.0 false }
    {
        self.locked[usize::from(l.0)] = false;
    }

    /// The first of the lists `p`, `p` + 1 and so on, and round to `p` - 1, that has a thread and whose lock is
    /// free: `None` exactly where there is none. It looks at each list once, and at none where no thread is ready.
    pub fn seek(&self, p: ProcNo) -> Option<ProcNo>
        requires { p.0 < length self.now.lists }
        ensures { result ≡ option_map processor (sought self.now p.0) }
    {
        if self.ready == 0 {
            return None;
        }
        let count = self.locked.len() as u16;
        match self.first_open(p.0, count) {
            Some(found) => Some(found),
            None => self.first_open(0, p.0),
        }
    }

    // The first open list of those from `from` on that are below `end`.
    fn first_open(&self, from: u16, end: u16) -> Option<ProcNo>
        requires { end ≤ length self.now.lists }
        ensures { result
            ≡ option_map processor (find (is_open self.now) (range_with_len from (end - from))) }
    {
        for list in from..end {
            if self.is_open(list) {
                return Some(ProcNo(list));
            }
        }
        None
    }

    // Whether a list has a thread, and its lock is free.
    fn is_open(&self, list: u16) -> bool
        requires { list < length self.now.lists }
        ensures { result ≡ is_open self.now list }
    {
        !self.locked[usize::from(list)] && !self.lists.is_empty(list)
    }

    /// The first thread of list `l`, the newest of the greatest rank: `None` exactly where the list is empty. It takes
    /// constant time.
    pub fn first(&self, l: ProcNo) -> Option<ThreadNo>
        requires { l.0 < length self.now.lists }
        ensures first { result ≡ option_map thread (newest self.now l.0) }
        ensures thread { IfSome result (λ t. t.0 < self.now.threads) }
    {
        let thread = self.lists.first(l.0)?;
        Some(ThreadNo(thread as u16))
    }

    /// How many threads are in the lists. It takes constant time.
    pub fn ready(&self) -> u32
        ensures { result ≡ ready_count self.now }
    {
        self.ready
    }

    /// Makes the next thread, whose number is the least that was not made, with a rank, 0 to 255; where there is one rank
    /// it has that one. `None` exactly where as many threads were made as there can be.
    pub fn make(&mut self, rank: u16) -> Option<ThreadNo>
        requires { rank < MAX_RANKS }
        ensures thread { result ≡ option_map thread (next_made self.old) }
        ensures made { self.new ≡ with_made self.old rank (next_made self.old) }
    {
        if self.made == self.threads {
            return None;
        }
        let thread = ThreadNo(self.made);
        if self.lists.is_free(thread.0) {
            self.lists.set_rank(thread.0, rank);
        }
        self.made += 1;
        Some(thread)
    }

    /// How many lists there are: 1 to 16.
    pub fn count(&self) -> u16
        ensures { result ≡ length self.now.lists }
    {
        self.locked.len() as u16
    }

    /// The list that counts as that of processor `p`: its own, or the only one.
    pub fn home(&self, p: ProcNo) -> ProcNo
        ensures { result ≡ processor (home self.now p.0) }
    {
        if self.count() == 1 { ProcNo(0) } else { p }
    }

    /// Whether threads have ranks of their own.
    pub fn has_ranks(&self) -> bool
        ensures { result ≡ has_ranks self.now }
    {
        self.lists.has_ranks()
    }

    /// How many threads there can be: 1 to 512.
    pub fn threads(&self) -> u16
        ensures { result ≡ self.now.threads }
    {
        self.threads
    }

    /// How many threads were made.
    pub fn made(&self) -> u16
        ensures { result ≡ self.now.made }
    {
        self.made
    }

    /// Whether the lock of list `l` is held.
    pub fn is_locked(&self, l: ProcNo) -> bool
        requires { l.0 < length self.now.lists }
        ensures { result ≡ is_locked self.now l.0 }
    {
        self.locked[usize::from(l.0)]
    }

    /// Adds the numbers of the threads in list `l`, in order, at the end of `out`. Fails only where memory runs out.
    pub fn copy_list(&self, l: ProcNo, out: &mut Vec<u32>) -> Result<(), AllocError>
        requires { l.0 < length self.now.lists }
        ensures { OnOk result (out.new.items ≡ out.old.items ++ list_of self.now l.0) }
    {
        self.lists.copy_list(l.0, out)
    }

    /// The rank of a thread: 0 where there is one rank.
    pub fn rank(&self, t: ThreadNo) -> u16
        ensures { result ≡ rank_of self.now.ranks t.0 }
    {
        self.lists.rank(t.0)
    }

    /// Whether list `l` has no thread.
    pub fn is_empty(&self, l: ProcNo) -> bool
        requires { l.0 < length self.now.lists }
        ensures { IsTrue result ↔ (list_of self.now l.0 ≡ []) }
    {
        self.lists.is_empty(l.0)
    }

    /// Says what holds of all ready lists: above all, that a thread is in at most one of them, and once.
    pub fn are_apart(&self)
        ensures { IsReady self.now }
    {
        self.lists.are_apart();
        let _ = &self.locked;
    }
}
