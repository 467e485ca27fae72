ghost use Rattle.std.specs.Prelude.{◌≡◌, ◌↔◌, ◌+◌, ◌≤◌, ◌++◌, length, vec_len, vec_capacity, map, Some, IsTrue, IfOk, OnOk, OnErr, Contains};
ghost use Rattle.sa_laws.specs.Life.{new_life, has_lock, first_lock, without_lock, change_first, with_hand, inherits, inherited, bereft};
ghost use Rattle.sa_laws.specs.Record.{one_thread, made_ready};
ghost use Rattle.sa_check_lives.specs.Change.{changed_by, stepped_by, used_by};
ghost use Rattle.sa_check_lives.specs.Table.{IsLost};

use crate::change::{Change, Scan, Stepped};
use crate::lock::ListLock;
use sa_base::{ProcNo, SpaceNo, ThreadNo};
use std::alloc::{AllocError, Global};
use std::marker::Model;
use std::mem;

/// What a change took from a life: the last of its locks, and that it was in.
#[derive(Clone, Copy)]
pub(crate) struct Lost {
    pub(crate) lock: bool,
    pub(crate) inside: bool,
}

impl Lost {
    pub(crate) const NOTHING: Lost = Lost {
        lock: false,
        inside: false,
    };
}

/// A life: what runs from an upcall on, under the number of its activation.
#[derive(Drop)]
pub struct KeptLife {
    space: SpaceNo,
    proc: ProcNo,
    // in order; the first is the one that is used next
    locks: Vec<ListLock>,
    cont: bool,
    hand: Vec<ThreadNo>,
    thread: Option<ThreadNo>,
    idle: bool,
    inside: bool,
    freed: bool,
    scans: u64,
}

impl Model for KeptLife {
    ghost use Rattle.sa_laws.specs.Life.{Life};

    ghost Value = { Life };

    ghost view = { λ x. record {
      space = x.space;
      proc = x.proc;
      locks = x.locks.items;
      cont = x.cont;
      hand = x.hand.items;
      thread = x.thread;
      idle = x.idle;
      inside = x.inside;
      freed = x.freed;
      scans = x.scans;
    } };
}

impl KeptLife {
    /// A life at its up.
    pub fn new(alloc: Global, s: SpaceNo, p: ProcNo) -> Self
        ensures { result ≡ new_life s p }
    {
        KeptLife {
            space: s,
            proc: p,
            locks: Vec::new(alloc),
            cont: false,
            hand: Vec::new(alloc),
            thread: None,
            idle: false,
            inside: false,
            freed: false,
            scans: 0,
        }
    }

    /// The space in which it runs.
    pub fn space(&self) -> SpaceNo
        ensures { result ≡ self.now.space }
    {
        self.space
    }

    /// The processor of its up.
    pub fn proc(&self) -> ProcNo
        ensures { result ≡ self.now.proc }
    {
        self.proc
    }

    /// Its locks, in order; the first is the one that is used next.
    pub fn locks(&self) -> &[ListLock]
        ensures { result.now ≡ self.now.locks }
    {
        self.locks.as_slice()
    }

    /// There is a cont of it without its back.
    pub fn cont(&self) -> bool
        ensures { result ≡ self.now.cont }
    {
        self.cont
    }

    /// The threads that it is to make ready; only those that are carried or due count.
    pub fn hand(&self) -> &[ThreadNo]
        ensures { result.now ≡ self.now.hand }
    {
        self.hand.as_slice()
    }

    /// The thread of its stop or block.
    pub fn thread(&self) -> Option<ThreadNo>
        ensures { result ≡ self.now.thread }
    {
        self.thread
    }

    /// It was idle directly before the event of its stop.
    pub fn idle(&self) -> bool
        ensures { result ≡ self.now.idle }
    {
        self.idle
    }

    /// It is in, by what was so at the end of its last own event.
    pub fn inside(&self) -> bool
        ensures { result ≡ self.now.inside }
    {
        self.inside
    }

    /// Its last own event was a free.
    pub fn freed(&self) -> bool
        ensures { result ≡ self.now.freed }
    {
        self.freed
    }

    /// How many looks at the ready lists found no thread, since it last did something else.
    pub fn scans(&self) -> u64
        ensures { result ≡ self.now.scans }
    {
        self.scans
    }

    /// It has a lock.
    pub fn has_lock(&self) -> bool
        ensures { result ≡ has_lock self.now }
    {
        !self.locks.is_empty()
    }

    /// The first of its locks, if it has one.
    pub fn first_lock(&self) -> Option<ListLock>
        ensures { result ≡ first_lock self.now }
    {
        self.locks.first().copied()
    }

    /// The thread is in its hand.
    pub fn has_in_hand(&self, t: ThreadNo) -> bool
        ensures { IsTrue result ↔ Contains self.now.hand t }
    {
        self.hand.contains(&t)
    }

    /// Changes the life. An error changes nothing.
    #[inline(always)]
    pub fn change(&mut self, change: &Change) -> Result<(), AllocError>
        ensures ok { OnOk result (self.new ≡ changed_by change.now self.old) }
        ensures err { OnErr result (self.new ≡ self.old) }
    {
        match *change {
            Change::Stop(t) => {
                self.join_hand(t)?;
                self.idle = !self.inside && t.is_none();
                self.thread = t;
            }
            Change::Block(t) => self.thread = t,
            Change::Unblock(t) => self.join_hand(t)?,
            Change::Cont => self.cont = true,
            Change::Back(t) => {
                self.join_hand(t)?;
                self.cont = false;
            }
            Change::Ready(t) => self.make_ready(t),
            Change::Run(t) => use_first(&mut self.locks, Some(t)),
            Change::Take(lock) => self.locks.push(lock)?,
            Change::Free => self.free(),
            Change::Step(stepped) => self.step(stepped)?,
            Change::Arise(inside) => self.inside = inside,
        }
        Ok(())
    }

    /// Changes the life, and says what it lost by it. An error changes nothing.
    #[inline(always)]
    pub(crate) fn write(&mut self, change: &Change) -> Result<Lost, AllocError>
        ensures ok { OnOk result (self.new ≡ changed_by change.now self.old) }
        ensures lost { IfOk result (λ lost. IsLost lost (Some self.new)) }
        ensures err { OnErr result (self.new ≡ self.old) }
    {
        let (had_lock, was_inside) = (self.has_lock(), self.inside);
        self.change(change)?;
        Ok(Lost {
            lock: had_lock && !self.has_lock(),
            inside: was_inside && !self.inside,
        })
    }

    // A thread joins the hand, if there is one.
    fn join_hand(&mut self, t: Option<ThreadNo>) -> Result<(), AllocError>
        ensures ok { OnOk result (self.new ≡ with_hand (one_thread t) self.old) }
        ensures err { OnErr result (self.new ≡ self.old) }
    {
        if let Some(thread) = t {
            self.hand.push(thread)?;
        }
        Ok(())
    }

    // The thread leaves the hand, and the first lock has got its ready record.
    fn make_ready(&mut self, t: ThreadNo)
        ensures { self.new ≡ made_ready t self.old }
    {
        self.hand.retain(|u| u.0 != t.0);
        use_first(&mut self.locks, None);
    }

    // Frees the first lock.
    fn free(&mut self)
        ensures { self.new ≡ without_lock self.old }
    {
        if !self.locks.is_empty() {
            self.locks.remove(0);
        }
    }

    /// Threads join the hand. An error changes nothing.
    pub fn rouse(&mut self, threads: &[ThreadNo]) -> Result<(), AllocError>
        ensures ok { OnOk result (self.new ≡ with_hand threads.now self.old) }
        ensures err { OnErr result (self.new ≡ self.old) }
    {
        self.hand.extend_from_slice(threads)
    }

    /// Gets the locks and the hand of another life. An error changes nothing.
    pub fn inherit(&mut self, from: &KeptLife) -> Result<(), AllocError>
        ensures ok { OnOk result (self.new ≡ inherits from.now self.old) }
        ensures err { OnErr result (self.new ≡ self.old) }
    {
        self.locks.reserve(from.locks.len())?;
        self.hand.extend_from_slice(from.hand.as_slice())?;
        add_inherited(&mut self.locks, from.locks.as_slice());
        Ok(())
    }

    // Ends an own event. An error, where a count would not fit, changes nothing.
    #[inline(always)]
    fn step(&mut self, stepped: Stepped) -> Result<(), AllocError>
        ensures ok { OnOk result (self.new ≡ stepped_by stepped self.old) }
        ensures err { OnErr result (self.new ≡ self.old) }
    {
        self.scans = match stepped.scan {
            Scan::More => self.scans.checked_add(1).ok_or(AllocError)?,
            Scan::Same => self.scans,
            Scan::Over => 0,
        };
        self.freed = stepped.freed;
        self.inside = stepped.inside;
        Ok(())
    }

    /// Loses its locks, its open cont and its hand, and gives back what it was.
    pub fn bereave(&mut self, alloc: Global) -> KeptLife
        ensures was { result ≡ self.old }
        ensures now { self.new ≡ bereft self.old }
    {
        let left = KeptLife {
            space: self.space,
            proc: self.proc,
            locks: Vec::new(alloc),
            cont: false,
            hand: Vec::new(alloc),
            thread: self.thread,
            idle: self.idle,
            inside: false,
            freed: self.freed,
            scans: self.scans,
        };
        mem::replace(self, left)
    }
}

// The first lock is used, by the run of a thread where one is given.
fn use_first(locks: &mut Vec<ListLock>, t: Option<ThreadNo>)
    ensures { locks.new.items ≡ change_first (used_by t) locks.old.items }
{
    if locks.is_empty() {
        return;
    }
    let mut lock = locks[0];
    lock.used = true;
    if t.is_some() {
        lock.thread = t;
    }
    locks[0] = lock;
}

// Puts the locks after the others, each as one that was inherited.
fn add_inherited(locks: &mut Vec<ListLock>, from: &[ListLock])
    requires { vec_len locks.old + length from.now ≤ vec_capacity locks.old }
    ensures { locks.new.items ≡ locks.old.items ++ map inherited from.now }
{
    for lock in from {
        let mut copy = *lock;
        copy.inherited = true;
        locks.push_reserved(copy);
    }
}
