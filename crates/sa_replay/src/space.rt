// The threads of one space, and what they wait on.
ghost use Rattle.std.specs.Prelude.{◌≡◌, ◌<◌, ◌↔◌, true, false, [], length, IfOk, OnOk, OnErr, IsErr, IsTrue, vec_capacity};
ghost use Rattle.sa_laws.specs.State.{thread_in, put_thread, is_due, active_threads};
ghost use Rattle.sa_laws.specs.Effect.{effect, effect_of};
ghost use Rattle.sa_laws.specs.Ends.{are_done, are_at_rest};
ghost use Rattle.sa_replay.specs.Running.{instr_in, CanRun, IsFull, HasCount, can_move};
ghost use Rattle.sa_replay.specs.Space.{HasRoom};
ghost use Rattle.sa_replay.specs.Counts.{is_ready, count_in};
ghost use Rattle.sa_replay.specs.Shape.{IsShaped};
ghost use Rattle.sa_replay.specs.Local.{is_local, HasRunLocal};

use crate::effect::{does, instr_at};
use crate::table::Threads;
use crate::thread::ThreadState;
use sa_base::ThreadNo;
use sa_instr::Instr;
use sa_laws::Place;
use sa_spaces::SpaceDef;
use sa_sync::SyncState;
use std::alloc::{AllocError, Global};
use std::marker::Model;

/// The threads that a space has made, with what they wait on and the cells that they share.
///
/// Each call but `new` takes constant time, but for the instruction `end`, whose time is that of waking those that join
/// its thread, and none but `new` needs memory.
#[derive(Drop)]
pub struct SpaceThreads {
    threads: Threads,
    sync: SyncState,
}

impl Model for SpaceThreads {
    ghost use Rattle.sa_laws.specs.State.{SpaceState};

    ghost Value = { SpaceState };

    ghost use Rattle.sa_replay.specs.Space.{space};
    ghost use Rattle.sa_replay.specs.Sound.{IsSound};

    ghost view = { λ s. space s.threads s.sync };

    ghost invariant = { λ s. IsSound (space s.threads s.sync) };
}

impl SpaceThreads {
    ghost use Rattle.sa_laws.specs.State.{opening_space};

    /// The space at the opening: thread 0 is ready in program 0. Fails only where memory runs out.
    pub fn new(alloc: Global, def: &SpaceDef) -> Result<SpaceThreads, AllocError>
        ensures { IfOk result (λ space. space ≡ opening_space def.now) }
    {
        let sync = SyncState::new(alloc, def)?;
        let mut threads = Threads::new(alloc)?;
        threads.push(ThreadState::at_start(0, Place::Ready));
        Ok(SpaceThreads { threads, sync })
    }

    /// The thread of this number; one that was not made counts as done.
    #[inline(always)]
    pub fn thread(&self, t: ThreadNo) -> ThreadState
        ensures { result ≡ thread_in self.now t }
    {
        self.threads.get(t)
    }

    /// How many threads were made; at most 512.
    pub fn made(&self) -> u16
        ensures { result ≡ length self.now.threads }
    {
        self.threads.len()
    }

    /// What they wait on, and the cells that they share.
    pub fn sync(&self) -> &SyncState
        ensures { result.now ≡ self.now.sync }
    {
        &self.sync
    }

    /// Whether the thread was forked or woken, and is still to be made ready.
    pub fn is_due(&self, t: ThreadNo) -> bool
        ensures { result ≡ is_due self.now t }
    {
        matches!(self.threads.get(t).place(), Place::Waiting) && self.sync.waits_nowhere(t)
    }

    /// How many threads are ready or run; at most 512.
    pub fn active(&self) -> u16
        ensures { result ≡ active_threads self.now }
    {
        self.threads.active()
    }

    /// How many threads are ready; at most 512.
    pub fn ready(&self) -> u16
        ensures { result ≡ count_in is_ready self.now.threads }
    {
        self.threads.ready()
    }

    /// Whether each thread is done.
    pub fn are_done(&self) -> bool
        ensures { result ≡ are_done self.now }
    {
        self.threads.are_done()
    }

    /// Whether no thread is ready, runs or is carried.
    pub fn are_at_rest(&self) -> bool
        ensures { result ≡ are_at_rest self.now }
    {
        self.threads.are_at_rest()
    }

    /// Puts a thread, which runs, is ready, blocked or carried, or is due, into another place.
    pub fn put(&mut self, t: ThreadNo, place: Place)
        requires { can_move self.old t ≡ true }
        ensures { self.new ≡ put_thread place self.old t }
    {
        let thread = self.threads.get(t);
        self.threads.set(t, &thread.moved(place));
    }

    /// Runs the next instruction of a thread that runs, of the space that `def` declares, where it stays within the thread;
    /// whether it does.
    #[inline(always)]
    pub(crate) fn run_local(&mut self, def: &SpaceDef, t: ThreadNo) -> bool
        requires { CanRun def.now self.old t }
        ensures local { result ≡ is_local (instr_in def.now (thread_in self.old t)) }
        ensures ran { IsTrue result → HasRunLocal def.now self.old t self.new }
        ensures other { result ≡ false → self.new ≡ self.old }
    {
        self.threads.run_local(t, def)
    }

    /// Runs the next instruction of a thread that runs, of the space that `def` declares, and puts the threads that it
    /// forks or wakes into the list, which is empty and has room for 512. An error says that the instruction is to
    /// signal a semaphore whose count is 2^32 - 1, and changes nothing.
    pub fn run(
        &mut self,
        def: &SpaceDef,
        t: ThreadNo,
        roused: &mut Vec<ThreadNo>,
    ) -> Result<(), AllocError>
        requires can { CanRun def.now self.old t }
        requires room { HasRoom roused.old }
        ensures ok { IfOk result (λ _. effect self.new roused.new.items
            ≡ effect_of self.old t (thread_in self.old t) (instr_in def.now (thread_in self.old t))) }
        ensures full { IsErr result ↔ IsFull self.old.sync (instr_in def.now (thread_in self.old t)) }
        ensures err { OnErr result ((self.new ≡ self.old) × (roused.new.items ≡ [])) }
        ensures room { vec_capacity roused.new ≡ vec_capacity roused.old }
        ensures shape { OnOk result (IsShaped self.old t (thread_in self.old t).place self.new) }
    {
        let thread = self.threads.get(t);
        let instr = instr_at(def, &thread);
        if is_full(&self.sync, instr) {
            return Err(AllocError);
        }
        does(
            def,
            &mut self.threads,
            &mut self.sync,
            roused,
            t,
            &thread,
            instr,
        );
        Ok(())
    }
}

// Whether the instruction is to signal a semaphore whose count is as high as it can be.
fn is_full(sync: &SyncState, instr: Instr) -> bool
    requires { (k : _) → instr ≡ Instr.Signal k → k < length sync.now.semaphores }
    ensures full { IsTrue result ↔ IsFull sync.now instr }
    ensures count { result ≡ false → HasCount sync.now instr }
{
    match instr {
        Instr::Signal(semaphore) => sync.count(semaphore) == u32::MAX,
        _ => false,
    }
}
