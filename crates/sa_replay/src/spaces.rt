// The threads of all spaces.
ghost use Rattle.std.specs.Prelude.{◌≡◌, ◌↔◌, ◌≤◌, ◌<◌, true, [], length, map, IfOk, OnOk, OnErr, IsErr, vec_capacity};
ghost use Rattle.std.specs.List.{list_all};
ghost use Rattle.sa_laws.specs.State.{opening_space, thread_in, put_thread, is_due, active_threads};
ghost use Rattle.sa_laws.specs.Ends.{are_done, are_at_rest};
ghost use Rattle.sa_replay.specs.Running.{instr_in, CanRun, IsFull, can_move, is_running};
ghost use Rattle.sa_replay.specs.Space.{HasRoom};
ghost use Rattle.sa_replay.specs.Counts.{is_ready, count_in};
ghost use Rattle.sa_replay.specs.Spaces.{space_in, with_space_in, place_in, HasRun};

use crate::space::SpaceThreads;
use crate::table::moved;
use crate::thread::ThreadState;
use sa_base::{MAX_SPACES, SpaceNo, ThreadNo};
use sa_laws::Place;
use sa_spaces::SpaceDef;
use sa_sync::SyncState;
use std::alloc::{AllocError, Global};
use std::marker::Model;

/// The threads of the spaces of a workload, by the numbers of the spaces; at most 16.
#[derive(Drop)]
pub(crate) struct Spaces {
    spaces: Vec<SpaceThreads>,
    // how many spaces have a thread that is not done, and how many one that is ready, runs or is carried
    live: u16,
    restless: u16,
}

impl Model for Spaces {
    ghost use Rattle.std.specs.Prelude.{List};
    ghost use Rattle.sa_laws.specs.State.{SpaceState};
    ghost use Rattle.sa_replay.specs.Spaces.{IsCounted};

    ghost Value = { List SpaceState };

    ghost view = { λ s. s.spaces.items };

    ghost invariant = { λ s. IsCounted s.spaces.items s.live s.restless };
}

impl Spaces {
    /// The spaces at the opening. Fails only where memory runs out.
    pub(crate) fn new(alloc: Global, defs: &[SpaceDef]) -> Result<Spaces, AllocError>
        requires { length defs.now ≤ MAX_SPACES }
        ensures { IfOk result (λ spaces. spaces ≡ map opening_space defs.now) }
    {
        let mut spaces = Vec::new(alloc);
        for def in defs {
            spaces.push(SpaceThreads::new(alloc, def)?)?;
        }
        let count = defs.len() as u16;
        Ok(Spaces {
            spaces,
            live: count,
            restless: count,
        })
    }

    /// The thread; one that was not made counts as done.
    #[inline(always)]
    pub(crate) fn thread(&self, s: SpaceNo, t: ThreadNo) -> ThreadState
        ensures { result ≡ thread_in (space_in self.now s) t }
    {
        match self.spaces.get(usize::from(s.0)) {
            Some(space) => space.thread(t),
            None => ThreadState::at_start(0, Place::Done),
        }
    }

    /// How many threads of the space were made; at most 512.
    pub(crate) fn made(&self, s: SpaceNo) -> u16
        ensures { result ≡ length (space_in self.now s).threads }
    {
        match self.spaces.get(usize::from(s.0)) {
            Some(space) => space.made(),
            None => 0,
        }
    }

    /// How many spaces there are; at most 16.
    pub(crate) fn count(&self) -> u16
        ensures { result ≡ length self.now }
    {
        self.spaces.len() as u16
    }

    /// What the threads of the space wait on.
    pub(crate) fn sync(&self, s: SpaceNo) -> &SyncState
        requires { s.0 < length self.now }
        ensures { result.now ≡ (space_in self.now s).sync }
    {
        self.spaces[usize::from(s.0)].sync()
    }

    /// Whether the thread is due.
    pub(crate) fn is_due(&self, s: SpaceNo, t: ThreadNo) -> bool
        ensures { result ≡ is_due (space_in self.now s) t }
    {
        match self.spaces.get(usize::from(s.0)) {
            Some(space) => space.is_due(t),
            None => false,
        }
    }

    /// How many threads of the space are ready or run; at most 512.
    pub(crate) fn active(&self, s: SpaceNo) -> u16
        ensures { result ≡ active_threads (space_in self.now s) }
    {
        match self.spaces.get(usize::from(s.0)) {
            Some(space) => space.active(),
            None => 0,
        }
    }

    /// How many threads of the space are ready; at most 512.
    pub(crate) fn ready(&self, s: SpaceNo) -> u16
        ensures { result ≡ count_in is_ready (space_in self.now s).threads }
    {
        match self.spaces.get(usize::from(s.0)) {
            Some(space) => space.ready(),
            None => 0,
        }
    }

    /// Whether each thread is done.
    #[tactic(auto, using(crate::proofs::TotalLemmas::live_none))]
    pub(crate) fn are_done(&self) -> bool
        ensures { result ≡ list_all are_done self.now }
    {
        self.live == 0
    }

    /// Whether no thread is ready, runs or is carried.
    #[tactic(auto, using(crate::proofs::TotalLemmas::restless_none))]
    pub(crate) fn are_at_rest(&self) -> bool
        ensures { result ≡ list_all are_at_rest self.now }
    {
        self.restless == 0
    }

    /// Puts a thread into another place.
    pub(crate) fn put(&mut self, s: SpaceNo, t: ThreadNo, place: Place)
        requires { can_move (space_in self.old s) t ≡ true }
        ensures { self.new ≡ with_space_in self.old s (put_thread place (space_in self.old s) t) }
    {
        let space = &mut self.spaces[usize::from(s.0)];
        let (live, restless) = (!space.are_done(), !space.are_at_rest());
        space.put(t, place);
        self.live = moved(self.live, live, !space.are_done());
        self.restless = moved(self.restless, restless, !space.are_at_rest());
    }

    /// Runs the next instruction of a thread; whether the thread runs on. An error changes nothing.
    #[inline(always)]
    pub(crate) fn run(
        &mut self,
        def: &SpaceDef,
        s: SpaceNo,
        t: ThreadNo,
        roused: &mut Vec<ThreadNo>,
    ) -> Result<bool, AllocError>
        requires can { CanRun def.now (space_in self.old s) t }
        requires room { HasRoom roused.old }
        ensures ok { OnOk result (HasRun self.old def.now s t self.new roused.new.items) }
        ensures runs { IfOk result (λ runs. runs ≡ is_running (place_in self.new s t)) }
        ensures full { IsErr result ↔ IsFull (space_in self.old s).sync
            (instr_in def.now (thread_in (space_in self.old s) t)) }
        ensures err { OnErr result ((self.new ≡ self.old) × (roused.new.items ≡ [])) }
        ensures room { vec_capacity roused.new ≡ vec_capacity roused.old }
    {
        if self.spaces[usize::from(s.0)].run_local(def, t) {
            return Ok(true);
        }
        self.act(def, s, t, roused)?;
        Ok(is_running(self.thread(s, t).place()))
    }

    // Runs the next instruction of a thread, whichever it is. An error changes nothing.
    #[inline(never)]
    fn act(
        &mut self,
        def: &SpaceDef,
        s: SpaceNo,
        t: ThreadNo,
        roused: &mut Vec<ThreadNo>,
    ) -> Result<(), AllocError>
        requires can { CanRun def.now (space_in self.old s) t }
        requires room { HasRoom roused.old }
        ensures ok { OnOk result (HasRun self.old def.now s t self.new roused.new.items) }
        ensures full { IsErr result ↔ IsFull (space_in self.old s).sync
            (instr_in def.now (thread_in (space_in self.old s) t)) }
        ensures err { OnErr result ((self.new ≡ self.old) × (roused.new.items ≡ [])) }
        ensures room { vec_capacity roused.new ≡ vec_capacity roused.old }
    {
        let space = &mut self.spaces[usize::from(s.0)];
        let (live, restless) = (!space.are_done(), !space.are_at_rest());
        space.run(def, t, roused)?;
        self.live = moved(self.live, live, !space.are_done());
        self.restless = moved(self.restless, restless, !space.are_at_rest());
        Ok(())
    }
}

// Whether a thread there runs.
fn is_running(place: Place) -> bool
    ensures { result ≡ is_running place }
{
    matches!(place, Place::Running(_))
}
