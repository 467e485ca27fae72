// All turns from a state, and from state to state.
ghost use Rattle.std.specs.Prelude.{◌≡◌, ◌<◌, ◌≤◌, true, length, slice_get, Some, IsSome, IfOk};
ghost use Rattle.sa_base.specs.declared.limits.TheConstants.{MAX_EVENTS};
ghost use Rattle.sa_keys.specs.Key.{key_of};
ghost use Rattle.sa_explore_model.specs.declared.answer.State.{State};
ghost use Rattle.sa_explore_model.specs.Search.{AreLinked};
ghost use Rattle.sa_explore.specs.Ahead.{AreAhead};
ghost use Rattle.sa_explore.specs.Doing.{states_of, turns_to, RunsGoOn, HasDone, AreMade, HasStopped};

use crate::progress::Progress;
use crate::search::{Scope, Search};
use sa_base::{MAX_EVENTS, ProcNo};
use sa_explore_model::Extent;
use sa_keys::Keyed;
use sa_states::{MAX_STATES, schedule};
use std::alloc::{AllocError, Global};

// After how many states it is told how far a search has come.
const STATES_AT_ONCE: u32 = 1_000;

/// Where a search stopped: behind the last state, or at one where it could not go on.
#[derive(Clone, Copy)]
pub(crate) struct StoppedSearch {
    pub(crate) extent: Extent,
    pub(crate) at: u32,
}

impl Search {
    // Passes over a state that has an end. Fails only where memory runs out.
    fn pass_over<U: Keyed>(&mut self, scope: &Scope, at: u32) -> Result<(), AllocError>
        requires done { HasDone U.calls U.plain (key_of U.value_key U.context_key) scope.now self.old at 0 }
        requires ahead { AreAhead U.calls U.plain (key_of U.value_key U.context_key) scope.now self.old }
        requires ends { (s : State) × (slice_get (states_of self.old) at ≡ Some s) × IsSome s.end }
        ensures made { IfOk result (λ _. AreMade U.calls U.plain (key_of U.value_key U.context_key)
            scope.now true self.new at) }
        ensures ahead { IfOk result (λ _. AreAhead U.calls U.plain (key_of U.value_key U.context_key)
            scope.now self.new) }
    {
        scope.workload.ranges();
        for _p in 0..scope.workload.processors() {
            self.nexts.push(0)?;
        }
        Ok(())
    }

    // Makes the turn of each processor from state `at`, to which these turns lead; whether all could be kept. Fails only where memory runs out.
    fn turn_each<U: Keyed>(
        &mut self,
        alloc: Global,
        scope: &Scope,
        turns: &[ProcNo],
        at: u32,
    ) -> Result<bool, AllocError>
        requires done { HasDone U.calls U.plain (key_of U.value_key U.context_key) scope.now self.old at 0 }
        requires ahead { AreAhead U.calls U.plain (key_of U.value_key U.context_key) scope.now self.old }
        requires goes { RunsGoOn self.old at }
        requires turns { turns.now ≡ turns_to scope.now self.old at }
        requires few { length turns.now < MAX_EVENTS }
        ensures made { IfOk result (λ all. AreMade U.calls U.plain (key_of U.value_key U.context_key)
            scope.now all self.new at) }
        ensures ahead { IfOk result (λ _. AreAhead U.calls U.plain (key_of U.value_key U.context_key)
            scope.now self.new) }
    {
        scope.workload.ranges();
        for p in 0..scope.workload.processors() {
            if !self.turn::<U>(alloc, scope, turns, at, ProcNo(p))? {
                return Ok(false);
            }
        }
        Ok(true)
    }

    // Makes all turns from state `at`, none where it has an end; whether they could be made and kept. Fails only where memory runs out.
    fn expand<U: Keyed>(
        &mut self,
        alloc: Global,
        scope: &Scope,
        at: u32,
    ) -> Result<bool, AllocError>
        requires done { HasDone U.calls U.plain (key_of U.value_key U.context_key) scope.now self.old at 0 }
        requires ahead { AreAhead U.calls U.plain (key_of U.value_key U.context_key) scope.now self.old }
        requires within { at < length (states_of self.old) }
        ensures made { IfOk result (λ all. AreMade U.calls U.plain (key_of U.value_key U.context_key)
            scope.now all self.new at) }
        ensures ahead { IfOk result (λ _. AreAhead U.calls U.plain (key_of U.value_key U.context_key)
            scope.now self.new) }
    {
        scope.workload.ranges();
        let states = self.store.states();
        if states[at as usize].end.is_some() {
            self.pass_over::<U>(scope, at)?;
            return Ok(true);
        }
        let turns = schedule(alloc, scope.begun.as_slice(), states, at as usize)?;
        if turns.len() as u64 == MAX_EVENTS {
            return Ok(false);
        }
        self.turn_each::<U>(alloc, scope, turns.as_slice(), at)
    }

    // Tells now and then how far the search has come, which goes on at this state. Fails only where memory runs out.
    fn tell<P: Progress>(&self, alloc: Global, at: u32, progress: &mut P) -> Result<(), AllocError>
        requires within { at < length (states_of self.now) }
        requires linked { AreLinked (states_of self.now) }
        requires few { length (states_of self.now) ≤ MAX_STATES }
    {
        if at % STATES_AT_ONCE == 0 {
            let states = self.store.states();
            let way = schedule(alloc, &[], states, at as usize)?;
            progress.tell(states.len() as u32, way.len() as u32);
        }
        Ok(())
    }

    /// Goes from state to state, in the order in which they were come to, as far as it can; where it stopped. Fails only where memory runs out.
    pub(crate) fn go_through<U: Keyed, P: Progress>(
        &mut self,
        alloc: Global,
        scope: &Scope,
        progress: &mut P,
    ) -> Result<StoppedSearch, AllocError>
        requires done { HasDone U.calls U.plain (key_of U.value_key U.context_key) scope.now self.old 0 0 }
        requires ahead { AreAhead U.calls U.plain (key_of U.value_key U.context_key) scope.now self.old }
        requires few { scope.now.most ≤ MAX_STATES }
        ensures { IfOk result (λ stopped. HasStopped U.calls U.plain (key_of U.value_key U.context_key)
            scope.now stopped.extent self.new stopped.at) }
    {
        let mut at = 0;
        while (at as usize) < self.store.states().len() {
            self.tell(alloc, at, progress)?;
            if !self.expand::<U>(alloc, scope, at)? {
                return Ok(StoppedSearch {
                    extent: Extent::Part,
                    at,
                });
            }
            at += 1;
        }
        Ok(StoppedSearch {
            extent: Extent::All,
            at,
        })
    }
}
