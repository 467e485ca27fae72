// A search: what is searched, and what was done.
ghost use Rattle.std.specs.Prelude.{◌≡◌, ◌<◌, ◌≤◌, [], ◌∷◌, ◌++◌, length, IfOk, IfSome};
ghost use Rattle.sa_base.specs.declared.limits.TheConstants.{MAX_EVENTS};
ghost use Rattle.sa_core.specs.View.{machine};
ghost use Rattle.sa_keys.specs.Key.{key_of};
ghost use Rattle.sa_explore_runs.specs.Runs.{LeadTo};
ghost use Rattle.sa_explore_runs.specs.Searching.{IsTried};
ghost use Rattle.sa_explore.specs.Ahead.{IsRun, AreAhead};
ghost use Rattle.sa_explore.specs.Doing.{turns_to, RunsGoOn, HasDone, IsMade};

use crate::ahead::{Tried, Turned, discard, keep_ahead, turn_from};
use crate::runs::end_at;
use sa_base::ProcNo;
use sa_core::Core;
use sa_explore_model::State;
use sa_keys::laws::keys_tell_outlooks;
use sa_keys::{Keyed, key};
use sa_spaces::Workload;
use sa_states::Store;
use std::alloc::{AllocError, Global};
use std::collections::VecDeque;

/// What is searched.
#[derive(Drop)]
pub(crate) struct Scope {
    pub(crate) workload: Workload,
    /// The turns with which each run begins.
    pub(crate) begun: Vec<ProcNo>,
    /// How many states are kept at most, 1 to 10,000,000.
    pub(crate) most: u32,
}

/// What a search has come to.
#[derive(Drop)]
pub(crate) struct Search {
    pub(crate) store: Store,
    /// The number of the state to which each turn led, in the order in which the turns were made; any number for those of a state that has an
    /// end.
    pub(crate) nexts: Vec<u32>,
    /// Turns that were made ahead, each of the last processor from a state from which no turns were made yet, in the order of the states: a run
    /// that has come to a new state makes it at little cost, while each run from the opening costs as much as many turns.
    pub(crate) ahead: VecDeque<Tried>,
}

impl Search {
    /// A search that has come to its first state, where this run is. Fails only where memory runs out.
    pub(crate) fn start<U: Keyed>(
        alloc: Global,
        scope: &Scope,
        core: &Core<U>,
    ) -> Result<Search, AllocError>
        requires some { 1 ≤ scope.now.most }
        requires leads { LeadTo U.calls scope.now.workload scope.now.begun.items (machine core.now) }
        ensures done { IfOk result (λ search. HasDone U.calls U.plain (key_of U.value_key U.context_key)
            scope.now search 0 0) }
        ensures ahead { IfOk result (λ search. AreAhead U.calls U.plain (key_of U.value_key U.context_key)
            scope.now search) }
    {
        keys_tell_outlooks::<U>();
        scope.workload.ranges();
        let mut store = Store::new(alloc);
        let first = State {
            before: 0,
            proc: ProcNo(0),
            end: end_at(core),
        };
        store.arrive(key(alloc, core)?, first, 1)?;
        Ok(Search {
            store,
            nexts: Vec::new(alloc),
            ahead: VecDeque::new(alloc),
        })
    }

    // Keeps where the turn of processor `p` from state `at` led to, by this run, where it was not made ahead; whether there was room for it. Fails only
    // where memory runs out.
    fn keep<U: Keyed>(
        &mut self,
        alloc: Global,
        scope: &Scope,
        turns: &[ProcNo],
        at: u32,
        p: ProcNo,
        tried: Tried,
        run: &mut Option<Core<U>>,
    ) -> Result<bool, AllocError>
        requires done { HasDone U.calls U.plain (key_of U.value_key U.context_key) scope.now self.old at p.0 }
        requires ahead { AreAhead U.calls U.plain (key_of U.value_key U.context_key) scope.now self.old }
        requires within { p.0 < scope.now.workload.processors }
        requires goes { RunsGoOn self.old at }
        requires turns { turns.now ≡ turns_to scope.now self.old at }
        requires tried { IsTried U.calls U.plain (key_of U.value_key U.context_key)
            scope.now.workload turns.now p at tried.key.items tried.state }
        requires run { IfSome run.old (IsRun U.calls scope.now.workload (turns.now ++ p ∷ [])) }
        ensures made { IfOk result (λ made. IsMade U.calls U.plain (key_of U.value_key U.context_key)
            scope.now made self.old self.new at p.0) }
        ensures ahead { IfOk result (λ _. AreAhead U.calls U.plain (key_of U.value_key U.context_key)
            scope.now self.new) }
    {
        keys_tell_outlooks::<U>();
        scope.workload.ranges();
        let states = self.store.states().len();
        let Some(to) = self.store.arrive(tried.key, tried.state, scope.most)? else {
            return Ok(false);
        };
        self.nexts.push(to)?;
        let is_new = to as usize == states;
        keep_ahead::<U>(alloc, &scope.workload, &mut self.ahead, run, is_new, to)?;
        Ok(true)
    }

    /// Makes the turn of the next processor from state `at`, to which these turns lead, and keeps where it led to; whether there was room for it.
    /// Fails only where memory runs out.
    pub(crate) fn turn<U: Keyed>(
        &mut self,
        alloc: Global,
        scope: &Scope,
        turns: &[ProcNo],
        at: u32,
        p: ProcNo,
    ) -> Result<bool, AllocError>
        requires done { HasDone U.calls U.plain (key_of U.value_key U.context_key) scope.now self.old at p.0 }
        requires ahead { AreAhead U.calls U.plain (key_of U.value_key U.context_key) scope.now self.old }
        requires within { p.0 < scope.now.workload.processors }
        requires goes { RunsGoOn self.old at }
        requires turns { turns.now ≡ turns_to scope.now self.old at }
        requires few { length turns.now < MAX_EVENTS }
        ensures made { IfOk result (λ made. IsMade U.calls U.plain (key_of U.value_key U.context_key)
            scope.now made self.old self.new at p.0) }
        ensures ahead { IfOk result (λ _. AreAhead U.calls U.plain (key_of U.value_key U.context_key)
            scope.now self.new) }
    {
        scope.workload.ranges();
        let ahead = &mut self.ahead;
        let Turned { tried, mut run } = turn_from::<U>(
            alloc,
            &scope.workload,
            ahead,
            turns,
            at,
            p,
        )?;
        let made = self.keep::<U>(alloc, scope, turns, at, p, tried, &mut run);
        discard(run);
        made
    }
}
