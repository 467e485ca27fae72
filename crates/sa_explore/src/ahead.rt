// The turns that are tried: each by a run from the opening, and where that run comes to a new state, one turn ahead.
ghost use Rattle.std.specs.Prelude.{◌≡◌, ◌<◌, ◌+◌, List, Some, None, [], ◌∷◌, ◌++◌, length, slice_get, IfOk, IfSome, OnOk};
ghost use Rattle.sa_base.specs.declared.number.ProcNo.{ProcNo};
ghost use Rattle.sa_base.specs.declared.limits.TheConstants.{MAX_EVENTS};
ghost use Rattle.sa_core_model.specs.Run.{CanTurn};
ghost use Rattle.sa_core.specs.View.{machine};
ghost use Rattle.sa_keys.specs.Key.{key_of};
ghost use Rattle.sa_explore_runs.specs.Runs.{end, CanLead, IsOpen};
ghost use Rattle.sa_explore_runs.specs.Searching.{IsTried};
ghost use Rattle.sa_explore.specs.Ahead.{IsRun, IsMadeBy, IsMadeFrom, AreFrom, IsLater, IsMore};

use crate::runs::{end_at, replay};
use sa_abstract::UserLevel;
use sa_base::ProcNo;
use sa_core::Core;
use sa_explore_model::State;
use sa_keys::{Keyed, key};
use sa_spaces::Workload;
use std::alloc::{AllocError, Global};
use std::collections::VecDeque;

/// Where a turn led to.
#[derive(Drop)]
pub(crate) struct Tried {
    pub(crate) key: Vec<u8>,
    pub(crate) state: State,
}

/// Where a turn led to, and the run that made it, where it was not made ahead.
pub(crate) struct Turned<U: UserLevel> {
    pub(crate) tried: Tried,
    pub(crate) run: Option<Core<U>>,
}

// Makes one turn of the processor, by this run, which is at state `at`. Fails only where memory runs out.
fn make_turn<U: Keyed>(
    alloc: Global,
    core: &mut Core<U>,
    at: u32,
    p: ProcNo,
) -> Result<Tried, AllocError>
    requires goes { end U.calls (machine core.old) ≡ None }
    requires can { CanTurn U.calls (machine core.old) p }
    requires budget { core.old.budget ≡ MAX_EVENTS }
    ensures made { IfOk result (λ tried. IsMadeBy U.calls U.plain (key_of U.value_key U.context_key)
        (machine core.old) (machine core.new) p at tried) }
    ensures budget { core.new.budget ≡ MAX_EVENTS }
{
    core.turn(p)?;
    Ok(Tried {
        key: key(alloc, core)?,
        state: State {
            before: at,
            proc: p,
            end: end_at(core),
        },
    })
}

// Makes one turn of the processor after these turns, which lead to state `at`. Fails only where memory runs out.
fn try_turn<U: Keyed>(
    alloc: Global,
    workload: &Workload,
    turns: &[ProcNo],
    at: u32,
    p: ProcNo,
) -> Result<Turned<U>, AllocError>
    requires leads { CanLead U.calls workload.now turns.now }
    requires goes { IsOpen U.calls workload.now turns.now }
    requires within { p.0 < workload.now.processors }
    requires few { length turns.now < MAX_EVENTS }
    ensures tried { IfOk result (λ turned. IsTried U.calls U.plain (key_of U.value_key U.context_key)
        workload.now turns.now p at turned.tried.key.items turned.tried.state) }
    ensures run { IfOk result (λ turned. IfSome turned.run (IsRun U.calls workload.now (turns.now ++ p ∷ []))) }
{
    workload.ranges();
    let mut core = replay::<U>(alloc, workload, turns)?;
    match make_turn::<U>(alloc, &mut core, at, p) {
        Ok(tried) => Ok(Turned {
            tried,
            run: Some(core),
        }),
        Err(error) => {
            core.discard();
            Err(error)
        }
    }
}

// Takes the turn of the processor from state `at`, where it is the next that was made ahead.
fn take_ahead(ahead: &mut VecDeque<Tried>, at: u32, p: ProcNo) -> Option<Tried>
    ensures is { IfSome result (λ tried. (slice_get ahead.old.items 0 ≡ Some tried)
        × ((tried.state.before ≡ at) × (tried.state.proc.0 ≡ p.0))) }
    ensures rest { IsLater ahead.old.items ahead.new.items }
{
    let next = ahead.front()?;
    if next.state.before != at || next.state.proc.0 != p.0 {
        return None;
    }
    ahead.pop_front()
}

/// The turn of the processor after these turns, which lead to state `at`: it is taken from those that were made ahead, or made. Fails only where
/// memory runs out.
pub(crate) fn turn_from<U: Keyed>(
    alloc: Global,
    workload: &Workload,
    ahead: &mut VecDeque<Tried>,
    turns: &[ProcNo],
    at: u32,
    p: ProcNo,
) -> Result<Turned<U>, AllocError>
    requires leads { CanLead U.calls workload.now turns.now }
    requires goes { IsOpen U.calls workload.now turns.now }
    requires within { p.0 < workload.now.processors }
    requires few { length turns.now < MAX_EVENTS }
    requires ahead { AreFrom U.calls U.plain (key_of U.value_key U.context_key) workload.now
        turns.now at ahead.old.items }
    ensures tried { IfOk result (λ turned. IsTried U.calls U.plain (key_of U.value_key U.context_key)
        workload.now turns.now p at turned.tried.key.items turned.tried.state) }
    ensures run { IfOk result (λ turned. IfSome turned.run (IsRun U.calls workload.now (turns.now ++ p ∷ []))) }
    ensures rest { IsLater ahead.old.items ahead.new.items }
{
    match take_ahead(ahead, at, p) {
        Some(tried) => Ok(Turned { tried, run: None }),
        None => try_turn::<U>(alloc, workload, turns, at, p),
    }
}

// Makes the turn of the last processor, by this run, which is at state `at`; none where the run has an end. Fails only where memory runs out.
fn look_ahead<U: Keyed>(
    alloc: Global,
    workload: &Workload,
    core: &mut Core<U>,
    at: u32,
) -> Result<Option<Tried>, AllocError>
    requires run { (turns : List ProcNo) × IsRun U.calls workload.now turns core.old }
    ensures { IfOk result (λ ahead. IfSome ahead (IsMadeFrom U.calls U.plain
        (key_of U.value_key U.context_key) (machine core.old) at)) }
{
    workload.ranges();
    if core.end().is_some() {
        return Ok(None);
    }
    let last = ProcNo(workload.processors() - 1);
    let tried = make_turn::<U>(alloc, core, at, last)?;
    Ok(Some(tried))
}

/// Where this run has come to a state that is new, `to`, makes the turn of the last processor from it too, and keeps where it led to. Fails only
/// where memory runs out.
pub(crate) fn keep_ahead<U: Keyed>(
    alloc: Global,
    workload: &Workload,
    ahead: &mut VecDeque<Tried>,
    run: &mut Option<Core<U>>,
    is_new: bool,
    to: u32,
) -> Result<(), AllocError>
    requires run { IfSome run.old (λ core. (turns : List ProcNo) × IsRun U.calls workload.now turns core) }
    ensures { OnOk result (IsMore U.calls U.plain (key_of U.value_key U.context_key)
        run.old is_new to ahead.old.items ahead.new.items) }
{
    let Some(core) = run else {
        return Ok(());
    };
    if !is_new {
        return Ok(());
    }
    if let Some(tried) = look_ahead::<U>(alloc, workload, core, to)? {
        ahead.push_back(tried)?;
    }
    Ok(())
}

/// Lets go of a run that was made, if one was.
pub(crate) fn discard<U: UserLevel>(run: Option<Core<U>>) {
    if let Some(core) = run {
        core.discard();
    }
}
