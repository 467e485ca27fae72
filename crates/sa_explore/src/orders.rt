// The search.
ghost use Rattle.std.specs.Prelude.{◌≡◌, ◌≤◌, length, take, IfOk};
ghost use Rattle.sa_core.specs.View.{machine};
ghost use Rattle.sa_keys.specs.Key.{key_of};
ghost use Rattle.sa_explore_runs.specs.Runs.{IsBegun, LeadTo};
ghost use Rattle.sa_explore.specs.Ahead.{AreAhead};
ghost use Rattle.sa_explore.specs.Doing.{HasDone};
ghost use Rattle.sa_explore.specs.Explored.{IsExplored};

use crate::begin::{Begun, begin};
use crate::progress::Progress;
use crate::search::{Scope, Search};
use sa_explore_model::Explored;
use sa_keys::Keyed;
use sa_spaces::Workload;
use sa_states::MAX_STATES;
use std::alloc::{AllocError, Global};

// What is searched of a workload, and a search that has come to its first state, where this run has begun. Fails only where memory runs out.
fn start_at<U: Keyed>(
    alloc: Global,
    workload: &Workload,
    most: u32,
    first: &Begun<U>,
) -> Result<(Scope, Search), AllocError>
    requires some { 1 ≤ most }
    requires within { first.now.turns ≤ length workload.now.turns }
    requires begins { IsBegun U.calls workload.now (take first.now.turns workload.now.turns) }
    requires leads { LeadTo U.calls workload.now (take first.now.turns workload.now.turns) (machine first.now.core) }
    ensures workload { IfOk result (λ started. started.0.workload ≡ workload.now) }
    ensures begins { IfOk result (λ started. IsBegun U.calls workload.now started.0.begun.items) }
    ensures most { IfOk result (λ started. started.0.most ≡ most) }
    ensures done { IfOk result (λ started. HasDone U.calls U.plain (key_of U.value_key U.context_key)
        started.0 started.1 0 0) }
    ensures ahead { IfOk result (λ started. AreAhead U.calls U.plain (key_of U.value_key U.context_key)
        started.0 started.1) }
{
    let begun = &workload.turns()[..first.turns];
    let scope = Scope {
        workload: workload.copy(alloc)?,
        begun: Vec::from_slice(alloc, begun)?,
        most,
    };
    let search = Search::start::<U>(alloc, &scope, &first.core)?;
    Ok((scope, search))
}

// The same of a run that begins and is over here. Fails only where memory runs out.
fn start_search<U: Keyed>(
    alloc: Global,
    workload: &Workload,
    most: u32,
) -> Result<(Scope, Search), AllocError>
    requires some { 1 ≤ most }
    ensures workload { IfOk result (λ started. started.0.workload ≡ workload.now) }
    ensures begins { IfOk result (λ started. IsBegun U.calls workload.now started.0.begun.items) }
    ensures most { IfOk result (λ started. started.0.most ≡ most) }
    ensures done { IfOk result (λ started. HasDone U.calls U.plain (key_of U.value_key U.context_key)
        started.0 started.1 0 0) }
    ensures ahead { IfOk result (λ started. AreAhead U.calls U.plain (key_of U.value_key U.context_key)
        started.0 started.1) }
{
    let first = begin::<U>(alloc, workload)?;
    let started = start_at::<U>(alloc, workload, most, &first);
    let Begun { core, turns: _ } = first;
    core.discard();
    started
}

/// Goes through every order of turns of a workload, after its turn lines, and keeps at most that many states, 1 to 10,000,000. Fails only
/// where memory runs out.
pub fn explore<U: Keyed, P: Progress>(
    alloc: Global,
    workload: &Workload,
    most: u32,
    progress: &mut P,
) -> Result<Explored, AllocError>
    requires some { 1 ≤ most }
    requires few { most ≤ MAX_STATES }
    ensures { IfOk result (IsExplored U.calls U.plain workload.now most) }
{
    let (scope, mut search) = start_search::<U>(alloc, workload, most)?;
    let stopped = search.go_through::<U, P>(alloc, &scope, progress)?;
    search.answer::<U>(alloc, &scope, &stopped)
}
