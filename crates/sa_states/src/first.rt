// The states with an end.
ghost use Rattle.std.specs.Prelude.{◌≡◌, ◌≤◌, length, position, count_by, IfOk};
ghost use Rattle.sa_explore_model.specs.Answer.{is_end};
ghost use Rattle.sa_explore_model.specs.Search.{AreLinked, IsFoundIn};

use crate::MAX_STATES;
use crate::links::schedule;
use sa_base::{End, ProcNo};
use sa_explore_model::{Found, State};
use std::alloc::{AllocError, Global};

/// The first state with this end, with the schedule to it after these turns, and how many have it; `None` where none has. Fails only where
/// memory runs out.
pub fn found(
    alloc: Global,
    begun: &[ProcNo],
    states: &[State],
    end: End,
) -> Result<Option<Found>, AllocError>
    requires few { length states.now ≤ MAX_STATES }
    requires linked { AreLinked states.now }
    ensures { IfOk result (IsFoundIn states.now begun.now end) }
{
    let Some(first) = first_with(states, end) else {
        return Ok(None);
    };
    let count = count_with(states, end);
    Ok(Some(Found {
        schedule: schedule(alloc, begun, states, first)?,
        states: count as u32,
    }))
}

// The number of the first state with this end.
fn first_with(states: &[State], end: End) -> Option<usize>
    ensures { result ≡ position (λ s. is_end end s.end) states.now }
{
    states.iter().position(|state| has_end(state, end))
}

// How many states have this end.
fn count_with(states: &[State], end: End) -> usize
    ensures { result ≡ count_by (λ s. is_end end s.end) states.now }
{
    states.iter().filter(|state| has_end(state, end)).count()
}

// Whether runs end so at the state.
fn has_end(state: &State, end: End) -> bool
    ensures { result ≡ is_end end state.now.end }
{
    match state.end {
        Some(other) => other == end,
        None => false,
    }
}
