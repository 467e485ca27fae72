// The way to a state.
ghost use Rattle.std.specs.Prelude.{◌≡◌, ◌≤◌, ◌<◌, ◌++◌, length, IfOk};
ghost use Rattle.sa_explore_model.specs.Search.{way_to, AreLinked};

use crate::MAX_STATES;
use sa_base::ProcNo;
use sa_explore_model::State;
use std::alloc::{AllocError, Global};

/// These turns, and after them those that lead to the state. Fails only where memory runs out.
pub fn schedule(
    alloc: Global,
    begun: &[ProcNo],
    states: &[State],
    state: usize,
) -> Result<Vec<ProcNo>, AllocError>
    requires within { state < length states.now }
    requires linked { AreLinked states.now }
    ensures { IfOk result (λ turns. turns.items ≡ begun.now ++ way_to states.now state) }
{
    let mut back = Vec::new(alloc);
    let mut at = state;
    while at != 0 {
        back.push(states[at].proc)?;
        at = states[at].before as usize;
    }
    back.reverse();
    let mut turns = Vec::from_slice(alloc, begun)?;
    turns.extend_from_slice(back.as_slice())?;
    Ok(turns)
}

/// How many turns the way to the state takes, at most its number.
pub(crate) fn depth_of(states: &[State], state: usize) -> u32
    requires within { state < length states.now }
    requires few { length states.now ≤ MAX_STATES }
    requires linked { AreLinked states.now }
    ensures { result ≡ length (way_to states.now state) }
{
    let mut depth = 0u32;
    let mut at = state;
    while at != 0 {
        depth += 1;
        at = states[at].before as usize;
    }
    depth
}
