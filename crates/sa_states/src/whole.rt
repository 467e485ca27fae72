// The answer of a search that stopped.
ghost use Rattle.std.specs.Prelude.{◌≤◌, length, IfOk};
ghost use Rattle.sa_explore_model.specs.Search.{AreLinked};
ghost use Rattle.sa_states.specs.Answers.{IsAt, Answers};

use crate::MAX_STATES;
use crate::first::found;
use crate::links::depth_of;
use sa_base::{End, ProcNo};
use sa_explore_model::{Explored, Extent, State};
use std::alloc::{AllocError, Global};

/// What is answered of these states, where each run begins with these turns, and the search stopped at state `at`, or behind the last one. Fails
/// only where memory runs out.
pub fn answer(
    alloc: Global,
    begun: &[ProcNo],
    states: &[State],
    extent: Extent,
    at: usize,
) -> Result<Explored, AllocError>
    requires few { length states.now ≤ MAX_STATES }
    requires linked { AreLinked states.now }
    requires at { IsAt extent states.now at }
    ensures { IfOk result (Answers begun.now states.now extent at) }
{
    let last = match extent {
        Extent::All => at - 1,
        Extent::Part => at,
    };
    let depth = depth_of(states, last);
    let all_done = found(alloc, begun, states, End::AllDone)?;
    let stuck = found(alloc, begun, states, End::Stuck)?;
    Ok(Explored {
        extent,
        states: states.len() as u32,
        depth,
        all_done,
        stuck,
        endless: None,
    })
}
