// The states from which no turns lead to an end.
ghost use Rattle.std.specs.Prelude.{◌≡◌, ◌≤◌, length, position, count_by, not, IfOk};
ghost use Rattle.sa_explore_model.specs.Search.{AreLinked, AreUnmarked};
ghost use Rattle.sa_states.specs.Marks.{AreTurns, IsEndlessIn};

use crate::marks::marked;
use crate::{MAX_STATES, schedule};
use sa_base::ProcNo;
use sa_explore_model::{Found, State};
use std::alloc::{AllocError, Global};

/// The first state from which no turns lead to an end, with the schedule to it after these turns, and how many there are; `None` where there
/// is none. Fails only where memory runs out.
pub fn endless(
    alloc: Global,
    begun: &[ProcNo],
    processors: u16,
    states: &[State],
    nexts: &[u32],
) -> Result<Option<Found>, AllocError>
    requires few { length states.now ≤ MAX_STATES }
    requires linked { AreLinked states.now }
    requires turns { AreTurns processors states.now nexts.now }
    ensures { IfOk result (IsEndlessIn processors states.now nexts.now begun.now) }
{
    let marks = marked(alloc, processors, states, nexts)?;
    first_unmarked(alloc, begun, states, marks.as_slice())
}

// The first state that is not marked, with the schedule to it after these turns, and how many there are.
fn first_unmarked(
    alloc: Global,
    begun: &[ProcNo],
    states: &[State],
    marks: &[bool],
) -> Result<Option<Found>, AllocError>
    requires few { length states.now ≤ MAX_STATES }
    requires linked { AreLinked states.now }
    requires size { length marks.now ≡ length states.now }
    ensures { IfOk result (AreUnmarked states.now begun.now marks.now) }
{
    let Some(first) = first_false(marks) else {
        return Ok(None);
    };
    let count = count_false(marks);
    Ok(Some(Found {
        schedule: schedule(alloc, begun, states, first)?,
        states: count as u32,
    }))
}

// The first place that is not marked.
fn first_false(marks: &[bool]) -> Option<usize>
    ensures { result ≡ position not marks.now }
{
    marks.iter().position(|marked| !*marked)
}

// How many places are not marked.
fn count_false(marks: &[bool]) -> usize
    ensures { result ≡ count_by not marks.now }
{
    marks.iter().filter(|marked| !**marked).count()
}
