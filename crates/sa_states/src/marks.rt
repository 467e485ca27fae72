// The states from which turns lead to an end are marked.
ghost use Rattle.std.specs.Prelude.{◌≡◌, ◌<◌, ◌≤◌, true, false, not, length, count_by, IfOk, IsTrue, ◌↔◌};
ghost use Rattle.sa_explore_model.specs.Search.{AreMarked};
ghost use Rattle.sa_states.specs.Marks.{AreTurns};
ghost use Rattle.sa_states.specs.Sweep.{IsNear, AreSound, AreAll};

use crate::MAX_STATES;
use sa_explore_model::State;
use std::alloc::{AllocError, Global};

/// The marks of the states: those are marked from which turns lead to a state with an end. Fails only where memory runs out.
pub(crate) fn marked(
    alloc: Global,
    processors: u16,
    states: &[State],
    nexts: &[u32],
) -> Result<Vec<bool>, AllocError>
    requires few { length states.now ≤ MAX_STATES }
    requires turns { AreTurns processors states.now nexts.now }
    ensures { IfOk result (λ marks. AreMarked processors states.now nexts.now marks.items) }
{
    let mut marks = vec![in alloc; false; states.len()]?;
    while sweep(processors, states, nexts, marks.as_mut_slice()) {}
    Ok(marks)
}

// Marks each state that has an end, or from which a turn leads to one that is marked, from the last state to the first; answers whether it
// marked any. Most turns lead to a later state, so that few sweeps are enough.
fn sweep(processors: u16, states: &[State], nexts: &[u32], marks: &mut [bool]) -> bool
    requires few { length states.now ≤ MAX_STATES }
    requires turns { AreTurns processors states.now nexts.now }
    requires size { length marks.old ≡ length states.now }
    requires sound { AreSound processors states.now nexts.now marks.old }
    ensures sound { AreSound processors states.now nexts.now marks.new }
    ensures more { result ≡ true → count_by not marks.new < count_by not marks.old }
    ensures all { result ≡ false → AreAll processors states.now nexts.now marks.new }
{
    let mut more = false;
    for state in (0..states.len()).rev() {
        if !marks[state] && can_end(processors, states, nexts, marks, state) {
            marks[state] = true;
            more = true;
        }
    }
    more
}

// Whether the state has an end, or a turn leads from it to a state that is marked.
fn can_end(processors: u16, states: &[State], nexts: &[u32], marks: &[bool], state: usize) -> bool
    requires few { length states.now ≤ MAX_STATES }
    requires turns { AreTurns processors states.now nexts.now }
    requires size { length marks.now ≡ length states.now }
    requires within { state < length states.now }
    ensures { IsTrue result ↔ IsNear processors states.now nexts.now marks.now state }
{
    if states[state].end.is_some() {
        return true;
    }
    let first = state * usize::from(processors);
    for proc in 0..usize::from(processors) {
        if marks[nexts[first + proc] as usize] {
            return true;
        }
    }
    false
}
