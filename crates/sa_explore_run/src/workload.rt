// A workload with a schedule as its turn lines.
ghost use Rattle.std.specs.Prelude.{◌≡◌, ◌≤◌, ◌<◌, ◌⊎◌, [], length, All, IfOk, IfSome};
ghost use Rattle.std.specs.Option.{option_copied};
ghost use Rattle.sa_instr.specs.declared.limits.TheConstants.{MAX_TURNS};
ghost use Rattle.sa_explore_run.specs.GivenText.{with_turns, turned_text, workload_text, IsReadable, IsReady};

use sa_base::ProcNo;
use sa_explore_model::Found;
use sa_input::WORKLOAD_LIMIT;
use sa_instr::MAX_TURNS;
use sa_spaces::{SpaceDef, Workload};
use sa_workload::print;
use std::alloc::{AllocError, Global};

/// The text of the workload with the schedule that was found as its turn lines, which can be read again: nothing if none was found, if it has
/// more than 65,536 turns, or if the text would pass 1,048,576 bytes. Fails only if memory runs out.
pub fn workload_text(
    alloc: Global,
    workload: &Workload,
    found: Option<&Found>,
) -> Result<Vec<u8>, AllocError>
    requires { IfSome (option_copied found)
        (λ found. All (λ p. p.0 < workload.now.processors) found.schedule.items) }
    ensures text { IfOk result (λ text. text.items ≡ workload_text workload.now (option_copied found.entry)) }
    ensures ready { IfOk result (λ text. IsReady workload.now (option_copied found.entry) text.items) }
{
    match found {
        None => Ok(Vec::new(alloc)),
        Some(found) => turned_text(alloc, workload, &found.schedule),
    }
}

// The text of the workload with these turns, which are of its processors; nothing if they are more than a workload may have, or the text is
// longer.
fn turned_text(alloc: Global, workload: &Workload, turns: &[ProcNo]) -> Result<Vec<u8>, AllocError>
    requires { All (λ p. p.0 < workload.now.processors) turns.now }
    ensures text { IfOk result (λ text. text.items ≡ turned_text workload.now turns.now) }
    ensures ready { IfOk result (λ text. (text.items ≡ []) ⊎ IsReadable text.items (with_turns workload.now turns.now)) }
{
    if turns.len() > MAX_TURNS {
        return Ok(Vec::new(alloc));
    }
    let turned = with_turns(alloc, workload, turns)?;
    turned.ranges();
    let text = print(alloc, &turned)?;
    if text.len() > WORKLOAD_LIMIT {
        return Ok(Vec::new(alloc));
    }
    Ok(text)
}

// The workload with these turns, which are few enough and of its processors.
fn with_turns(alloc: Global, workload: &Workload, turns: &[ProcNo]) -> Result<Workload, AllocError>
    requires few { length turns.now ≤ MAX_TURNS }
    requires within { All (λ p. p.0 < workload.now.processors) turns.now }
    ensures { IfOk result (λ turned. turned ≡ with_turns workload.now turns.now) }
{
    workload.ranges();
    let spaces = copies(alloc, workload.spaces())?;
    let evictions = Vec::from_slice(alloc, workload.evictions())?;
    let turns = Vec::from_slice(alloc, turns)?;
    let turned = Workload::new(
        workload.processors(),
        workload.fetch(),
        spaces,
        evictions,
        turns,
    )
    .unwrap();
    Ok(turned.with_slice(workload.slice()).unwrap())
}

// Equal spaces.
fn copies(alloc: Global, spaces: &[SpaceDef]) -> Result<Vec<SpaceDef>, AllocError>
    ensures { IfOk result (λ copies. copies.items ≡ spaces.now) }
{
    let mut copies = Vec::new(alloc);
    for space in spaces {
        copies.push(space.copy(alloc)?)?;
    }
    Ok(copies)
}
