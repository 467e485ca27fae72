// The summary of a run.
ghost use Rattle.std.specs.Prelude.{◌≡◌, ◌++◌, IfOk, OnOk};
ghost use Rattle.toga_kinds.specs.Kinds.{turns_of};
ghost use Rattle.toga_say.specs.Summary.{end_text, machine_text, summary_text};
ghost use Rattle.toga_say.specs.Table.{table_text};

use crate::circles::push_circles;
use crate::notes::notes_of;
use crate::push::push_between;
use crate::scene::Scene;
use crate::table::push_table;
use crate::threads::{made_of, push_threads};
use crate::values::push_values;
use sa_base::End;
use sa_waits::{Wait, waits};
use std::alloc::{AllocError, Global};
use toga_kinds::turns;

/// What is said of a run that came to this end after so many events, where the scene is the machine there: how it ended, its threads, who waits
/// for whom, what its turns were spent on, and what its cells and semaphores hold. Fails only if memory runs out.
#[tactic(auto, unfolding(crate::specs::Summary::summary_text))]
pub fn summary(alloc: Global, scene: &Scene, end: End, events: u64) -> Result<Vec<u8>, AllocError>
    ensures { IfOk result (λ text. text.items ≡ summary_text scene.now end events) }
{
    let mut out = Vec::new(alloc);
    push_end(&mut out, end, events)?;
    out.extend_from_slice(b"\nthreads:\n")?;
    let waits = waits(alloc, scene.replay)?;
    push_machine(&mut out, alloc, scene, &waits)?;
    out.extend_from_slice(b"\nevents:\n")?;
    push_events(&mut out, alloc, scene)?;
    out.extend_from_slice(b"\n")?;
    push_values(&mut out, alloc, scene)?;
    Ok(out)
}

// Appends how the run ended.
fn push_end(out: &mut Vec<u8>, end: End, events: u64) -> Result<(), AllocError>
    ensures { OnOk result (out.new.items ≡ out.old.items ++ end_text end events) }
{
    match end {
        End::AllDone => push_between(
            out,
            b"Done: every thread is done after ",
            events,
            b" events.\n",
        ),
        End::Stuck => push_between(
            out,
            b"Stuck: no thread can go on after ",
            events,
            b" events.\n",
        ),
        End::Budget => push_between(
            out,
            b"Ended by the budget: ",
            events,
            b" events were run.\n",
        ),
    }
}

// Appends the threads, and who waits for whom.
#[tactic(auto, unfolding(crate::specs::Summary::machine_text))]
fn push_machine(
    out: &mut Vec<u8>,
    alloc: Global,
    scene: &Scene,
    waits: &[Wait],
) -> Result<(), AllocError>
    ensures { OnOk result (out.new.items ≡ out.old.items ++ machine_text scene.now waits.now) }
{
    let notes = notes_of(alloc, scene.replay.spaces(), scene.items)?;
    let made = made_of(alloc, scene.replay)?;
    push_threads(out, scene, &notes, waits, &made)?;
    push_circles(out, alloc, scene, waits)
}

// Appends the table of the turns.
fn push_events(out: &mut Vec<u8>, alloc: Global, scene: &Scene) -> Result<(), AllocError>
    ensures { OnOk result (out.new.items ≡ out.old.items
        ++ table_text (turns_of scene.now.items) scene.now.replay.workload.processors) }
{
    let turns = turns(alloc, scene.items)?;
    push_table(out, alloc, &turns, scene.replay.workload().processors())
}
