// What is said of a search through every order of turns.
ghost use Rattle.std.specs.Prelude.{◌≡◌, ◌++◌, IfOk, OnOk};
ghost use Rattle.std.specs.List.{flat_map};
ghost use Rattle.std.specs.Option.{option_copied};
ghost use Rattle.toga_say.specs.Search.{all_text, answer_by, extent_by, found_if, found_text, part_text, safe_text, search_text, soonest_text, wait_line, waiting_if, waiting_text};

use crate::circles::push_circles;
use crate::notes::{Note, notes_of};
use crate::scene::Scene;
use crate::threads::{ThreadAt, push_thread_line};
use sa_explore_model::{Explored, Extent, Found};
use sa_text::print_number;
use sa_waits::{Wait, waits};
use std::alloc::{AllocError, Global};
use toga_source::push_schedule;

/// What is said of a search that found this, where the scene is the machine at the end of the schedule to a stuck end: whether the workload can
/// get stuck, how much was looked at, and each end that was found with its schedule. Fails only if memory runs out.
#[tactic(auto, unfolding(crate::specs::Search::search_text))]
pub fn search_text(
    alloc: Global,
    explored: &Explored,
    stuck: Option<&Scene>,
) -> Result<Vec<u8>, AllocError>
    ensures { IfOk result (λ text. text.items ≡ search_text explored.now (option_copied stuck.entry)) }
{
    let mut out = Vec::new(alloc);
    out.extend_from_slice(answer_of(explored))?;
    push_extent(&mut out, explored.extent, explored.states, explored.depth)?;
    push_found_if(
        &mut out,
        alloc,
        b"Every thread done",
        explored.all_done.as_ref(),
    )?;
    push_found_if(&mut out, alloc, b"Stuck", explored.stuck.as_ref())?;
    push_waiting_if(&mut out, alloc, stuck)?;
    push_found_if(
        &mut out,
        alloc,
        b"No end any more",
        explored.endless.as_ref(),
    )?;
    Ok(out)
}

// The answer in one sentence.
fn answer_of(explored: &Explored) -> &'static [u8]
    ensures { result.now ≡ answer_by explored.now.stuck explored.now.endless explored.now.extent }
{
    if explored.stuck.is_some() {
        return b"It can get stuck.\n";
    }
    if explored.endless.is_some() {
        return b"It cannot get stuck, but it can come to where no order of turns leads to an end.\n";
    }
    safe_text(explored.extent)
}

// The answer where nothing was found but that every thread is done.
fn safe_text(extent: Extent) -> &'static [u8]
    ensures { result.now ≡ safe_text extent }
{
    match extent {
        Extent::All => {
            b"It cannot get stuck, and from everywhere some order of turns leads to the end.\n"
        }
        Extent::Part => {
            b"Nothing was found that gets stuck, but not every order of turns was looked at.\n"
        }
    }
}

// Appends how much was looked at.
fn push_extent(out: &mut Vec<u8>, extent: Extent, states: u32, depth: u32) -> Result<(), AllocError>
    ensures { OnOk result (out.new.items ≡ out.old.items ++ extent_by extent states depth) }
{
    match extent {
        Extent::All => push_all(out, u64::from(states), u64::from(depth)),
        Extent::Part => push_part(out, u64::from(states), u64::from(depth)),
    }
}

#[tactic(auto, unfolding(crate::specs::Search::all_text))]
fn push_all(out: &mut Vec<u8>, states: u64, depth: u64) -> Result<(), AllocError>
    ensures { OnOk result (out.new.items ≡ out.old.items ++ all_text states depth) }
{
    out.extend_from_slice(b"Every order of turns was looked at: ")?;
    print_number(states, out)?;
    out.extend_from_slice(b" states, the farthest ")?;
    print_number(depth, out)?;
    out.extend_from_slice(b" turns away.\n")
}

#[tactic(auto, unfolding(crate::specs::Search::part_text))]
fn push_part(out: &mut Vec<u8>, states: u64, depth: u64) -> Result<(), AllocError>
    ensures { OnOk result (out.new.items ≡ out.old.items ++ part_text states depth) }
{
    out.extend_from_slice(b"Not every order of turns was looked at: ")?;
    print_number(states, out)?;
    out.extend_from_slice(b" states, and every order of at most ")?;
    print_number(depth, out)?;
    out.extend_from_slice(b" turns.\n")
}

// Appends an end with its schedule, if it was found.
fn push_found_if(
    out: &mut Vec<u8>,
    alloc: Global,
    word: &[u8],
    found: Option<&Found>,
) -> Result<(), AllocError>
    ensures { OnOk result (out.new.items ≡ out.old.items ++ found_if word.now (option_copied found.entry)) }
{
    match found {
        None => Ok(()),
        Some(found) => push_found(out, alloc, word, found),
    }
}

fn push_found(
    out: &mut Vec<u8>,
    alloc: Global,
    word: &[u8],
    found: &Found,
) -> Result<(), AllocError>
    ensures { OnOk result (out.new.items ≡ out.old.items ++ found_text word.now found.now) }
{
    let events = found.schedule.len() as u64;
    push_soonest(out, word, events, u64::from(found.states))?;
    push_schedule(out, alloc, b"  ", &found.schedule)
}

#[tactic(auto, unfolding(crate::specs::Search::soonest_text))]
fn push_soonest(out: &mut Vec<u8>, word: &[u8], events: u64, states: u64) -> Result<(), AllocError>
    ensures { OnOk result (out.new.items ≡ out.old.items ++ soonest_text word.now events states) }
{
    out.extend_from_slice(b"\n")?;
    out.extend_from_slice(word)?;
    out.extend_from_slice(b": the soonest after ")?;
    print_number(events, out)?;
    out.extend_from_slice(b" events, in ")?;
    print_number(states, out)?;
    out.extend_from_slice(b" states.")
}

// Appends the threads that wait at the stuck end, and who waits for whom.
fn push_waiting_if(
    out: &mut Vec<u8>,
    alloc: Global,
    stuck: Option<&Scene>,
) -> Result<(), AllocError>
    ensures { OnOk result (out.new.items ≡ out.old.items ++ waiting_if (option_copied stuck.entry)) }
{
    match stuck {
        None => Ok(()),
        Some(scene) => {
            let waits = waits(alloc, scene.replay)?;
            push_waiting(out, alloc, scene, &waits)
        }
    }
}

#[tactic(auto, unfolding(crate::specs::Search::waiting_text))]
fn push_waiting(
    out: &mut Vec<u8>,
    alloc: Global,
    scene: &Scene,
    waits: &[Wait],
) -> Result<(), AllocError>
    ensures { OnOk result (out.new.items ≡ out.old.items ++ waiting_text scene.now waits.now) }
{
    let notes = notes_of(alloc, scene.replay.spaces(), scene.items)?;
    push_wait_lines(out, scene, &notes, waits)?;
    push_circles(out, alloc, scene, waits)
}

// Appends the line of each thread that waits.
fn push_wait_lines(
    out: &mut Vec<u8>,
    scene: &Scene,
    notes: &[Note],
    waits: &[Wait],
) -> Result<(), AllocError>
    ensures { OnOk result (out.new.items ≡ out.old.items
        ++ flat_map (wait_line scene.now notes.now waits.now) waits.now) }
{
    for wait in waits {
        let at = ThreadAt {
            space: wait.space,
            thread: wait.thread,
        };
        push_thread_line(out, scene, notes, waits, &at)?;
    }
    Ok(())
}
