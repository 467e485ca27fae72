// The text of what a search found.
ghost use Rattle.std.specs.Prelude.{◌≡◌, ◌++◌, IfOk, OnOk};
ghost use Rattle.std.specs.Option.{option_copied};
ghost use Rattle.std.specs.List.{flat_map};
ghost use Rattle.sa_explore_run.specs.Text.{extent_line, found_text, found_if, awaited_text, wait_text, explored_text};

use crate::given::push_given;
use crate::line::{push_line, push_words};
use sa_explore_model::{Explored, Extent, Found};
use sa_waits::{Awaited, Wait};
use std::alloc::{AllocError, Global};

/// The text of what a search found, where these threads wait at the end of the schedule to a stuck end. Fails only where memory runs out.
pub fn explored_text(
    alloc: Global,
    explored: &Explored,
    waits: &[Wait],
) -> Result<Vec<u8>, AllocError>
    ensures { IfOk result (λ text. text.items ≡ explored_text explored.now waits.now) }
{
    let mut out = Vec::new(alloc);
    push_extent(&mut out, explored)?;
    push_found(&mut out, b"end alldone", explored.all_done.as_ref())?;
    push_found(&mut out, b"end stuck", explored.stuck.as_ref())?;
    push_waits(&mut out, waits)?;
    push_found(&mut out, b"endless", explored.endless.as_ref())?;
    Ok(out)
}

// Appends the line that says how much was looked at.
fn push_extent(out: &mut Vec<u8>, explored: &Explored) -> Result<(), AllocError>
    ensures { OnOk result (out.new.items ≡ out.old.items ++ extent_line explored.now) }
{
    let word: &[u8] = match explored.extent {
        Extent::All => b"all",
        Extent::Part => b"part",
    };
    let numbers = [u64::from(explored.states), u64::from(explored.depth)];
    push_line(out, word, &numbers)
}

// Appends the lines of what was found, if anything was.
fn push_found(out: &mut Vec<u8>, word: &[u8], found: Option<&Found>) -> Result<(), AllocError>
    ensures { OnOk result (out.new.items ≡ out.old.items ++ found_if word.now (option_copied found.entry)) }
{
    match found {
        None => Ok(()),
        Some(found) => push_one(out, word, found),
    }
}

// Appends the lines of what was found.
fn push_one(out: &mut Vec<u8>, word: &[u8], found: &Found) -> Result<(), AllocError>
    ensures { OnOk result (out.new.items ≡ out.old.items ++ found_text word.now found.now) }
{
    let events = found.schedule.len() as u64;
    push_line(out, word, &[events, u64::from(found.states)])?;
    push_given(out, &found.schedule)
}

// Appends a line for each of these threads.
fn push_waits(out: &mut Vec<u8>, waits: &[Wait]) -> Result<(), AllocError>
    ensures { OnOk result (out.new.items ≡ out.old.items ++ flat_map wait_text waits.now) }
{
    for wait in waits {
        push_wait(out, wait)?;
    }
    Ok(())
}

// Appends the line of a thread that waits.
fn push_wait(out: &mut Vec<u8>, wait: &Wait) -> Result<(), AllocError>
    ensures { OnOk result (out.new.items ≡ out.old.items ++ wait_text wait.now) }
{
    let numbers = [
        u64::from(wait.space.0),
        u64::from(wait.thread.0),
        u64::from(wait.place),
    ];
    push_words(out, b"waits", &numbers)?;
    push_awaited(out, wait.awaits)
}

// Appends what it waits for.
fn push_awaited(out: &mut Vec<u8>, awaited: Awaited) -> Result<(), AllocError>
    ensures { OnOk result (out.new.items ≡ out.old.items ++ awaited_text awaited) }
{
    match awaited {
        Awaited::Mutex(m, holder) => push_line(
            out,
            b" mutex",
            &[u64::from(m), u64::from(holder.0)],
        ),
        Awaited::Semaphore(k) => push_line(out, b" sem", &[u64::from(k)]),
        Awaited::Thread(t) => push_line(out, b" thread", &[u64::from(t.0)]),
    }
}
