// What is said of all threads.
ghost use Rattle.std.specs.Prelude.{◌≡◌, ◌++◌, count_by, IfOk, OnOk};
ghost use Rattle.std.specs.List.{flat_map};
ghost use Rattle.toga_say.specs.Threads.{are_many, is_quiet, line_text, line_unless, made_in, made_of, others_if, others_text, threads_text, told_text};

use crate::notes::{Note, left_of, outs_of};
use crate::push::push_between;
use crate::scene::Scene;
use crate::thread::{is_done, push_line};
use sa_base::{SpaceNo, ThreadNo};
use sa_circles::wait_of;
use sa_replay::Replay;
use sa_waits::Wait;
use std::alloc::{AllocError, Global};
use toga_source::SpaceNames;

/// How many threads may be there for each of them to be told.
const MAX_TOLD: usize = 16;

/// A thread that was made.
#[derive(Clone, Copy)]
pub(crate) struct ThreadAt {
    pub(crate) space: SpaceNo,
    pub(crate) thread: ThreadNo,
}

/// The threads that were made, in order.
pub(crate) fn made_of(alloc: Global, replay: &Replay) -> Result<Vec<ThreadAt>, AllocError>
    ensures { IfOk result (λ made. made.items ≡ made_of replay.now.state) }
{
    let mut made = Vec::new(alloc);
    for s in 0..replay.spaces() {
        push_made(&mut made, replay, s)?;
    }
    Ok(made)
}

// Adds those of a space.
fn push_made(made: &mut Vec<ThreadAt>, replay: &Replay, s: u16) -> Result<(), AllocError>
    ensures { OnOk result (made.new.items ≡ made.old.items ++ made_in replay.now.state s) }
{
    for t in 0..replay.made(SpaceNo(s)) {
        made.push(ThreadAt {
            space: SpaceNo(s),
            thread: ThreadNo(t),
        })?;
    }
    Ok(())
}

/// Appends the lines of the threads that were made.
#[tactic(auto, unfolding(crate::specs::Threads::threads_text))]
pub(crate) fn push_threads(
    out: &mut Vec<u8>,
    scene: &Scene,
    notes: &[Note],
    waits: &[Wait],
    made: &[ThreadAt],
) -> Result<(), AllocError>
    ensures { OnOk result (out.new.items ≡ out.old.items ++ threads_text scene.now notes.now waits.now made.now) }
{
    let many = made.len() > MAX_TOLD;
    push_lines(out, many, scene, notes, waits, made)?;
    push_others_if(out, many, scene, notes, made)
}

// Appends the lines of these threads; of many, not of those that are done and put nothing out.
fn push_lines(
    out: &mut Vec<u8>,
    many: bool,
    scene: &Scene,
    notes: &[Note],
    waits: &[Wait],
    made: &[ThreadAt],
) -> Result<(), AllocError>
    ensures { OnOk result (out.new.items ≡ out.old.items
        ++ flat_map (line_unless many scene.now notes.now waits.now) made.now) }
{
    for at in made {
        push_unless(out, many, scene, notes, waits, at)?;
    }
    Ok(())
}

fn push_unless(
    out: &mut Vec<u8>,
    many: bool,
    scene: &Scene,
    notes: &[Note],
    waits: &[Wait],
    at: &ThreadAt,
) -> Result<(), AllocError>
    ensures { OnOk result (out.new.items ≡ out.old.items ++ line_unless many scene.now notes.now waits.now at.now) }
{
    if many && is_quiet(scene, notes, at) {
        return Ok(());
    }
    push_thread_line(out, scene, notes, waits, at)
}

/// Appends the line of a thread, if its space has names.
pub(crate) fn push_thread_line(
    out: &mut Vec<u8>,
    scene: &Scene,
    notes: &[Note],
    waits: &[Wait],
    at: &ThreadAt,
) -> Result<(), AllocError>
    ensures { OnOk result (out.new.items ≡ out.old.items ++ line_text scene.now notes.now waits.now at.now) }
{
    match scene.names.get(usize::from(at.space.0)) {
        None => Ok(()),
        Some(own) => push_told(out, scene, own, notes, waits, at),
    }
}

fn push_told(
    out: &mut Vec<u8>,
    scene: &Scene,
    own: &SpaceNames,
    notes: &[Note],
    waits: &[Wait],
    at: &ThreadAt,
) -> Result<(), AllocError>
    ensures { OnOk result (out.new.items ≡ out.old.items ++ told_text scene.now notes.now waits.now at.now own.now) }
{
    let wait = wait_of(waits, at.space, at.thread.0);
    let left = left_of(notes, at.space, at.thread);
    let outs = outs_of(notes, at.space, at.thread);
    push_line(out, scene, own, at.space, at.thread, left, outs, wait)
}

// Whether a thread is done and put nothing out.
fn is_quiet(scene: &Scene, notes: &[Note], at: &ThreadAt) -> bool
    ensures { result ≡ is_quiet scene.now notes.now at.now }
{
    is_done(scene.replay.thread(at.space, at.thread).place())
        && outs_of(notes, at.space, at.thread).len() == 0
}

// Appends, of many threads, how many are done and put nothing out.
fn push_others_if(
    out: &mut Vec<u8>,
    many: bool,
    scene: &Scene,
    notes: &[Note],
    made: &[ThreadAt],
) -> Result<(), AllocError>
    ensures { OnOk result (out.new.items ≡ out.old.items ++ others_if many scene.now notes.now made.now) }
{
    if many {
        push_others(out, quiet_ones(scene, notes, made))
    } else {
        Ok(())
    }
}

// How many threads are done and put nothing out.
fn quiet_ones(scene: &Scene, notes: &[Note], made: &[ThreadAt]) -> u64
    ensures { result ≡ count_by (is_quiet scene.now notes.now) made.now }
{
    made.iter().filter(|at| is_quiet(scene, notes, at)).count() as u64
}

fn push_others(out: &mut Vec<u8>, count: u64) -> Result<(), AllocError>
    ensures { OnOk result (out.new.items ≡ out.old.items ++ others_text count) }
{
    if count == 0 {
        return Ok(());
    }
    push_between(out, b"  ", count, b" others are done\n")
}
