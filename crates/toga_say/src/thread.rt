// What is said of a thread.
ghost use Rattle.std.specs.Prelude.{◌≡◌, ◌++◌, take, OnOk};
ghost use Rattle.toga_say.specs.declared.thread.TheConstants.{MAX_OUTS};
ghost use Rattle.sa_laws.specs.State.{thread_at};
ghost use Rattle.toga_source.specs.Show.{with_numbers};
ghost use Rattle.toga_say.specs.Thread.{awaited_words, blocked_place, blocked_text, carried_words, done_word, going_text, going_words, is_done, more_text, mutex_words, outs_text, says, semaphore_words, signal_text, standing_by, thread_text, value_text, waits_text, who};

use crate::names::{push_place, push_thread};
use crate::notes::Left;
use crate::push::push_between;
use crate::scene::Scene;
use sa_base::{SpaceNo, ThreadNo};
use sa_laws::Place;
use sa_text::print_number;
use sa_waits::{Awaited, Wait};
use std::alloc::AllocError;
use toga_source::{Name, SpaceNames};

/// How many of its values are told of a thread.
const MAX_OUTS: usize = 16;

/// Appends the line of a thread.
#[tactic(auto, unfolding(crate::specs::Thread::thread_text))]
pub(crate) fn push_line(
    out: &mut Vec<u8>,
    scene: &Scene,
    own: &SpaceNames,
    s: SpaceNo,
    t: ThreadNo,
    left: Left,
    outs: &[u64],
    wait: Option<Wait>,
) -> Result<(), AllocError>
    ensures { OnOk result (out.new.items ≡ out.old.items ++ thread_text scene.now own.now s t left outs.now wait) }
{
    out.extend_from_slice(b"  ")?;
    push_thread(out, scene, own, s, t)?;
    out.extend_from_slice(b" ")?;
    push_says(out, scene, own, s, t, left, wait)?;
    push_outs(out, outs)?;
    out.extend_from_slice(b"\n")
}

// Appends where a thread is, or what it waits for.
fn push_says(
    out: &mut Vec<u8>,
    scene: &Scene,
    own: &SpaceNames,
    s: SpaceNo,
    t: ThreadNo,
    left: Left,
    wait: Option<Wait>,
) -> Result<(), AllocError>
    ensures { OnOk result (out.new.items ≡ out.old.items ++ says scene.now own.now s t left wait) }
{
    match wait {
        Some(wait) => push_waits(out, scene, own, &wait),
        None => push_standing(out, scene, own, s, t, left),
    }
}

// Appends where a thread is that waits in no queue.
fn push_standing(
    out: &mut Vec<u8>,
    scene: &Scene,
    own: &SpaceNames,
    s: SpaceNo,
    t: ThreadNo,
    left: Left,
) -> Result<(), AllocError>
    ensures { OnOk result (out.new.items ≡ out.old.items
        ++ standing_by (thread_at scene.now.replay.state s t).place scene.now own.now s t left) }
{
    match scene.replay.thread(s, t).place() {
        Place::Done => out.extend_from_slice(b"is done"),
        Place::Blocked => push_blocked(out, scene, own, s, t, left),
        _ => push_going(out, scene, own, s, t, left),
    }
}

// Appends since which instruction a thread is in the kernel.
#[tactic(auto, unfolding(crate::specs::Thread::blocked_text))]
fn push_blocked(
    out: &mut Vec<u8>,
    scene: &Scene,
    own: &SpaceNames,
    s: SpaceNo,
    t: ThreadNo,
    left: Left,
) -> Result<(), AllocError>
    ensures { OnOk result (out.new.items ≡ out.old.items ++ blocked_text scene.now own.now s t left) }
{
    let place = blocked_place(left, scene.replay.thread(s, t).pc());
    out.extend_from_slice(b"is blocked since ")?;
    push_place(out, scene, own, s, t, place)
}

// The place of the instruction that put a thread with this place of its next one into the kernel.
fn blocked_place(left: Left, pc: u16) -> u16
    ensures { result ≡ blocked_place left pc }
{
    match left {
        Left::InIo => pc.saturating_sub(1),
        _ => pc,
    }
}

// Appends where a thread is that is to go on, and with which instruction.
#[tactic(auto, unfolding(crate::specs::Thread::going_text))]
fn push_going(
    out: &mut Vec<u8>,
    scene: &Scene,
    own: &SpaceNames,
    s: SpaceNo,
    t: ThreadNo,
    left: Left,
) -> Result<(), AllocError>
    ensures { OnOk result (out.new.items ≡ out.old.items ++ going_text scene.now own.now s t left) }
{
    let thread = scene.replay.thread(s, t);
    push_going_words(out, thread.place(), left)?;
    out.extend_from_slice(b", next is ")?;
    push_place(out, scene, own, s, t, thread.pc())
}

fn push_going_words(out: &mut Vec<u8>, place: Place, left: Left) -> Result<(), AllocError>
    ensures { OnOk result (out.new.items ≡ out.old.items ++ going_words place left) }
{
    match place {
        Place::Running(p) => {
            out.extend_from_slice(b"runs on processor ")?;
            print_number(u64::from(p.0), out)
        }
        Place::Ready => out.extend_from_slice(b"is ready to run"),
        Place::Carried => out.extend_from_slice(carried_words(left)),
        _ => out.extend_from_slice(b"is about to be made ready"),
    }
}

// Why a thread runs no more that is not made ready yet.
fn carried_words(left: Left) -> &'static [u8]
    ensures { result.now ≡ carried_words left }
{
    match left {
        Left::Returned => b"is back from the kernel, and not yet ready",
        _ => b"was stopped by an interrupt",
    }
}

// Appends where a thread waits, and what for.
#[tactic(auto, unfolding(crate::specs::Thread::waits_text))]
fn push_waits(
    out: &mut Vec<u8>,
    scene: &Scene,
    own: &SpaceNames,
    wait: &Wait,
) -> Result<(), AllocError>
    ensures { OnOk result (out.new.items ≡ out.old.items ++ waits_text scene.now own.now wait.now) }
{
    out.extend_from_slice(b"waits at ")?;
    push_place(out, scene, own, wait.space, wait.thread, wait.place)?;
    out.extend_from_slice(b", for ")?;
    push_awaited(out, scene, own, wait.space, wait.thread, wait.awaits)
}

// Appends what a thread waits for.
fn push_awaited(
    out: &mut Vec<u8>,
    scene: &Scene,
    own: &SpaceNames,
    s: SpaceNo,
    me: ThreadNo,
    awaits: Awaited,
) -> Result<(), AllocError>
    ensures { OnOk result (out.new.items ≡ out.old.items ++ awaited_words scene.now own.now s me awaits) }
{
    match awaits {
        Awaited::Mutex(m, holder) => push_mutex(out, scene, own, s, me, m, holder),
        Awaited::Semaphore(k) => push_semaphore(out, own, k),
        Awaited::Thread(t) => {
            out.extend_from_slice(b"the end of ")?;
            push_who(out, scene, own, s, me, t)
        }
    }
}

fn push_semaphore(out: &mut Vec<u8>, own: &SpaceNames, semaphore: u16) -> Result<(), AllocError>
    ensures { OnOk result (out.new.items ≡ out.old.items ++ semaphore_words own.now semaphore) }
{
    push_signal(out, Name::at(own.semaphores(), usize::from(semaphore)))
}

// Appends a semaphore of this name.
fn push_signal(out: &mut Vec<u8>, name: &[u8]) -> Result<(), AllocError>
    ensures { OnOk result (out.new.items ≡ out.old.items ++ signal_text name.now) }
{
    out.extend_from_slice(b"a signal of semaphore ")?;
    out.extend_from_slice(name)?;
    Ok(())
}

// Appends a mutex, and who holds it.
#[tactic(auto, unfolding(crate::specs::Thread::mutex_words))]
fn push_mutex(
    out: &mut Vec<u8>,
    scene: &Scene,
    own: &SpaceNames,
    s: SpaceNo,
    me: ThreadNo,
    mutex: u16,
    holder: ThreadNo,
) -> Result<(), AllocError>
    ensures { OnOk result (out.new.items ≡ out.old.items ++ mutex_words scene.now own.now s me mutex holder) }
{
    out.extend_from_slice(b"mutex ")?;
    out.extend_from_slice(Name::at(own.mutexes(), usize::from(mutex)))?;
    out.extend_from_slice(b", held by ")?;
    push_who(out, scene, own, s, me, holder)?;
    let done = is_done(scene.replay.thread(s, holder).place());
    out.extend_from_slice(done_word(done))
}

// Appends the name of a thread of the space, or that it is the thread itself.
fn push_who(
    out: &mut Vec<u8>,
    scene: &Scene,
    own: &SpaceNames,
    s: SpaceNo,
    me: ThreadNo,
    t: ThreadNo,
) -> Result<(), AllocError>
    ensures { OnOk result (out.new.items ≡ out.old.items ++ who scene.now own.now s me t) }
{
    if me.0 == t.0 {
        out.extend_from_slice(b"itself")
    } else {
        push_thread(out, scene, own, s, t)
    }
}

/// Whether a thread there is done.
pub(crate) fn is_done(place: Place) -> bool
    ensures { result ≡ is_done place }
{
    matches!(place, Place::Done)
}

// That a holder is done.
fn done_word(done: bool) -> &'static [u8]
    ensures { result.now ≡ done_word done }
{
    if done { b", which is done" } else { b"" }
}

// Appends the values that a thread put out, if there are any.
#[tactic(auto, unfolding(crate::specs::Thread::outs_text))]
fn push_outs(out: &mut Vec<u8>, outs: &[u64]) -> Result<(), AllocError>
    ensures { OnOk result (out.new.items ≡ out.old.items ++ outs_text outs.now) }
{
    if outs.len() == 0 {
        return Ok(());
    }
    out.extend_from_slice(b"; put out ")?;
    push_values(out, first_values(outs))?;
    push_more(out, outs.len())
}

// The first sixteen values.
fn first_values(outs: &[u64]) -> &[u64]
    ensures { result.now ≡ take MAX_OUTS outs.now }
{
    if outs.len() <= MAX_OUTS {
        outs
    } else {
        &outs[..MAX_OUTS]
    }
}

// Appends values, with a comma between each two.
fn push_values(out: &mut Vec<u8>, values: &[u64]) -> Result<(), AllocError>
    ensures { OnOk result (out.new.items ≡ out.old.items ++ with_numbers value_text values.now) }
{
    for (number, value) in values.iter().enumerate() {
        push_value(out, number, *value)?;
    }
    Ok(())
}

fn push_value(out: &mut Vec<u8>, number: usize, value: u64) -> Result<(), AllocError>
    ensures { OnOk result (out.new.items ≡ out.old.items ++ value_text number value) }
{
    if number != 0 {
        out.extend_from_slice(b", ")?;
    }
    print_number(value, out)
}

// Appends how many values there are beyond those that are told.
fn push_more(out: &mut Vec<u8>, count: usize) -> Result<(), AllocError>
    ensures { OnOk result (out.new.items ≡ out.old.items ++ more_text count) }
{
    if count <= MAX_OUTS {
        return Ok(());
    }
    push_between(out, b" and ", (count - MAX_OUTS) as u64, b" more")
}
