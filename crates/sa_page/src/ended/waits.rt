// What is said of threads that wait.
ghost use Rattle.std.specs.Prelude.{◌≡◌, ◌++◌, decimal, OnOk};
ghost use Rattle.std.specs.List.{flat_map};
ghost use Rattle.sa_page.specs.Ended.{awaited_line, semaphore_words, mutex_words, is_at_end, holds_word, other_words, holder_words, awaited_words, wait_line, wait_words, wait_said, waits_said};
ghost use Rattle.sa_laws.specs.State.{thread_at};

use crate::ended::circles::push_circles;
use sa_base::{SpaceNo, ThreadNo};
use sa_laws::Place;
use sa_replay::Replay;
use sa_text::print_number;
use sa_waits::{Awaited, Wait};
use std::alloc::{AllocError, Global};

/// Appends what is said of threads that wait in this state: each, and each circle of them.
#[tactic(auto, unfolding(crate::specs::Ended::waits_said))]
pub(crate) fn push_waits(
    out: &mut Vec<u8>,
    alloc: Global,
    replay: &Replay,
    waits: &[Wait],
) -> Result<(), AllocError>
    ensures { OnOk result (out.new.items ≡ out.old.items ++ waits_said replay.now.state waits.now) }
{
    push_all(out, replay, waits)?;
    push_circles(out, alloc, waits)
}

// Appends each of them.
fn push_all(out: &mut Vec<u8>, replay: &Replay, waits: &[Wait]) -> Result<(), AllocError>
    ensures { OnOk result (out.new.items ≡ out.old.items ++ flat_map (wait_said replay.now.state) waits.now) }
{
    for wait in waits {
        push_wait(out, replay, wait)?;
    }
    Ok(())
}

fn push_wait(out: &mut Vec<u8>, replay: &Replay, wait: &Wait) -> Result<(), AllocError>
    ensures { OnOk result (out.new.items ≡ out.old.items ++ wait_said replay.now.state wait.now) }
{
    push_line(out, wait)?;
    push_words(out, replay, wait)
}

// Appends the line of a thread that waits.
#[tactic(auto, unfolding(crate::specs::Ended::wait_line))]
fn push_line(out: &mut Vec<u8>, wait: &Wait) -> Result<(), AllocError>
    ensures { OnOk result (out.new.items ≡ out.old.items ++ wait_line wait.now) }
{
    out.extend_from_slice(b"waits ")?;
    print_number(u64::from(wait.space.0), out)?;
    out.extend_from_slice(b" ")?;
    print_number(u64::from(wait.thread.0), out)?;
    out.extend_from_slice(b" ")?;
    print_number(u64::from(wait.place), out)?;
    push_awaited_line(out, wait.awaits)
}

fn push_awaited_line(out: &mut Vec<u8>, awaits: Awaited) -> Result<(), AllocError>
    ensures { OnOk result (out.new.items ≡ out.old.items ++ awaited_line awaits) }
{
    match awaits {
        Awaited::Mutex(m, t) => {
            out.extend_from_slice(b" mutex ")?;
            print_number(u64::from(m), out)?;
            out.extend_from_slice(b" ")?;
            print_number(u64::from(t.0), out)?;
            out.extend_from_slice(b"\n")
        }
        Awaited::Semaphore(k) => {
            out.extend_from_slice(b" sem ")?;
            print_number(u64::from(k), out)?;
            out.extend_from_slice(b"\n")
        }
        Awaited::Thread(t) => {
            out.extend_from_slice(b" thread ")?;
            print_number(u64::from(t.0), out)?;
            out.extend_from_slice(b"\n")
        }
    }
}

// Appends its words.
#[tactic(auto, unfolding(crate::specs::Ended::wait_words))]
fn push_words(out: &mut Vec<u8>, replay: &Replay, wait: &Wait) -> Result<(), AllocError>
    ensures { OnOk result (out.new.items ≡ out.old.items ++ wait_words replay.now.state wait.now) }
{
    out.extend_from_slice(b"Thread ")?;
    print_number(u64::from(wait.thread.0), out)?;
    out.extend_from_slice(b" of space ")?;
    print_number(u64::from(wait.space.0), out)?;
    out.extend_from_slice(b" waits in its instruction ")?;
    print_number(u64::from(wait.place), out)?;
    push_awaited_words(out, replay, wait.space, wait.thread, wait.awaits)
}

fn push_awaited_words(
    out: &mut Vec<u8>,
    replay: &Replay,
    s: SpaceNo,
    own: ThreadNo,
    awaits: Awaited,
) -> Result<(), AllocError>
    ensures { OnOk result (out.new.items ≡ out.old.items ++ awaited_words replay.now.state s own awaits) }
{
    match awaits {
        Awaited::Mutex(m, t) => {
            push_mutex(out, m)?;
            push_holder(out, replay, s, own, t)
        }
        Awaited::Semaphore(k) => push_semaphore(out, k),
        Awaited::Thread(t) => {
            push_number(out, b", for the end of thread ", u64::from(t.0), b".\n")
        }
    }
}

#[tactic(auto, unfolding(crate::specs::Ended::mutex_words))]
fn push_mutex(out: &mut Vec<u8>, m: u16) -> Result<(), AllocError>
    ensures { OnOk result (out.new.items ≡ out.old.items ++ mutex_words m) }
{
    push_after(out, b", for mutex ", u64::from(m))
}

#[tactic(auto, unfolding(crate::specs::Ended::holder_words))]
// Appends which thread holds the mutex for which this one waits.
fn push_holder(
    out: &mut Vec<u8>,
    replay: &Replay,
    s: SpaceNo,
    own: ThreadNo,
    t: ThreadNo,
) -> Result<(), AllocError>
    ensures { OnOk result (out.new.items ≡ out.old.items ++ holder_words replay.now.state s own t) }
{
    if own.0 == t.0 {
        out.extend_from_slice(b", which it holds itself.\n")
    } else {
        push_other(out, t.0, is_at_end(replay, s, t))
    }
}

// The same of another thread, which is done or not.
fn push_other(out: &mut Vec<u8>, t: u16, done: bool) -> Result<(), AllocError>
    ensures { OnOk result (out.new.items ≡ out.old.items ++ other_words t done) }
{
    push_number(out, b", which thread ", u64::from(t), holds_word(done))
}

fn push_semaphore(out: &mut Vec<u8>, k: u16) -> Result<(), AllocError>
    ensures { OnOk result (out.new.items ≡ out.old.items ++ semaphore_words k) }
{
    push_number(
        out,
        b", for semaphore ",
        u64::from(k),
        b", which nobody is left to signal.\n",
    )
}

// The thread is done.
fn is_at_end(replay: &Replay, s: SpaceNo, t: ThreadNo) -> bool
    ensures { result ≡ is_at_end (thread_at replay.now.state s t).place }
{
    replay.thread(s, t).place() == Place::Done
}

// That a thread holds a mutex, which is done or not.
fn holds_word(done: bool) -> &'static [u8]
    ensures { result.now ≡ holds_word done }
{
    if done {
        b" holds, though it is done.\n"
    } else {
        b" holds.\n"
    }
}

// Appends a number after a word.
fn push_after(out: &mut Vec<u8>, before: &[u8], n: u64) -> Result<(), AllocError>
    ensures { OnOk result (out.new.items ≡ out.old.items ++ (before.now ++ decimal n)) }
{
    out.extend_from_slice(before)?;
    print_number(n, out)
}

/// Appends a number between two words.
pub(super) fn push_number(
    out: &mut Vec<u8>,
    before: &[u8],
    n: u64,
    after: &[u8],
) -> Result<(), AllocError>
    ensures { OnOk result (out.new.items ≡ out.old.items ++ (before.now ++ (decimal n ++ after.now))) }
{
    out.extend_from_slice(before)?;
    print_number(n, out)?;
    out.extend_from_slice(after)
}
