// What the cells of an activation hold.
ghost use Rattle.std.specs.Prelude.{◌≡◌, ◌++◌, OnOk};
ghost use Rattle.std.specs.List.{flat_map};
ghost use Rattle.sa_laws.specs.State.{space_at};
ghost use Rattle.sa_laws.specs.Record.{same_note};
ghost use Rattle.sa_check_moment.specs.Seen.{seen};
ghost use Rattle.sa_cells.specs.Life.{is_on, is_untold, off_text, resting_text, on_or_off, place_text, lock_text, locks_text, hand_thread, place_of, locks_of, hand_of};

use crate::pieces::{push_and_thread, push_numbered, push_one};
use sa_base::{ActNo, Note, SpaceNo, ThreadNo};
use sa_check_lives::{KeptLife, ListLock};
use sa_check_moment::Moment;
use std::alloc::AllocError;

/// Appends where the life of this number is.
pub(crate) fn push_place_of(out: &mut Vec<u8>, moment: &Moment, a: ActNo) -> Result<(), AllocError>
    ensures { OnOk result (out.new.items ≡ out.old.items ++ place_of (seen moment.now).readings a) }
{
    match moment.life(a) {
        None => out.extend_from_slice(b"-"),
        Some(life) => push_place(out, moment, a, life),
    }
}

#[tactic(auto, unfolding(crate::specs::Life::place_text))]
fn push_place(
    out: &mut Vec<u8>,
    moment: &Moment,
    a: ActNo,
    life: &KeptLife,
) -> Result<(), AllocError>
    ensures { OnOk result (out.new.items ≡ out.old.items ++ place_text (seen moment.now).readings a life.now) }
{
    push_one(out, b"space ", u64::from(life.space().0), b", ")?;
    push_on_or_off(out, moment, a, life)
}

fn push_on_or_off(
    out: &mut Vec<u8>,
    moment: &Moment,
    a: ActNo,
    life: &KeptLife,
) -> Result<(), AllocError>
    ensures { OnOk result (out.new.items ≡ out.old.items ++ on_or_off (seen moment.now).readings a life.now) }
{
    if is_on(moment, a, life) {
        push_numbered(out, b"on processor ", u64::from(life.proc().0))
    } else {
        push_resting(out, moment, a, life)
    }
}

/// The life runs on its processor.
pub(crate) fn is_on(moment: &Moment, a: ActNo, life: &KeptLife) -> bool
    ensures { result ≡ is_on (seen moment.now).readings a life.now }
{
    match moment.running(life.proc()) {
        None => false,
        Some(b) => b.0 == a.0,
    }
}

#[tactic(auto, unfolding(crate::specs::Life::resting_text))]
fn push_resting(
    out: &mut Vec<u8>,
    moment: &Moment,
    a: ActNo,
    life: &KeptLife,
) -> Result<(), AllocError>
    ensures { OnOk result (out.new.items ≡ out.old.items ++ resting_text (seen moment.now).readings a life.now) }
{
    out.extend_from_slice(off_text(moment, a, life))?;
    push_and_thread(out, life.thread())
}

// Where a life is that runs nowhere.
fn off_text(moment: &Moment, a: ActNo, life: &KeptLife) -> &'static [u8]
    ensures { result.now ≡ off_text (seen moment.now).readings a life.now }
{
    if moment.has_io(a) {
        if is_untold(moment, life, Note::Blocked(a)) {
            b"blocked, untold"
        } else {
            b"blocked"
        }
    } else if is_untold(moment, life, Note::Unblocked(a)) {
        b"unblocked, untold"
    } else if is_untold(moment, life, Note::Preempted(a)) {
        b"preempted, untold"
    } else {
        b"over, and told"
    }
}

// The space of the life was not told of this yet.
fn is_untold(moment: &Moment, life: &KeptLife, note: Note) -> bool
    ensures { result ≡ is_untold (seen moment.now).readings life.now note }
{
    moment
        .untold(life.space())
        .iter()
        .any(|other| same_note(note, *other))
}

fn same_note(note: Note, other: Note) -> bool
    ensures { result ≡ same_note note other }
{
    match (note, other) {
        (Note::Add(p), Note::Add(q)) => p.0 == q.0,
        (Note::Preempted(a), Note::Preempted(b)) => a.0 == b.0,
        (Note::Blocked(a), Note::Blocked(b)) => a.0 == b.0,
        (Note::Unblocked(a), Note::Unblocked(b)) => a.0 == b.0,
        _ => false,
    }
}

/// Appends the locks of the life of this number.
pub(crate) fn push_locks_of(out: &mut Vec<u8>, moment: &Moment, a: ActNo) -> Result<(), AllocError>
    ensures { OnOk result (out.new.items ≡ out.old.items ++ locks_of (seen moment.now).readings a) }
{
    match moment.life(a) {
        None => out.extend_from_slice(b"-"),
        Some(life) => push_locks(out, life.locks()),
    }
}

fn push_locks(out: &mut Vec<u8>, locks: &[ListLock]) -> Result<(), AllocError>
    ensures { OnOk result (out.new.items ≡ out.old.items ++ locks_text locks.now) }
{
    for lock in locks {
        push_lock(out, *lock)?;
    }
    Ok(())
}

fn push_lock(out: &mut Vec<u8>, lock: ListLock) -> Result<(), AllocError>
    ensures { OnOk result (out.new.items ≡ out.old.items ++ lock_text lock) }
{
    push_numbered(out, b" list ", u64::from(lock.list.0))?;
    push_and_thread(out, lock.thread)
}

/// Appends the threads that the life of this number is to make ready.
pub(crate) fn push_hand_of(out: &mut Vec<u8>, moment: &Moment, a: ActNo) -> Result<(), AllocError>
    ensures { OnOk result (out.new.items ≡ out.old.items ++ hand_of (seen moment.now).readings a) }
{
    match moment.life(a) {
        None => out.extend_from_slice(b"-"),
        Some(life) => push_hand(out, moment, life.space(), life.hand()),
    }
}

fn push_hand(
    out: &mut Vec<u8>,
    moment: &Moment,
    s: SpaceNo,
    hand: &[ThreadNo],
) -> Result<(), AllocError>
    ensures { OnOk result (out.new.items
        ≡ out.old.items ++ flat_map (hand_thread (space_at (seen moment.now).readings.state s)) hand.now) }
{
    for t in hand {
        push_hand_thread(out, moment, s, *t)?;
    }
    Ok(())
}

fn push_hand_thread(
    out: &mut Vec<u8>,
    moment: &Moment,
    s: SpaceNo,
    t: ThreadNo,
) -> Result<(), AllocError>
    ensures { OnOk result (out.new.items
        ≡ out.old.items ++ hand_thread (space_at (seen moment.now).readings.state s) t) }
{
    if moment.counts(s, t) {
        return push_numbered(out, b" ", u64::from(t.0));
    }
    Ok(())
}
