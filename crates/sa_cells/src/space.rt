// What the cells of a space hold.
ghost use Rattle.std.specs.Prelude.{◌≡◌, ◌++◌, length, OnOk, IfOk};
ghost use Rattle.std.specs.List.{flat_map, range_with_len};
ghost use Rattle.sa_check_moment.specs.Seen.{seen};
ghost use Rattle.sa_cells.specs.Space.{note_text, untold_text, listed_in, list_text, act_if, act_of_io, act_of_io_if, io_act, act_of_note, candidates, lock_among, lock_in, lock_at, held_text, held_or, holder_in, first_holder, holder_text};

use crate::pieces::{push_and_thread, push_numbered};
use sa_base::{ActNo, Note, ProcNo, SpaceNo, ThreadNo};
use sa_check_ios::ListedThread;
use sa_check_lives::{KeptLife, ListLock};
use sa_check_moment::Moment;
use sa_devices::IoKind;
use std::alloc::{AllocError, Global};

/// Appends what a space was not told, in order.
pub(crate) fn push_untold(out: &mut Vec<u8>, notes: &[Note]) -> Result<(), AllocError>
    ensures { OnOk result (out.new.items ≡ out.old.items ++ untold_text notes.now) }
{
    for note in notes {
        push_note(out, *note)?;
    }
    Ok(())
}

fn push_note(out: &mut Vec<u8>, note: Note) -> Result<(), AllocError>
    ensures { OnOk result (out.new.items ≡ out.old.items ++ note_text note) }
{
    match note {
        Note::Add(p) => push_numbered(out, b" add ", u64::from(p.0)),
        Note::Preempted(a) => push_numbered(out, b" preempted ", a.0),
        Note::Blocked(a) => push_numbered(out, b" blocked ", a.0),
        Note::Unblocked(a) => push_numbered(out, b" unblocked ", a.0),
    }
}

/// Appends those of the ready threads of a space that are in this list, in order.
pub(crate) fn push_list(
    out: &mut Vec<u8>,
    l: ProcNo,
    listed: &[ListedThread],
) -> Result<(), AllocError>
    ensures { OnOk result (out.new.items ≡ out.old.items ++ list_text l listed.now) }
{
    for x in listed {
        push_listed(out, l, *x)?;
    }
    Ok(())
}

fn push_listed(out: &mut Vec<u8>, l: ProcNo, x: ListedThread) -> Result<(), AllocError>
    ensures { OnOk result (out.new.items ≡ out.old.items ++ listed_in l x) }
{
    if x.list.0 == l.0 {
        return push_numbered(out, b" ", u64::from(x.thread.0));
    }
    Ok(())
}

/// Appends who holds the lock of the list of a space, if these were all ups so far.
pub(crate) fn push_holder(
    out: &mut Vec<u8>,
    alloc: Global,
    moment: &Moment,
    ups: &[ActNo],
    s: SpaceNo,
    l: ProcNo,
) -> Result<(), AllocError>
    ensures { OnOk result (out.new.items
        ≡ out.old.items ++ holder_text (seen moment.now).readings ups.now s l) }
{
    match first_holder(alloc, moment, ups, s, l)? {
        None => out.extend_from_slice(b"free"),
        Some(a) => push_held_by(out, a, lock_at(moment, s, l, a)),
    }
}

// The life that has the lock: in a legal trace one of the candidates.
#[tactic(auto, using(crate::proofs::Holders::found_first, crate::proofs::Holders::found_later))]
fn first_holder(
    alloc: Global,
    moment: &Moment,
    ups: &[ActNo],
    s: SpaceNo,
    l: ProcNo,
) -> Result<Option<ActNo>, AllocError>
    ensures { IfOk result (λ a. a ≡ first_holder (seen moment.now).readings ups.now s l) }
{
    let acts = candidates(alloc, moment, s)?;
    match holder_in(moment, s, l, &acts) {
        Some(a) => Ok(Some(a)),
        None => Ok(other_holder(moment, s, l, ups)),
    }
}

// The first of these lives that has the lock. They are looked through only if some life has it.
fn other_holder(moment: &Moment, s: SpaceNo, l: ProcNo, acts: &[ActNo]) -> Option<ActNo>
    ensures { result ≡ holder_in (seen moment.now).readings s l acts.now }
{
    if !moment.is_locked(s, l) {
        return None;
    }
    holder_in(moment, s, l, acts)
}

// The first of these lives that has the lock.
fn holder_in(moment: &Moment, s: SpaceNo, l: ProcNo, acts: &[ActNo]) -> Option<ActNo>
    ensures { result ≡ holder_in (seen moment.now).readings s l acts.now }
{
    for a in acts {
        if lock_at(moment, s, l, *a).is_some() {
            return Some(*a);
        }
    }
    None
}

// Appends who has the lock, if this life has it.
fn push_held_by(out: &mut Vec<u8>, a: ActNo, lock: Option<ListLock>) -> Result<(), AllocError>
    ensures { OnOk result (out.new.items ≡ out.old.items ++ held_or lock a) }
{
    match lock {
        None => out.extend_from_slice(b"free"),
        Some(lock) => push_held(out, a, lock.thread),
    }
}

fn push_held(out: &mut Vec<u8>, a: ActNo, t: Option<ThreadNo>) -> Result<(), AllocError>
    ensures { OnOk result (out.new.items ≡ out.old.items ++ held_text a t) }
{
    push_numbered(out, b"activation ", a.0)?;
    push_and_thread(out, t)
}

// The lock of the list, where the life has it.
fn lock_at(moment: &Moment, s: SpaceNo, l: ProcNo, a: ActNo) -> Option<ListLock>
    ensures { result ≡ lock_at (seen moment.now).readings s l a }
{
    match moment.life(a) {
        None => None,
        Some(life) => lock_in(life, s, l),
    }
}

fn lock_in(life: &KeptLife, s: SpaceNo, l: ProcNo) -> Option<ListLock>
    ensures { result ≡ lock_in s l (Some life.now) }
{
    if life.space().0 == s.0 {
        lock_among(life.locks(), l)
    } else {
        None
    }
}

// The first of these locks that is of the list.
fn lock_among(locks: &[ListLock], l: ProcNo) -> Option<ListLock>
    ensures { result ≡ lock_among l locks.now }
{
    for lock in locks {
        if lock.list.0 == l.0 {
            return Some(*lock);
        }
    }
    None
}

// The lives among which the holder of a lock is looked for.
fn candidates(alloc: Global, moment: &Moment, s: SpaceNo) -> Result<Vec<ActNo>, AllocError>
    ensures { IfOk result (λ acts. acts.items ≡ candidates (seen moment.now).readings s) }
{
    let mut acts = Vec::new(alloc);
    push_running(&mut acts, moment.all_running())?;
    push_ios(&mut acts, moment)?;
    push_noted(&mut acts, moment.untold(s))?;
    Ok(acts)
}

/// Appends the activations that there are.
pub(crate) fn push_running(
    acts: &mut Vec<ActNo>,
    running: &[Option<ActNo>],
) -> Result<(), AllocError>
    ensures { OnOk result (acts.new.items ≡ acts.old.items ++ flat_map act_if running.now) }
{
    for a in running {
        push_act(acts, *a)?;
    }
    Ok(())
}

/// Appends the activation, if there is one.
pub(crate) fn push_act(acts: &mut Vec<ActNo>, a: Option<ActNo>) -> Result<(), AllocError>
    ensures { OnOk result (acts.new.items ≡ acts.old.items ++ act_if a) }
{
    if let Some(a) = a {
        acts.push(a)?;
    }
    Ok(())
}

// Appends the activations whose I/O is under way.
fn push_ios(acts: &mut Vec<ActNo>, moment: &Moment) -> Result<(), AllocError>
    ensures { OnOk result (acts.new.items ≡ acts.old.items ++ flat_map (io_act (seen moment.now).readings)
        (range_with_len 0 (length (seen moment.now).readings.under_way))) }
{
    for k in 0..moment.io_len() {
        push_io(acts, moment.io_kind(k))?;
    }
    Ok(())
}

// Appends the activation that an I/O is of, if there is one.
fn push_io(acts: &mut Vec<ActNo>, kind: Option<IoKind>) -> Result<(), AllocError>
    ensures { OnOk result (acts.new.items ≡ acts.old.items ++ act_of_io_if kind) }
{
    match kind {
        None => Ok(()),
        Some(kind) => push_act(acts, act_of_io(kind)),
    }
}

// The activation that an I/O is of.
fn act_of_io(kind: IoKind) -> Option<ActNo>
    ensures { act_if result ≡ act_of_io kind }
{
    match kind {
        IoKind::Plain(_, a) | IoKind::Page(_, a, _) => Some(a),
        IoKind::Upcall(_) => None,
    }
}

// Appends the activations of which a space was not told something.
fn push_noted(acts: &mut Vec<ActNo>, notes: &[Note]) -> Result<(), AllocError>
    ensures { OnOk result (acts.new.items ≡ acts.old.items ++ flat_map act_of_note notes.now) }
{
    for note in notes {
        push_act(acts, act_of_note(*note))?;
    }
    Ok(())
}

/// The activation that a notice is of.
pub(crate) fn act_of_note(note: Note) -> Option<ActNo>
    ensures { act_if result ≡ act_of_note note }
{
    match note {
        Note::Add(_) => None,
        Note::Preempted(a) | Note::Blocked(a) | Note::Unblocked(a) => Some(a),
    }
}
