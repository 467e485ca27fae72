// What the cell of a thread holds.
ghost use Rattle.std.specs.Prelude.{◌≡◌, ◌++◌, ◌<◌, length, OnOk};
ghost use Rattle.std.specs.List.{flat_map};
ghost use Rattle.std.specs.Option.{option_map};
ghost use Rattle.sa_workload.specs.Text.{operand_word};
ghost use Rattle.sa_sync.specs.Sync.{mutex_at};
ghost use Rattle.sa_check_moment.specs.Seen.{seen};
ghost use Rattle.sa_cells.specs.Thread.{operand_text, instr_text, place_text, next_text, going_text, standing_text, held_by, mutex_text, awaited_text, waiting_text, waits, made_text, thread_text};

use crate::pieces::{push_numbered, push_one};
use crate::view::View;
use sa_base::{SpaceNo, ThreadNo};
use sa_instr::{Instr, Operand};
use sa_laws::Place;
use sa_sync::SyncState;
use sa_text::print_number;
use std::alloc::AllocError;

/// Appends where the thread of a space is, and what it runs next, or in which instruction it waits.
pub(crate) fn push_thread(
    out: &mut Vec<u8>,
    view: &View,
    s: SpaceNo,
    t: ThreadNo,
) -> Result<(), AllocError>
    ensures { let m = seen view.now.moment in
        OnOk result (out.new.items ≡ out.old.items ++ thread_text m.workload m.readings.state s t) }
{
    if s.0 < view.replay.spaces() && t.0 < view.moment.made(s) {
        push_made(out, view, s, t)
    } else {
        out.extend_from_slice(b"-")
    }
}

fn push_made(out: &mut Vec<u8>, view: &View, s: SpaceNo, t: ThreadNo) -> Result<(), AllocError>
    requires { s.0 < length (seen view.now.moment).readings.state.spaces }
    ensures { let m = seen view.now.moment in
        OnOk result (out.new.items ≡ out.old.items ++ made_text m.workload m.readings.state s t) }
{
    let thread = view.moment.thread(s, t);
    let pc = thread.pc();
    if waits(view, s, t) {
        let instr = view.moment.instr_of(s, t, pc.saturating_sub(1));
        push_waiting(out, view.replay.sync(s), instr)
    } else {
        let instr = view.moment.instr_of(s, t, pc);
        push_standing(out, thread.place(), pc, instr)
    }
}

/// The thread is in a queue.
pub(crate) fn waits(view: &View, s: SpaceNo, t: ThreadNo) -> bool
    ensures { result ≡ waits (seen view.now.moment).readings.state s t }
{
    view.moment.thread(s, t).place() == Place::Waiting && !view.replay.is_due(s, t)
}

#[tactic(auto, unfolding(crate::specs::Thread::waiting_text))]
fn push_waiting(out: &mut Vec<u8>, sync: &SyncState, instr: Instr) -> Result<(), AllocError>
    ensures { OnOk result (out.new.items ≡ out.old.items ++ waiting_text sync.now instr) }
{
    out.extend_from_slice(b"waits in ")?;
    push_instr(out, instr)?;
    push_awaited(out, sync, instr)
}

// Appends what the instruction waits for.
fn push_awaited(out: &mut Vec<u8>, sync: &SyncState, instr: Instr) -> Result<(), AllocError>
    ensures { OnOk result (out.new.items ≡ out.old.items ++ awaited_text sync.now instr) }
{
    match instr {
        Instr::Lock(m) => push_mutex(out, sync, m),
        Instr::Wait(k) => push_numbered(out, b", for semaphore ", u64::from(k)),
        Instr::Join(_) => out.extend_from_slice(b", for the end of a thread"),
        _ => Ok(()),
    }
}

fn push_mutex(out: &mut Vec<u8>, sync: &SyncState, m: u16) -> Result<(), AllocError>
    ensures { OnOk result (out.new.items ≡ out.old.items ++ mutex_text sync.now m) }
{
    push_numbered(out, b", for mutex ", u64::from(m))?;
    push_held_by(out, holder_of(sync, m))
}

/// The thread that holds the mutex.
pub(crate) fn holder_of(sync: &SyncState, m: u16) -> Option<ThreadNo>
    ensures { option_map (λ (t : ThreadNo). t.0) result ≡ (mutex_at sync.now m).holder }
{
    if m < sync.mutexes() {
        sync.holder(m)
    } else {
        None
    }
}

fn push_held_by(out: &mut Vec<u8>, t: Option<ThreadNo>) -> Result<(), AllocError>
    ensures { OnOk result (out.new.items
        ≡ out.old.items ++ held_by (option_map (λ (u : ThreadNo). u.0) t)) }
{
    match t {
        None => out.extend_from_slice(b", which nobody holds"),
        Some(t) => push_one(out, b", which thread ", u64::from(t.0), b" holds"),
    }
}

#[tactic(auto, unfolding(crate::specs::Thread::standing_text))]
fn push_standing(out: &mut Vec<u8>, place: Place, pc: u16, instr: Instr) -> Result<(), AllocError>
    ensures { OnOk result (out.new.items ≡ out.old.items ++ standing_text place pc instr) }
{
    push_place(out, place)?;
    push_going(out, place, pc, instr)
}

fn push_place(out: &mut Vec<u8>, place: Place) -> Result<(), AllocError>
    ensures { OnOk result (out.new.items ≡ out.old.items ++ place_text place) }
{
    match place {
        Place::Running(p) => push_numbered(out, b"runs on processor ", u64::from(p.0)),
        Place::Ready => out.extend_from_slice(b"ready"),
        Place::Blocked => out.extend_from_slice(b"blocked in the kernel"),
        Place::Waiting => out.extend_from_slice(b"to be made ready"),
        Place::Carried => out.extend_from_slice(b"stopped or returned, to be made ready"),
        Place::Done => out.extend_from_slice(b"done"),
    }
}

fn push_going(out: &mut Vec<u8>, place: Place, pc: u16, instr: Instr) -> Result<(), AllocError>
    ensures { OnOk result (out.new.items ≡ out.old.items ++ going_text place pc instr) }
{
    match place {
        Place::Done => Ok(()),
        _ => push_next(out, pc, instr),
    }
}

#[tactic(auto, unfolding(crate::specs::Thread::next_text))]
fn push_next(out: &mut Vec<u8>, pc: u16, instr: Instr) -> Result<(), AllocError>
    ensures { OnOk result (out.new.items ≡ out.old.items ++ next_text pc instr) }
{
    push_one(out, b", at ", u64::from(pc), b": ")?;
    push_instr(out, instr)
}

/// Appends an instruction, as the workload text has it.
pub(crate) fn push_instr(out: &mut Vec<u8>, instr: Instr) -> Result<(), AllocError>
    ensures { OnOk result (out.new.items ≡ out.old.items ++ instr_text instr) }
{
    let parts = instr.parts();
    out.extend_from_slice(parts.operation().form().word)?;
    push_operands(out, parts.operands())
}

// Appends each operand after a space.
fn push_operands(out: &mut Vec<u8>, operands: &[Operand]) -> Result<(), AllocError>
    ensures { OnOk result (out.new.items ≡ out.old.items ++ flat_map operand_text operands.now) }
{
    for operand in operands {
        push_spaced(out, *operand)?;
    }
    Ok(())
}

fn push_spaced(out: &mut Vec<u8>, operand: Operand) -> Result<(), AllocError>
    ensures { OnOk result (out.new.items ≡ out.old.items ++ operand_text operand) }
{
    out.extend_from_slice(b" ")?;
    push_operand(out, operand)
}

fn push_operand(out: &mut Vec<u8>, operand: Operand) -> Result<(), AllocError>
    ensures { OnOk result (out.new.items ≡ out.old.items ++ operand_word operand) }
{
    match operand {
        Operand::Register(register) => push_numbered(out, b"r", u64::from(register.number())),
        Operand::Value(n) => print_number(n, out),
        Operand::Length(n) => print_number(u64::from(n), out),
        Operand::Place(n)
        | Operand::Cell(n)
        | Operand::Program(n)
        | Operand::Mutex(n)
        | Operand::Semaphore(n)
        | Operand::Page(n) => print_number(u64::from(n), out),
    }
}
