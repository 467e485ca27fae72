// What the cells of the mutexes, semaphores and cells of a space hold.
ghost use Rattle.std.specs.Prelude.{◌≡◌, ◌++◌, ◌<◌, length, codes, OnOk};
ghost use Rattle.std.specs.List.{flat_map};
ghost use Rattle.std.specs.Option.{option_map};
ghost use Rattle.sa_sync.specs.Sync.{mutex_at, semaphore_at};
ghost use Rattle.sa_cells.specs.Pieces.{numbered};
ghost use Rattle.sa_cells.specs.Sync.{queue_text, holder_text, mutex_text, semaphore_text, mutex_in, semaphore_in, cell_in, of_sync};

use crate::pieces::push_numbered;
use sa_base::{SpaceNo, ThreadNo};
use sa_replay::Replay;
use sa_sync::SyncState;
use sa_text::print_number;
use std::alloc::{AllocError, Global};

/// Appends who holds the mutex of a space, and who waits for it.
pub(crate) fn push_mutex_of(
    out: &mut Vec<u8>,
    alloc: Global,
    replay: &Replay,
    s: SpaceNo,
    m: u16,
) -> Result<(), AllocError>
    ensures { OnOk result (out.new.items ≡ out.old.items ++ of_sync (λ x. mutex_in x m) replay.now.state s) }
{
    if s.0 < replay.spaces() {
        push_mutex_in(out, alloc, replay.sync(s), m)
    } else {
        out.extend_from_slice(b"-")
    }
}

fn push_mutex_in(
    out: &mut Vec<u8>,
    alloc: Global,
    sync: &SyncState,
    m: u16,
) -> Result<(), AllocError>
    ensures { OnOk result (out.new.items ≡ out.old.items ++ mutex_in sync.now m) }
{
    if m < sync.mutexes() {
        push_mutex(out, alloc, sync, m)
    } else {
        out.extend_from_slice(b"-")
    }
}

#[tactic(auto, unfolding(crate::specs::Sync::mutex_text))]
fn push_mutex(out: &mut Vec<u8>, alloc: Global, sync: &SyncState, m: u16) -> Result<(), AllocError>
    requires { m < length sync.now.mutexes }
    ensures { OnOk result (out.new.items ≡ out.old.items ++ mutex_text (mutex_at sync.now m)) }
{
    let mut queue = Vec::new(alloc);
    sync.copy_mutex_queue(m, &mut queue)?;
    push_thread_if(out, sync.holder(m))?;
    push_queue(out, &queue)
}

fn push_thread_if(out: &mut Vec<u8>, t: Option<ThreadNo>) -> Result<(), AllocError>
    ensures { OnOk result (out.new.items ≡ out.old.items ++ holder_text (option_map (λ (u : ThreadNo). u.0) t)) }
{
    match t {
        None => out.extend_from_slice(b"free"),
        Some(t) => push_numbered(out, b"thread ", u64::from(t.0)),
    }
}

// Appends those that wait, in order.
fn push_queue(out: &mut Vec<u8>, queue: &[u32]) -> Result<(), AllocError>
    ensures { OnOk result (out.new.items ≡ out.old.items ++ queue_text queue.now) }
{
    if queue.is_empty() {
        return out.extend_from_slice(b", queue empty");
    }
    out.extend_from_slice(b", queue")?;
    push_waiters(out, queue)
}

fn push_waiters(out: &mut Vec<u8>, queue: &[u32]) -> Result<(), AllocError>
    ensures { OnOk result (out.new.items ≡ out.old.items ++ flat_map (numbered (codes " ")) queue.now) }
{
    for t in queue {
        push_numbered(out, b" ", u64::from(*t))?;
    }
    Ok(())
}

/// Appends the count of the semaphore of a space, and who waits for it.
pub(crate) fn push_semaphore_of(
    out: &mut Vec<u8>,
    alloc: Global,
    replay: &Replay,
    s: SpaceNo,
    k: u16,
) -> Result<(), AllocError>
    ensures { OnOk result (out.new.items
        ≡ out.old.items ++ of_sync (λ x. semaphore_in x k) replay.now.state s) }
{
    if s.0 < replay.spaces() {
        push_semaphore_in(out, alloc, replay.sync(s), k)
    } else {
        out.extend_from_slice(b"-")
    }
}

fn push_semaphore_in(
    out: &mut Vec<u8>,
    alloc: Global,
    sync: &SyncState,
    k: u16,
) -> Result<(), AllocError>
    ensures { OnOk result (out.new.items ≡ out.old.items ++ semaphore_in sync.now k) }
{
    if k < sync.semaphores() {
        push_semaphore(out, alloc, sync, k)
    } else {
        out.extend_from_slice(b"-")
    }
}

#[tactic(auto, unfolding(crate::specs::Sync::semaphore_text))]
fn push_semaphore(
    out: &mut Vec<u8>,
    alloc: Global,
    sync: &SyncState,
    k: u16,
) -> Result<(), AllocError>
    requires { k < length sync.now.semaphores }
    ensures { OnOk result (out.new.items ≡ out.old.items ++ semaphore_text (semaphore_at sync.now k)) }
{
    let mut queue = Vec::new(alloc);
    sync.copy_semaphore_queue(k, &mut queue)?;
    push_numbered(out, b"count ", u64::from(sync.count(k)))?;
    push_queue(out, &queue)
}

/// Appends what the cell of a space holds.
pub(crate) fn push_shared_of(
    out: &mut Vec<u8>,
    replay: &Replay,
    s: SpaceNo,
    c: u16,
) -> Result<(), AllocError>
    ensures { OnOk result (out.new.items ≡ out.old.items ++ of_sync (λ x. cell_in x c) replay.now.state s) }
{
    if s.0 < replay.spaces() {
        push_shared_in(out, replay.sync(s), c)
    } else {
        out.extend_from_slice(b"-")
    }
}

fn push_shared_in(out: &mut Vec<u8>, sync: &SyncState, c: u16) -> Result<(), AllocError>
    ensures { OnOk result (out.new.items ≡ out.old.items ++ cell_in sync.now c) }
{
    let cells = sync.cells();
    if usize::from(c) < cells.len() {
        print_number(cells[usize::from(c)], out)
    } else {
        out.extend_from_slice(b"-")
    }
}
