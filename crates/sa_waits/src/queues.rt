// What a thread waits for.
ghost use Rattle.std.specs.Prelude.{◌≡◌, ◌<◌, ◌==◌, length, IfOk};
ghost use Rattle.sa_base.specs.declared.limits.TheConstants.{MAX_THREADS};
ghost use Rattle.sa_waits.specs.Waits.{is_in, held, counted, joined, first_from, awaited};

use crate::wait::Awaited;
use sa_base::{MAX_THREADS, ThreadNo};
use sa_sync::SyncState;
use std::alloc::{AllocError, Global};

/// What the thread waits for; `None` where it is in no queue.
pub(crate) fn awaited(
    alloc: Global,
    sync: &SyncState,
    t: ThreadNo,
) -> Result<Option<Awaited>, AllocError>
    ensures { IfOk result (λ found. found ≡ awaited sync.now t.0) }
{
    if let Some(mutex) = mutex_of(alloc, sync, t)? {
        return Ok(Some(mutex));
    }
    if let Some(semaphore) = semaphore_of(alloc, sync, t)? {
        return Ok(Some(semaphore));
    }
    thread_of(alloc, sync, t)
}

// The mutex that it waits for.
fn mutex_of(alloc: Global, sync: &SyncState, t: ThreadNo) -> Result<Option<Awaited>, AllocError>
    ensures { IfOk result (λ found. found ≡ first_from (held sync.now t.0) 0 (length sync.now.mutexes)) }
{
    for m in 0..sync.mutexes() {
        if let Some(found) = held(alloc, sync, t, m)? {
            return Ok(Some(found));
        }
    }
    Ok(None)
}

// The semaphore that it waits for.
fn semaphore_of(alloc: Global, sync: &SyncState, t: ThreadNo) -> Result<Option<Awaited>, AllocError>
    ensures { IfOk result (λ found. found ≡ first_from (counted sync.now t.0) 0 (length sync.now.semaphores)) }
{
    for k in 0..sync.semaphores() {
        if let Some(found) = counted(alloc, sync, t, k)? {
            return Ok(Some(found));
        }
    }
    Ok(None)
}

// The thread that it joins.
fn thread_of(alloc: Global, sync: &SyncState, t: ThreadNo) -> Result<Option<Awaited>, AllocError>
    ensures { IfOk result (λ found. found ≡ first_from (joined sync.now t.0) 0 MAX_THREADS) }
{
    for j in 0..MAX_THREADS {
        if let Some(found) = joined(alloc, sync, t, ThreadNo(j))? {
            return Ok(Some(found));
        }
    }
    Ok(None)
}

// The mutex, where the thread is in its queue and another holds it.
fn held(alloc: Global, sync: &SyncState, t: ThreadNo, m: u16) -> Result<Option<Awaited>, AllocError>
    requires { m < length sync.now.mutexes }
    ensures { IfOk result (λ found. found ≡ held sync.now t.0 m) }
{
    let mut queue = Vec::new(alloc);
    sync.copy_mutex_queue(m, &mut queue)?;
    if !is_in(&queue, t) {
        return Ok(None);
    }
    match sync.holder(m) {
        Some(holder) => Ok(Some(Awaited::Mutex(m, holder))),
        None => Ok(None),
    }
}

// The semaphore, where the thread is in its queue.
fn counted(
    alloc: Global,
    sync: &SyncState,
    t: ThreadNo,
    k: u16,
) -> Result<Option<Awaited>, AllocError>
    requires { k < length sync.now.semaphores }
    ensures { IfOk result (λ found. found ≡ counted sync.now t.0 k) }
{
    let mut queue = Vec::new(alloc);
    sync.copy_semaphore_queue(k, &mut queue)?;
    if is_in(&queue, t) {
        Ok(Some(Awaited::Semaphore(k)))
    } else {
        Ok(None)
    }
}

// The other thread, where the thread joins it.
fn joined(
    alloc: Global,
    sync: &SyncState,
    t: ThreadNo,
    other: ThreadNo,
) -> Result<Option<Awaited>, AllocError>
    requires { other.0 < MAX_THREADS }
    ensures { IfOk result (λ found. found ≡ joined sync.now t.0 other.0) }
{
    let mut queue = Vec::new(alloc);
    sync.copy_joiners(other, &mut queue)?;
    if is_in(&queue, t) {
        Ok(Some(Awaited::Thread(other)))
    } else {
        Ok(None)
    }
}

// Whether the thread is in the queue.
fn is_in(queue: &[u32], t: ThreadNo) -> bool
    ensures { result ≡ is_in queue.now t.0 }
{
    let number = u32::from(t.0);
    queue.iter().any(|u| *u == number)
}
