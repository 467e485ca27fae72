// The bytes of what threads wait on.
ghost use Rattle.std.specs.Prelude.{◌≡◌, ℕ, ◌<◌, ◌≤◌, ◌++◌, not, false, length, take, slice_index_or, OnOk};
ghost use Rattle.sa_base.specs.declared.limits.TheConstants.{MAX_THREADS};
ghost use Rattle.sa_sync.specs.Sync.{mutex_at, semaphore_at, joiners_at, is_done};
ghost use Rattle.sa_package_keys.specs.Codes.{number, flag, list, padded, trimmed};
ghost use Rattle.sa_package_keys.specs.Packages.{mutex_key, semaphore_key, sync_key, is_empty};

use crate::{kept_flags, put_flags, put_number, put_numbers, put_thread, put_words};
use sa_base::{MAX_THREADS, ThreadNo};
use sa_sync::SyncState;
use std::alloc::AllocError;

/// Adds the bytes of what threads wait on, where `made` threads were made. `row` is for queues in between. This and all below
/// fail only where memory runs out.
pub(crate) fn put_sync(
    sync: &SyncState,
    made: u16,
    row: &mut Vec<u32>,
    key: &mut Vec<u8>,
) -> Result<(), AllocError>
    requires joiners { length sync.now.joiners ≡ MAX_THREADS }
    requires made { made ≤ length sync.now.done }
    requires done { (t : ℕ) → made ≤ t → is_done sync.now t ≡ false }
    ensures { OnOk result (key.new.items ≡ key.old.items ++ sync_key sync.now) }
{
    put_mutexes(sync, row, key)?;
    put_semaphores(sync, row, key)?;
    put_joiners(sync, row, key)?;
    put_done(sync.done(), made, key)?;
    put_words(sync.cells(), key)
}

// Adds the bytes of each mutex.
fn put_mutexes(sync: &SyncState, row: &mut Vec<u32>, key: &mut Vec<u8>) -> Result<(), AllocError>
    ensures { OnOk result (key.new.items ≡ key.old.items ++ list mutex_key sync.now.mutexes) }
{
    let count = sync.mutexes();
    put_number(key, u64::from(count))?;
    for m in 0..count {
        put_mutex(sync, m, row, key)?;
    }
    Ok(())
}

// Adds the bytes of a mutex.
fn put_mutex(
    sync: &SyncState,
    m: u16,
    row: &mut Vec<u32>,
    key: &mut Vec<u8>,
) -> Result<(), AllocError>
    requires { m < length sync.now.mutexes }
    ensures { OnOk result (key.new.items ≡ key.old.items ++ mutex_key (mutex_at sync.now m)) }
{
    row.clear();
    sync.copy_mutex_queue(m, row)?;
    put_thread(key, sync.holder(m))?;
    put_numbers(row.as_slice(), key)
}

// Adds the bytes of each semaphore.
fn put_semaphores(sync: &SyncState, row: &mut Vec<u32>, key: &mut Vec<u8>) -> Result<(), AllocError>
    ensures { OnOk result (key.new.items ≡ key.old.items ++ list semaphore_key sync.now.semaphores) }
{
    let count = sync.semaphores();
    put_number(key, u64::from(count))?;
    for k in 0..count {
        put_semaphore(sync, k, row, key)?;
    }
    Ok(())
}

// Adds the bytes of a semaphore.
fn put_semaphore(
    sync: &SyncState,
    k: u16,
    row: &mut Vec<u32>,
    key: &mut Vec<u8>,
) -> Result<(), AllocError>
    requires { k < length sync.now.semaphores }
    ensures { OnOk result (key.new.items ≡ key.old.items ++ semaphore_key (semaphore_at sync.now k)) }
{
    row.clear();
    sync.copy_semaphore_queue(k, row)?;
    put_number(key, u64::from(sync.count(k)))?;
    put_numbers(row.as_slice(), key)
}

// Adds the bytes of those that join each thread.
fn put_joiners(sync: &SyncState, row: &mut Vec<u32>, key: &mut Vec<u8>) -> Result<(), AllocError>
    requires { length sync.now.joiners ≡ MAX_THREADS }
    ensures { OnOk result (key.new.items ≡ key.old.items ++ padded is_empty (list number) sync.now.joiners) }
{
    let kept = kept_joiners(sync);
    put_number(key, u64::from(MAX_THREADS))?;
    put_number(key, u64::from(kept))?;
    for t in 0..kept {
        put_joiners_of(sync, ThreadNo(t), row, key)?;
    }
    Ok(())
}

// How many threads there are up to the last that some thread joins.
fn kept_joiners(sync: &SyncState) -> u16
    requires { length sync.now.joiners ≡ MAX_THREADS }
    ensures within { result ≤ MAX_THREADS }
    ensures kept { trimmed is_empty sync.now.joiners ≡ take result sync.now.joiners }
{
    for t in (0..MAX_THREADS).rev() {
        if !sync.has_no_joiners(ThreadNo(t)) {
            return t + 1;
        }
    }
    0
}

// Adds the bytes of those that join a thread.
fn put_joiners_of(
    sync: &SyncState,
    t: ThreadNo,
    row: &mut Vec<u32>,
    key: &mut Vec<u8>,
) -> Result<(), AllocError>
    requires { t.0 < MAX_THREADS }
    ensures { OnOk result (key.new.items ≡ key.old.items ++ list number (joiners_at sync.now t.0)) }
{
    row.clear();
    sync.copy_joiners(t, row)?;
    put_numbers(row.as_slice(), key)
}

// Adds the bytes of which threads are done, of which only the first `made` can be.
fn put_done(done: &[bool], made: u16, key: &mut Vec<u8>) -> Result<(), AllocError>
    requires made { made ≤ length done.now }
    requires rest { (t : ℕ) → made ≤ t → slice_index_or done.now t false ≡ false }
    ensures { OnOk result (key.new.items ≡ key.old.items ++ padded not flag done.now) }
{
    let kept = kept_flags(&done[..usize::from(made)]);
    put_number(key, done.len() as u64)?;
    put_flags(&done[..kept], key)?;
    Ok(())
}
