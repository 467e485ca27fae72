// The bytes of what the contexts of a space share.
ghost use Rattle.std.specs.Prelude.{◌≡◌, ◌++◌, is_none, length, OnOk};
ghost use Rattle.sa_base.specs.declared.limits.TheConstants.{MAX_THREADS};
ghost use Rattle.sa_package_keys.specs.Codes.{thread_key, padded};
ghost use Rattle.sa_package_keys.specs.Packages.{shared_key, HasThreads, HasUnmade};

use crate::blocks::put_all_blocks;
use crate::lists::put_lists;
use crate::sync::put_sync;
use crate::works::put_works;
use crate::{kept_threads, put_number, put_threads};
use sa_base::ThreadNo;
use sa_fast::Shared;
use std::alloc::{AllocError, Global};

/// Adds the bytes of what the contexts share. This and the one below fail only where memory runs out.
pub(crate) fn put_shared(
    shared: &Shared,
    alloc: Global,
    key: &mut Vec<u8>,
) -> Result<(), AllocError>
    requires all { HasThreads shared.now }
    requires done { length shared.now.sync.done ≡ MAX_THREADS }
    requires unmade { HasUnmade shared.now }
    ensures { OnOk result (key.new.items ≡ key.old.items ++ shared_key shared.now) }
{
    let mut row = Vec::new(alloc);
    let made = shared.state.lists.made();
    shared.state.lists.are_apart();
    put_lists(&shared.state.lists, &mut row, key)?;
    put_holders(&shared.state.holders, key)?;
    put_sync(&shared.sync, made, &mut row, key)?;
    put_all_blocks(&shared.threads, key)?;
    put_works(&shared.works, made, &mut row, key)
}

// Adds the bytes of the threads of locks.
fn put_holders(holders: &[Option<ThreadNo>], key: &mut Vec<u8>) -> Result<(), AllocError>
    ensures { OnOk result (key.new.items ≡ key.old.items ++ padded is_none thread_key holders.now) }
{
    let kept = kept_threads(holders);
    put_number(key, holders.len() as u64)?;
    put_threads(&holders[..kept], key)?;
    Ok(())
}
