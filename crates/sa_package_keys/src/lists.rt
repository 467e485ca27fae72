// The bytes of ready lists and their locks.
ghost use Rattle.std.specs.Prelude.{◌≡◌, ◌<◌, ◌++◌, length, OnOk};
ghost use Rattle.sa_lists.specs.ReadyView.{list_of};
ghost use Rattle.sa_package_keys.specs.Codes.{number, flag, list};
ghost use Rattle.sa_package_keys.specs.Packages.{lists_key};

use crate::{put_flag, put_number, put_numbers};
use sa_base::ProcNo;
use sa_lists::ReadyLists;
use std::alloc::AllocError;

/// Adds the bytes of the lists and locks, without ranks. `row` is for lists in between. This and all below fail only where
/// memory runs out.
pub(crate) fn put_lists(
    lists: &ReadyLists,
    row: &mut Vec<u32>,
    key: &mut Vec<u8>,
) -> Result<(), AllocError>
    ensures { OnOk result (key.new.items ≡ key.old.items ++ lists_key lists.now) }
{
    put_all_ready(lists, row, key)?;
    put_locks(lists, key)?;
    put_number(key, u64::from(lists.made()))?;
    put_number(key, u64::from(lists.threads()))
}

// Adds the bytes of each list.
fn put_all_ready(
    lists: &ReadyLists,
    row: &mut Vec<u32>,
    key: &mut Vec<u8>,
) -> Result<(), AllocError>
    ensures { OnOk result (key.new.items ≡ key.old.items ++ list (list number) lists.now.lists) }
{
    let count = lists.count();
    put_number(key, u64::from(count))?;
    for l in 0..count {
        put_ready(lists, ProcNo(l), row, key)?;
    }
    Ok(())
}

// Adds the bytes of the threads in a list.
fn put_ready(
    lists: &ReadyLists,
    l: ProcNo,
    row: &mut Vec<u32>,
    key: &mut Vec<u8>,
) -> Result<(), AllocError>
    requires { l.0 < length lists.now.lists }
    ensures { OnOk result (key.new.items ≡ key.old.items ++ list number (list_of lists.now l.0)) }
{
    row.clear();
    lists.copy_list(l, row)?;
    put_numbers(row.as_slice(), key)
}

// Adds the bytes of each lock.
fn put_locks(lists: &ReadyLists, key: &mut Vec<u8>) -> Result<(), AllocError>
    ensures { OnOk result (key.new.items ≡ key.old.items ++ list flag lists.now.locked) }
{
    lists.are_apart();
    let count = lists.count();
    put_number(key, u64::from(count))?;
    for l in 0..count {
        put_flag(key, lists.is_locked(ProcNo(l)))?;
    }
    Ok(())
}
