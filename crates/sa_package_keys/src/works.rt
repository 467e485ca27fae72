// The bytes of work lists.
ghost use Rattle.std.specs.Prelude.{◌≡◌, ℕ, ◌<◌, ◌≤◌, ◌++◌, [], length, take, OnOk};
ghost use Rattle.sa_base.specs.declared.limits.TheConstants.{MAX_THREADS};
ghost use Rattle.sa_links.specs.Lists.{list_at};
ghost use Rattle.sa_package_keys.specs.Codes.{number, list, padded, trimmed};
ghost use Rattle.sa_package_keys.specs.Packages.{is_empty};

use crate::{put_number, put_numbers};
use sa_base::{MAX_THREADS, ThreadNo};
use sa_fast::WorkLists;
use std::alloc::AllocError;

/// Adds the bytes of all work lists, where `made` threads were made: no other thread names one. `row` is for lists in between.
/// This and all below fail only where memory runs out.
pub(crate) fn put_works(
    works: &WorkLists,
    made: u16,
    row: &mut Vec<u32>,
    key: &mut Vec<u8>,
) -> Result<(), AllocError>
    requires all { length works.now ≡ MAX_THREADS }
    requires made { made ≤ MAX_THREADS }
    requires rest { (t : ℕ) → made ≤ t → list_at works.now t ≡ [] }
    ensures { OnOk result (key.new.items ≡ key.old.items ++ padded is_empty (list number) works.now) }
{
    let kept = kept_works(works, made);
    put_number(key, u64::from(MAX_THREADS))?;
    put_number(key, u64::from(kept))?;
    for t in 0..kept {
        put_work(works, ThreadNo(t), row, key)?;
    }
    Ok(())
}

// How many threads there are up to the last that names a list.
fn kept_works(works: &WorkLists, made: u16) -> u16
    requires all { length works.now ≡ MAX_THREADS }
    requires made { made ≤ MAX_THREADS }
    requires rest { (t : ℕ) → made ≤ t → list_at works.now t ≡ [] }
    ensures within { result ≤ MAX_THREADS }
    ensures kept { trimmed is_empty works.now ≡ take result works.now }
{
    for t in (0..made).rev() {
        if !works.is_empty(ThreadNo(t)) {
            return t + 1;
        }
    }
    0
}

// Adds the bytes of a work list.
fn put_work(
    works: &WorkLists,
    name: ThreadNo,
    row: &mut Vec<u32>,
    key: &mut Vec<u8>,
) -> Result<(), AllocError>
    requires { name.0 < MAX_THREADS }
    ensures { OnOk result (key.new.items ≡ key.old.items ++ list number (list_at works.now name.0)) }
{
    row.clear();
    works.copy_list(name, row)?;
    put_numbers(row.as_slice(), key)
}
