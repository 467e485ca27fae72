// The bytes of ranks.
ghost use Rattle.std.specs.Prelude.{◌≡◌, ◌≤◌, ◌++◌, map, take, OnOk};
ghost use Rattle.std.specs.List.{range_with_len};
ghost use Rattle.sa_lists.specs.ReadyView.{rank_of};
ghost use Rattle.sa_package_keys.specs.Codes.{trimmed};
ghost use Rattle.sa_package_keys.specs.Packages.{is_zero, ranks_key};

use crate::put_number;
use sa_base::ThreadNo;
use sa_lists::ReadyLists;
use std::alloc::AllocError;

/// Adds the bytes of the ranks of all threads. Fails only where memory runs out.
pub(crate) fn put_ranks(lists: &ReadyLists, key: &mut Vec<u8>) -> Result<(), AllocError>
    ensures { OnOk result (key.new.items ≡ key.old.items ++ ranks_key lists.now.ranks lists.now.threads) }
{
    let kept = kept_ranks(lists);
    put_number(key, u64::from(kept))?;
    for t in 0..kept {
        put_number(key, u64::from(lists.rank(ThreadNo(t))))?;
    }
    Ok(())
}

// How many threads there are up to the last whose rank is not 0.
fn kept_ranks(lists: &ReadyLists) -> u16
    ensures within { result ≤ lists.now.threads }
    ensures kept { let ranks = map (rank_of lists.now.ranks) (range_with_len 0 lists.now.threads) in
        trimmed is_zero ranks ≡ take result ranks }
{
    for t in (0..lists.threads()).rev() {
        if lists.rank(ThreadNo(t)) != 0 {
            return t + 1;
        }
    }
    0
}
