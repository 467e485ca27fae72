// Numbers put one after another into lists.
ghost use Rattle.std.specs.Prelude.{◌≡◌, ℕ, ◌+◌, ◌≤◌, ◌<◌, ◌++◌, length, IfOk, OnOk};
ghost use Rattle.sa_base.specs.declared.limits.TheConstants.{MAX_PROCESSORS, MAX_SPACES};
ghost use Rattle.std.specs.List.{range_with_len};
ghost use Rattle.sa_links.specs.Lists.{count_in, count_in_all, list_at, with_list};
ghost use Rattle.sa_virtual.specs.Virtual.{of_place, of_places};
ghost use Rattle.sa_virtual.specs.Holding.{numbers};
ghost use Rattle.sa_vp_model.specs.Board.{act_numbers};

use crate::numbers::PLACES;
use sa_base::{ProcNo, ThreadNo};
use sa_links::Links;
use std::alloc::{AllocError, Global};

/// Puts threads, which are in no list, after the last of a list.
pub(crate) fn put_behind(links: &mut Links, l: ProcNo, threads: &[ThreadNo])
    requires list { l.0 < length links.old.lists }
    requires below { (u : ℕ) → 1 ≤ count_in u (numbers threads.now) → u < links.old.nodes }
    requires once { (u : ℕ) → count_in_all u links.old.lists + count_in u (numbers threads.now) ≤ 1 }
    ensures { links.new ≡ with_list links.old l.0 (list_at links.old.lists l.0 ++ numbers threads.now) }
{
    for t in threads {
        links.push_back(u32::from(l.0), u32::from(t.0));
    }
}

// The virtual processors of a place, one of each space, after those of the places before.
fn add_place(numbers: &mut Vec<u32>, spaces: u16, k: u16) -> Result<(), AllocError>
    requires spaces { spaces ≤ MAX_SPACES }
    requires place { k < MAX_PROCESSORS }
    ensures { OnOk result (numbers.new.items ≡ numbers.old.items ++ act_numbers (of_place spaces k)) }
{
    for s in 0..spaces {
        numbers.push(PLACES * u32::from(s) + u32::from(k))?;
    }
    Ok(())
}

/// The virtual processors in the order in which they wait at the opening.
pub(crate) fn opening_numbers(
    alloc: Global,
    spaces: u16,
    processors: u16,
) -> Result<Vec<u32>, AllocError>
    requires spaces { spaces ≤ MAX_SPACES }
    requires processors { processors ≤ MAX_PROCESSORS }
    ensures { IfOk result (λ numbers. numbers.items ≡ act_numbers (of_places spaces (range_with_len 0 processors))) }
{
    let mut numbers = Vec::new(alloc);
    for k in 0..processors {
        add_place(&mut numbers, spaces, k)?;
    }
    Ok(numbers)
}

/// Puts numbers, of which none comes twice, into a list where no list has one.
pub(crate) fn fill(links: &mut Links, numbers: &[u32])
    requires list { 1 ≤ length links.old.lists }
    requires below { (u : ℕ) → 1 ≤ count_in u numbers.now → u < links.old.nodes }
    requires once { (u : ℕ) → count_in_all u links.old.lists + count_in u numbers.now ≤ 1 }
    ensures { links.new ≡ with_list links.old 0 (list_at links.old.lists 0 ++ numbers.now) }
{
    for number in numbers {
        links.push_back(0, *number);
    }
}
