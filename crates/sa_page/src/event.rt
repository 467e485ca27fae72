// The events of a trace.
ghost use Rattle.std.specs.Prelude.{◌≡◌, ◌∷◌, ◌≤◌, ◌<◌, length, map, IfOk};
ghost use Rattle.std.specs.List.{prefix_len};
ghost use Rattle.sa_check.specs.Items.{is_with, what_of};
ghost use Rattle.sa_page.specs.Gathered.{IsGathered, Gathers};

use sa_base::{Item, Record};
use sa_check::is_with;
use sa_check_shapes::parted;
use std::alloc::{AllocError, Global};

/// The event with which some items begin, and the items after it.
#[derive(Drop)]
pub(crate) struct Gathered<'a> {
    pub(crate) first: Item,
    pub(crate) records: Vec<Record>,
    pub(crate) rest: &'a [Item],
}

/// Gathers the event with which the items begin: `None` exactly where there is no item.
pub(crate) fn gather(alloc: Global, items: &[Item]) -> Result<Option<Gathered>, AllocError>
    ensures { IfOk result (Gathers items.now) }
{
    match parted(items) {
        None => Ok(None),
        Some((first, others)) => {
            let gathered = gather_with(alloc, first, others)?;
            Ok(Some(gathered))
        }
    }
}

// The event that begins with this item, of which these may be the others.
fn gather_with(alloc: Global, first: Item, others: &[Item]) -> Result<Gathered, AllocError>
    ensures { IfOk result (IsGathered first others.now) }
{
    let len = with_first(&first, others);
    let records = records_of(alloc, &first, &others[..len])?;
    Ok(Gathered {
        first,
        records,
        rest: &others[len..],
    })
}

// How many of the items are of one event with the first.
fn with_first(first: &Item, items: &[Item]) -> usize
    ensures len { result ≡ prefix_len (is_with first.now) items.now }
    ensures within { result ≤ length items.now }
{
    for (i, item) in items.iter().enumerate() {
        if !is_with(first, item) {
            return i;
        }
    }
    items.len()
}

// The records of an event that begins with this item, and has these.
fn records_of(alloc: Global, first: &Item, others: &[Item]) -> Result<Vec<Record>, AllocError>
    ensures { IfOk result (λ records. records.items ≡ first.now.what ∷ map what_of others.now) }
{
    let mut records = Vec::with_capacity(alloc, 1)?;
    records.push(first.what)?;
    for item in others {
        records.push(item.what)?;
    }
    Ok(records)
}
