// Which events an entry of the kernel closes.
ghost use Rattle.std.specs.Prelude.{◌≡◌};
ghost use Rattle.std.specs.List.{list_any};
ghost use Rattle.sa_ranks.specs.Inside.{is_of_entry, has_entry};

use sa_base::Record;

/// An entry of the kernel closes an event with these records: it begins with a hint, or with a line that was asked for, or
/// a record of an entry is among them.
pub(crate) fn has_entry(records: &[Record]) -> bool
    ensures { result ≡ has_entry records.now }
{
    match records {
        [Record::Want(..) | Record::Line(_), ..] => true,
        _ => some_is_of_entry(records),
    }
}

// A record of an entry is among them.
fn some_is_of_entry(records: &[Record]) -> bool
    ensures { result ≡ list_any is_of_entry records.now }
{
    for what in records {
        if is_of_entry(what) {
            return true;
        }
    }
    false
}

fn is_of_entry(what: &Record) -> bool
    ensures { result ≡ is_of_entry what.now }
{
    matches!(
        *what,
        Record::Stop(..)
            | Record::Block(..)
            | Record::Unblock(..)
            | Record::Up(..)
            | Record::Move(..)
            | Record::Fetched(_)
            | Record::GiveBack(_)
    )
}
