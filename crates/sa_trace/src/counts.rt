// How many records of each kind a trace has.
ghost use Rattle.std.specs.Prelude.{◌≡◌, ◌+◌, ◌<◌};
ghost use Rattle.sa_trace.specs.TraceText.{counts_of, kind_number};

use crate::kind::RECORD_KINDS;
use sa_base::{Item, Record};

/// The counts of the kinds, in the order of their numbers.
pub fn kind_counts(items: &[Item]) -> [u64; RECORD_KINDS]
    ensures { result ≡ counts_of items.now }
{
    let mut counts = [0; RECORD_KINDS];
    for item in items {
        counts[place(&item.what)] += 1;
    }
    counts
}

/// The place of the record's kind among the counts.
pub(crate) fn place(what: &Record) -> usize
    ensures place { result + 1 ≡ kind_number what.now }
    ensures within { result < RECORD_KINDS }
{
    match *what {
        Record::Ins(..) => 0,
        Record::Out(..) => 1,
        Record::Run(..) => 2,
        Record::Stop(..) => 3,
        Record::Block(..) => 4,
        Record::Unblock(..) => 5,
        Record::Cont(..) => 6,
        Record::Back(..) => 7,
        Record::Ready(..) => 8,
        Record::Take(..) => 9,
        Record::Free(..) => 10,
        Record::Up(..) => 11,
        Record::Told(_) => 12,
        Record::Move(..) => 13,
        Record::Want(..) => 14,
        Record::Aim(..) => 15,
        Record::Line(_) => 16,
        Record::Fetch(_) => 17,
        Record::Fetched(_) => 18,
        Record::GiveBack(_) => 19,
        Record::Idle => 20,
        Record::Spin(_) => 21,
        Record::Tick => 22,
    }
}
