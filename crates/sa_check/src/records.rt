// What is found while the records of an event are read.
ghost use Rattle.std.specs.Prelude.{◌≡◌, true, IfOk};
ghost use Rattle.sa_check_moment.specs.Seen.{seen};
ghost use Rattle.sa_check.specs.Items.{told_event};
ghost use Rattle.sa_check.specs.Records.{FoundMore, ReadsRecords};

use crate::event::TraceEvent;
use crate::places::{DueFound, Places};
use sa_base::{ActNo, ProcNo, Record};
use sa_check_moment::Moment;
use sa_check_rules::{gives_upcall, names_the_life, raises_line, tells_all, tells_once};
use std::alloc::{AllocError, Global};

/// Of each law of records: it held of each so far.
#[derive(Clone, Copy)]
pub(crate) struct RecordsFound {
    pub(crate) told_once: bool,
    pub(crate) named: bool,
    pub(crate) all_told: bool,
    pub(crate) upcall_given: bool,
    pub(crate) heard: bool,
}

impl RecordsFound {
    /// Before any record.
    pub(crate) fn new() -> Self
        ensures told_once { result.told_once ≡ true }
        ensures named { result.named ≡ true }
        ensures all_told { result.all_told ≡ true }
        ensures upcall_given { result.upcall_given ≡ true }
        ensures heard { result.heard ≡ true }
    {
        RecordsFound {
            told_once: true,
            named: true,
            all_told: true,
            upcall_given: true,
            heard: true,
        }
    }

    // The same of one record more, on the moment before it; `rest` comes after it.
    fn and(self, moment: &Moment, p: ProcNo, what: &Record, rest: &[Record]) -> Self
        ensures { FoundMore (seen moment.now).readings p what.now rest.now self result }
    {
        RecordsFound {
            told_once: self.told_once && tells_once(moment, what),
            named: self.named && names_the_life(moment, p, what),
            all_told: self.all_told && tells_all(moment, p, what, rest),
            upcall_given: self.upcall_given && gives_upcall(moment, p, what, rest),
            heard: self.heard && raises_line(moment, what, rest),
        }
    }
}

/// The moment after the records of an event, and what was found on the way.
pub(crate) struct ReadThrough {
    pub(crate) moment: Moment,
    pub(crate) laws: RecordsFound,
    pub(crate) due: DueFound,
}

/// Reads the records of an event, on the moment as it begins; this life ran before it. `None` exactly where one of them is no step of the
/// abstract machine.
pub(crate) fn read_records(
    alloc: Global,
    moment: Moment,
    event: &TraceEvent,
    running: Option<ActNo>,
) -> Result<Option<ReadThrough>, AllocError>
    ensures { IfOk result (ReadsRecords (seen moment) (told_event event.now) running) }
{
    let records = event.records;
    let places = Places::of(records);
    let mut now = moment;
    let mut laws = RecordsFound::new();
    let mut due = DueFound::new();
    for (i, what) in records.iter().enumerate() {
        let Ok(more) = due.and(alloc, &now, event, running, places, i) else {
            now.discard();
            return Err(AllocError);
        };
        due = more;
        if !now.allows(event.proc, what) {
            now.discard();
            return Ok(None);
        }
        laws = laws.and(&now, event.proc, what, &records[i + 1..]);
        now = now.read(event.number, event.proc, what)?;
    }
    let Ok(due) = due.and(alloc, &now, event, running, places, records.len()) else {
        now.discard();
        return Err(AllocError);
    };
    Ok(Some(ReadThrough {
        moment: now,
        laws,
        due,
    }))
}
