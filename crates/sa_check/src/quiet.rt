// Events that change nothing of which owners, shares, wants and what is told in time are.
ghost use Rattle.std.specs.Prelude.{◌≡◌, true, IfOk};
ghost use Rattle.std.specs.List.{list_all};
ghost use Rattle.sa_check_moment.specs.Seen.{seen};
ghost use Rattle.sa_check.specs.Items.{told_event};
ghost use Rattle.sa_check.specs.Quiet.{is_quiet_record, keeps_first, is_quiet, IsCalmIf, IsQuietAt, IsQuietFrom};
ghost use Rattle.sa_check.specs.Records.{ReadsRecords};

use crate::event::TraceEvent;
use crate::first_space;
use crate::places::DueFound;
use crate::records::{ReadThrough, RecordsFound};
use sa_base::{ActNo, Record};
use sa_check_moment::Moment;
use sa_spaces::Workload;
use std::alloc::AllocError;

/// The event is quiet, and no line is due before it. Where it is not known that none is due, this is not said of it.
pub(crate) fn is_known_quiet(moment: &Moment, event: &TraceEvent, calm: bool) -> bool
    requires { IsCalmIf calm (seen moment.now).workload (seen moment.now).readings }
    ensures { result ≡ true → IsQuietAt (seen moment.now) (told_event event.now) }
{
    calm && is_quiet(moment, event)
}

// The event changes nothing of these, its processor's line is low, and the space that is served first is that of the
// event before.
fn is_quiet(moment: &Moment, event: &TraceEvent) -> bool
    ensures { let m = seen moment.now in result ≡ is_quiet m.workload m.readings (told_event event.now) }
{
    moment.line(event.proc).is_none()
        && keeps_first(moment.workload(), event.number)
        && are_quiet(event.records)
}

// The space that is served first is that of the event before, if there was one.
fn keeps_first(workload: &Workload, number: u64) -> bool
    ensures { result ≡ keeps_first workload.now number }
{
    number > 0 && first_space(workload, number - 1) == first_space(workload, number)
}

// Each of the records is quiet.
fn are_quiet(records: &[Record]) -> bool
    ensures { result ≡ list_all is_quiet_record records.now }
{
    for what in records {
        if !is_quiet_record(what) {
            return false;
        }
    }
    true
}

// The record changes no demand, no aim, no line, no I/O under way, no owner, nothing untold, and neither which lives run
// nor their spaces.
fn is_quiet_record(what: &Record) -> bool
    ensures { result ≡ is_quiet_record what.now }
{
    matches!(
        *what,
        Record::Ins(..)
            | Record::Out(..)
            | Record::Run(..)
            | Record::Cont(..)
            | Record::Back(..)
            | Record::Ready(..)
            | Record::Take(..)
            | Record::Free(..)
            | Record::Idle
            | Record::Spin(_)
            | Record::Tick
    )
}

/// Reads the records of a quiet event, on the moment as it begins, at which no want, no aim and no line is due. `None`
/// exactly where one of them is no step of the abstract machine.
#[inline(always)]
pub(crate) fn read_quiet(
    moment: Moment,
    event: &TraceEvent,
    running: Option<ActNo>,
) -> Result<Option<ReadThrough>, AllocError>
    requires { IsQuietFrom (seen moment) (told_event event.now) }
    ensures { IfOk result (ReadsRecords (seen moment) (told_event event.now) running) }
{
    let records = event.records;
    let mut now = moment;
    for what in records {
        if !now.allows(event.proc, what) {
            now.discard();
            return Ok(None);
        }
        now = now.read(event.number, event.proc, what)?;
    }
    Ok(Some(ReadThrough {
        moment: now,
        laws: RecordsFound::new(),
        due: DueFound::new(),
    }))
}
