// The opening and the numbering of events.
ghost use Rattle.std.specs.Prelude.{◌≡◌, ◌++◌, ◌↔◌, slice_set, IsTrue, IfOk, OnOk};
ghost use Rattle.std.specs.Option.{option_to_list};
ghost use Rattle.sa_assign.specs.Reaim.{line_at, line_records, raised, records_of};
ghost use Rattle.sa_laws.specs.Opening.{IsNumbered, first_wants, opening_records, opening_event};
ghost use Rattle.sa_check_shapes.specs.Due.{changes_of};
ghost use Rattle.sa_check_moment.specs.Seen.{seen, event};
ghost use Rattle.sa_check.specs.Wanting.{wanting};

use crate::aims::aims_due;
use crate::closing_records::{add, are_same};
use sa_base::{ProcNo, Record, RulesName, SpaceNo};
use sa_check_moment::Moment;
use sa_check_shapes::Aimed;
use sa_spaces::Workload;
use std::alloc::{AllocError, Global};

/// The event's number is that of the next event, its processor is one of the machine, it has some record, and event 0 is
/// the opening. Fails only where memory runs out.
pub(crate) fn is_numbered(
    alloc: Global,
    moment: &Moment,
    number: u64,
    p: ProcNo,
    records: &[Record],
) -> Result<bool, AllocError>
    ensures { IfOk result (λ held. IsTrue held
        ↔ IsNumbered (seen moment.now).workload (seen moment.now).readings (event number p records.now)) }
{
    if number != moment.number() || p.0 >= moment.workload().processors() || records.is_empty() {
        return Ok(false);
    }
    if number != 0 {
        return Ok(true);
    }
    is_opening(alloc, moment.workload(), p, records)
}

// An event 0 of this processor with these records is the opening.
fn is_opening(
    alloc: Global,
    workload: &Workload,
    p: ProcNo,
    records: &[Record],
) -> Result<bool, AllocError>
    ensures { IfOk result (λ held. IsTrue held ↔ (event 0 p records.now ≡ opening_event workload.now)) }
{
    if p.0 != 0 {
        return Ok(false);
    }
    let opening = opening_records(alloc, workload)?;
    Ok(are_same(records, opening.as_slice()))
}

// The records of the opening.
fn opening_records(alloc: Global, workload: &Workload) -> Result<Vec<Record>, AllocError>
    ensures { IfOk result (λ records. records.items ≡ opening_records workload.now) }
{
    let wanting = wanting(alloc, workload)?;
    let records = opening_after(alloc, workload, &wanting);
    wanting.discard();
    records
}

// The same, where this is the moment after the wants.
fn opening_after(
    alloc: Global,
    workload: &Workload,
    moment: &Moment,
) -> Result<Vec<Record>, AllocError>
    requires { seen moment.now ≡ wanting workload.now }
    ensures { IfOk result (λ records. records.items ≡ opening_records workload.now) }
{
    let mut records = first_wants(alloc, workload)?;
    let due = aims_due(alloc, moment, 0)?;
    let mut lines = Vec::from_slice(alloc, moment.lines())?;
    add_raised(&mut records, 0, &mut lines, due.as_slice())?;
    Ok(records)
}

// Each space wants one processor.
fn first_wants(alloc: Global, workload: &Workload) -> Result<Vec<Record>, AllocError>
    ensures { IfOk result (λ records. records.items ≡ first_wants workload.now) }
{
    let mut records = Vec::new(alloc);
    for s in 0..workload.spaces().len() {
        records.push(Record::Want(SpaceNo(s as u16), 1))?;
    }
    Ok(records)
}

// The moment after these wants; it is the same by all rules.
fn wanting(alloc: Global, workload: &Workload) -> Result<Moment, AllocError>
    ensures { IfOk result (λ m. seen m ≡ wanting workload.now) }
{
    let mut moment = Moment::start(alloc, RulesName::FastThreads, workload)?;
    for s in 0..workload.spaces().len() {
        moment = moment.read(0, ProcNo(0), &Record::Want(SpaceNo(s as u16), 1))?;
    }
    Ok(moment)
}

// Adds the records of these aims at the event, each with its line where that is low.
fn add_raised(
    records: &mut Vec<Record>,
    number: u64,
    lines: &mut Vec<Option<u64>>,
    due: &[Aimed],
) -> Result<(), AllocError>
    ensures { OnOk result (records.new.items
        ≡ records.old.items ++ records_of number lines.old.items (changes_of due.now)) }
{
    for aimed in due {
        records.push(Record::Aim(aimed.proc, Some(aimed.space)))?;
        add(records, raise(number, lines, aimed.proc))?;
    }
    Ok(())
}

// The event raises the line of the processor; the record of that, where it was low. It is low where there is no such processor.
fn raise(number: u64, lines: &mut Vec<Option<u64>>, p: ProcNo) -> Option<Record>
    ensures told { option_to_list result ≡ line_records p.0 (line_at lines.old.items p.0) }
    ensures raised { lines.new.items
        ≡ slice_set lines.old.items p.0 (raised number (line_at lines.old.items p.0)) }
{
    if let Some(line) = lines.get_mut(usize::from(p.0)) {
        if line.is_some() {
            return None;
        }
        *line = Some(number);
    }
    Some(Record::Line(p))
}
