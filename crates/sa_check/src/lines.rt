// The lines that are due.
ghost use Rattle.std.specs.Prelude.{◌≡◌, ◌↔◌, not, is_none, IfOk, IsTrue};
ghost use Rattle.sa_assign.specs.Aims.{is_aim, least_below};
ghost use Rattle.sa_laws.specs.Closing.{will_tell, can_be_raised, lines_due};
ghost use Rattle.sa_laws.specs.Shape.{lines_in};
ghost use Rattle.sa_check_moment.specs.Seen.{seen};
ghost use Rattle.sa_check.specs.Each.{line_for};

use crate::closing_records::add;
use sa_base::{ProcNo, Record, SpaceNo};
use sa_check_moment::Moment;
use sa_check_shapes::are_lines;
use std::alloc::{AllocError, Global};

/// The lines among the records are those that are due: for each space that must be told something and would be told it
/// nowhere, that of its lowest-numbered processor with a low line, if it owns one. Fails only where memory runs out.
pub(crate) fn are_lines_due(
    alloc: Global,
    moment: &Moment,
    records: &[Record],
) -> Result<bool, AllocError>
    ensures { IfOk result (λ held. IsTrue held ↔ (lines_in records.now
        ≡ lines_due (seen moment.now).workload (seen moment.now).readings)) }
{
    let mut due = Vec::new(alloc);
    for s in 0..moment.workload().spaces().len() {
        add(&mut due, line_for(moment, SpaceNo(s as u16)))?;
    }
    Ok(are_lines(records, due.as_slice()))
}

// The line that is due of the space: of one that must be told something, whose upcall page is not being fetched, and
// that would be told it nowhere.
fn line_for(moment: &Moment, s: SpaceNo) -> Option<Record>
    ensures { result ≡ line_for (seen moment.now).workload (seen moment.now).readings s }
{
    if moment.untold(s).is_empty() || moment.is_fetching(s) || is_told_somewhere(moment, s) {
        return None;
    }
    let p = lowest_low(moment, s)?;
    Some(Record::Line(ProcNo(p)))
}

// Some processor of the space, with a raised line, is aimed at it.
fn is_told_somewhere(moment: &Moment, s: SpaceNo) -> bool
    ensures { let m = seen moment.now in
        not result ≡ is_none (least_below m.workload.processors (will_tell m.readings s)) }
{
    for p in 0..moment.workload().processors() {
        if will_tell(moment, s, ProcNo(p)) {
            return true;
        }
    }
    false
}

// The lowest-numbered processor of the space with a low line.
fn lowest_low(moment: &Moment, s: SpaceNo) -> Option<u16>
    ensures { let m = seen moment.now in
        result ≡ least_below m.workload.processors (can_be_raised m.readings s) }
{
    for p in 0..moment.workload().processors() {
        if can_be_raised(moment, s, ProcNo(p)) {
            return Some(p);
        }
    }
    None
}

// The processor of the space, with a raised line, is aimed at it.
fn will_tell(moment: &Moment, s: SpaceNo, p: ProcNo) -> bool
    ensures { result ≡ will_tell (seen moment.now).readings s p.0 }
{
    is_at(s, moment.owner(p)) && is_at(s, moment.aim(p)) && moment.line(p).is_some()
}

// The processor is of the space, and its line is low.
fn can_be_raised(moment: &Moment, s: SpaceNo, p: ProcNo) -> bool
    ensures { result ≡ can_be_raised (seen moment.now).readings s p.0 }
{
    is_at(s, moment.owner(p)) && moment.line(p).is_none()
}

// It is this space.
fn is_at(s: SpaceNo, of: Option<SpaceNo>) -> bool
    ensures { result ≡ is_aim s.0 of }
{
    match of {
        None => false,
        Some(t) => t.0 == s.0,
    }
}
