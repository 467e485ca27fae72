// The places in an event at which wants, aims and lines are due.
ghost use Rattle.std.specs.Prelude.{◌≡◌, ◌↔◌, true, false, length, IfOk, IsTrue};
ghost use Rattle.sa_laws.specs.Shape.{before_wants, before_aims, front_part, own_part};
ghost use Rattle.sa_check_moment.specs.Seen.{seen};
ghost use Rattle.sa_check.specs.Items.{told_event};
ghost use Rattle.sa_check.specs.Places.{AimsAreDue, HasShares, DueMore};

use crate::aims::aims_due;
use crate::event::TraceEvent;
use crate::{are_lines_due, are_wants_due, covers_shares};
use sa_base::{ActNo, Record};
use sa_check_moment::Moment;
use sa_check_shapes::{
    are_aims, before_aims, before_wants, front_part, has_aims, last_lines, others_of, own_part,
};
use std::alloc::{AllocError, Global};

/// Behind how many records of an event wants, aims and lines are due, and its own part ends.
#[derive(Clone, Copy)]
pub(crate) struct Places {
    pub(crate) wants: usize,
    pub(crate) aims: usize,
    pub(crate) lines: usize,
    pub(crate) own: usize,
}

impl Places {
    /// Those of these records.
    pub(crate) fn of(records: &[Record]) -> Self
        ensures wants { result.wants ≡ length (before_wants records.now) }
        ensures aims { result.aims ≡ length (before_aims records.now) }
        ensures lines { result.lines ≡ length (front_part records.now) }
        ensures own { result.own ≡ length (own_part records.now) }
    {
        Places {
            wants: before_wants(records).len(),
            aims: before_aims(records).len(),
            lines: front_part(records).len(),
            own: own_part(records).len(),
        }
    }
}

/// The wants, aims and lines of an event are those that are due at their places; at the last place that was looked at
/// each space is known to have its share of aims; and behind its own part, by rules of ranks, a pair existed of the
/// space of the life that ran before it.
#[derive(Clone, Copy)]
pub(crate) struct DueFound {
    pub(crate) wants: bool,
    pub(crate) aims: bool,
    pub(crate) covered: bool,
    pub(crate) lines: bool,
    pub(crate) urged: bool,
}

impl DueFound {
    /// Before any place.
    pub(crate) fn new() -> Self
        ensures wants { result.wants ≡ true }
        ensures aims { result.aims ≡ true }
        ensures covered { result.covered ≡ false }
        ensures lines { result.lines ≡ true }
    {
        DueFound {
            wants: true,
            aims: true,
            covered: false,
            lines: true,
            urged: false,
        }
    }

    /// The same at this place, on the moment there; this life ran before the event.
    pub(crate) fn and(
        self,
        alloc: Global,
        moment: &Moment,
        event: &TraceEvent,
        running: Option<ActNo>,
        places: Places,
        place: usize,
    ) -> Result<Self, AllocError>
        ensures { IfOk result
            (DueMore (seen moment.now) (told_event event.now) running places place self) }
    {
        let records = event.records;
        let wants = if place == places.wants {
            are_wants_due(alloc, moment, others_of(records))?
        } else {
            self.wants
        };
        let aims = if place == places.aims {
            find_aims(alloc, moment, event)?
        } else {
            AimsFound {
                due: self.aims,
                covered: false,
            }
        };
        let lines = if place == places.lines {
            are_lines_due(alloc, moment, last_lines(records))?
        } else {
            self.lines
        };
        let urged = if place == places.own {
            moment.is_urged(running)
        } else {
            self.urged
        };
        Ok(DueFound {
            wants,
            aims: aims.due,
            covered: aims.covered,
            lines,
            urged,
        })
    }
}

// The aims of an event are those that are due, and whether each space has its share of aims without them.
#[derive(Clone, Copy)]
struct AimsFound {
    due: bool,
    covered: bool,
}

// This is found of the event, on the moment at the place of its aims. Where each space has its share none is due.
fn find_aims(alloc: Global, moment: &Moment, event: &TraceEvent) -> Result<AimsFound, AllocError>
    ensures due { IfOk result (λ found. IsTrue found.due ↔ AimsAreDue (seen moment.now) (told_event event.now)) }
    ensures covered { IfOk result (λ found. IsTrue found.covered → HasShares (seen moment.now) event.now.number) }
{
    if covers_shares(moment, event.number) {
        return Ok(AimsFound {
            due: !has_aims(event.records),
            covered: true,
        });
    }
    let due = aims_due(alloc, moment, event.number)?;
    Ok(AimsFound {
        due: are_aims(event.records, due.as_slice()),
        covered: false,
    })
}
