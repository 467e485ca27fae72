// The judge of one event.
ghost use Rattle.std.specs.Prelude.{◌≡◌, not, find, IfOk, IsTrue};
ghost use Rattle.sa_laws.specs.Opening.{IsNumbered};
ghost use Rattle.sa_laws.specs.Rules.{rules};
ghost use Rattle.sa_check_moment.specs.Seen.{seen};
ghost use Rattle.sa_check.specs.Items.{told_event};
ghost use Rattle.sa_check.specs.Quiet.{IsCalmIf, IsQuietAt, IsQuietFrom, WasSettled};
ghost use Rattle.sa_check.specs.Records.{ReadsRecords};
ghost use Rattle.sa_check.specs.Sides.{line_told};
ghost use Rattle.sa_check.specs.Findings.{found_of};
ghost use Rattle.sa_check.specs.Judged.{Judges, findings_of, judged_by};

use crate::begin::{Beginning, begin};
use crate::end::{Ending, LastTold, look_after};
use crate::event::TraceEvent;
use crate::findings::Findings;
use crate::is_numbered;
use crate::places::DueFound;
use crate::quiet::{is_known_quiet, read_quiet};
use crate::records::{ReadThrough, RecordsFound, read_records};
use sa_base::ActNo;
use sa_check_moment::Moment;
use sa_laws::Rule;
use std::alloc::{AllocError, Global};

/// The moment between two events, and whether it is calm: no line is due.
pub(crate) struct Between {
    pub(crate) moment: Moment,
    /// It is calm; where this is not known it is not set.
    pub(crate) calm: bool,
}

impl Between {
    /// Lets go of the moment.
    pub(crate) fn discard(self) {
        let Between { moment, calm: _ } = self;
        moment.discard();
    }
}

/// How an event was judged.
pub(crate) enum Judged {
    /// Each rule holds; what comes after it.
    Right(Between),
    /// The first rule that does not hold.
    Broken(Rule),
}

/// Judges an event on what comes before it, which the event before has left as it must be; the last line, if it is the
/// trace's last event.
pub(crate) fn judge(
    alloc: Global,
    before: Between,
    event: &TraceEvent,
    last: Option<LastTold>,
) -> Result<Judged, AllocError>
    requires settled { WasSettled (seen before.moment).workload (seen before.moment).readings }
    requires calm { IsCalmIf before.calm (seen before.moment).workload (seen before.moment).readings }
    ensures { IfOk result (Judges (seen before.moment) (told_event event.now) (line_told last)) }
{
    let Between { moment, calm } = before;
    let Ok(numbered) = is_numbered(alloc, &moment, event.number, event.proc, event.records) else {
        moment.discard();
        return Err(AllocError);
    };
    if !numbered {
        moment.discard();
        return Ok(Judged::Broken(Rule::Numbered));
    }
    if is_known_quiet(&moment, event, calm) {
        judge_event(alloc, moment, event, last, true)
    } else {
        judge_loud(alloc, moment, event, last)
    }
}

// Judges an event with the number and processor that it should have, which is not known to be quiet. It stays a call, since it is rare.
#[inline(never)]
fn judge_loud(
    alloc: Global,
    moment: Moment,
    event: &TraceEvent,
    last: Option<LastTold>,
) -> Result<Judged, AllocError>
    requires numbered { IsNumbered (seen moment).workload (seen moment).readings (told_event event.now) }
    ensures { IfOk result (Judges (seen moment) (told_event event.now) (line_told last)) }
{
    judge_event(alloc, moment, event, last, false)
}

// Judges an event with the number and processor that it should have, which is known to be quiet or not.
#[inline(always)]
fn judge_event(
    alloc: Global,
    moment: Moment,
    event: &TraceEvent,
    last: Option<LastTold>,
    quiet: bool,
) -> Result<Judged, AllocError>
    requires numbered { IsNumbered (seen moment).workload (seen moment).readings (told_event event.now) }
    requires settled { IsTrue quiet → WasSettled (seen moment).workload (seen moment).readings }
    requires quiet { IsTrue quiet → IsQuietAt (seen moment) (told_event event.now) }
    ensures { IfOk result (Judges (seen moment) (told_event event.now) (line_told last)) }
{
    let mut now = moment;
    let beginning = begin(&mut now, event, quiet);
    let start = beginning.start;
    let Some(through) = read_event(alloc, now, event, start.running, quiet)? else {
        return Ok(Judged::Broken(Rule::Stepwise));
    };
    let ReadThrough {
        moment: read,
        laws,
        due,
    } = through;
    let after = read.finish(event.number, event.proc, event.records, start, due.urged)?;
    let covered = due.covered;
    let Ok(ending) = look_after(alloc, &after, event.number, last, quiet, covered) else {
        after.discard();
        return Err(AllocError);
    };
    let findings = findings_of(event.number, beginning, laws, due, ending);
    let after = Between {
        moment: after,
        calm: ending.calm,
    };
    Ok(judge_by(&findings, after))
}

// Reads the records of an event that is known to be quiet or not, on the moment as it begins; this life ran before it. `None` exactly
// where one of them is no step of the abstract machine.
#[inline(always)]
fn read_event(
    alloc: Global,
    moment: Moment,
    event: &TraceEvent,
    running: Option<ActNo>,
    quiet: bool,
) -> Result<Option<ReadThrough>, AllocError>
    requires { IsTrue quiet → IsQuietFrom (seen moment) (told_event event.now) }
    ensures { IfOk result (ReadsRecords (seen moment) (told_event event.now) running) }
{
    if quiet {
        read_quiet(moment, event, running)
    } else {
        read_records(alloc, moment, event, running)
    }
}

// Which rules hold, by what was found before the event, at its records, and after it.
#[inline(always)]
fn findings_of(
    number: u64,
    beginning: Beginning,
    laws: RecordsFound,
    due: DueFound,
    ending: Ending,
) -> Findings
    ensures { result ≡ findings_of number beginning laws due ending }
{
    Findings {
        told_once: laws.told_once,
        told_in_time: ending.told_in_time,
        where_owned: laws.named && ending.owned,
        all_told: laws.all_told,
        upcall_given: laws.upcall_given,
        interrupt_next: beginning.interrupt_next,
        line_cause: laws.heard && beginning.lines && due.lines,
        want_cause: (number == 0 || due.wants) && ending.wants,
        shares_covered: ending.shares && due.aims,
        demand_announced: beginning.demand_announced,
        turns_taken: beginning.turns_taken,
        locks_kept: beginning.locks_kept,
        order_kept: beginning.order_kept,
        end_told: ending.end_told,
    }
}

// What an event comes to by what was found: what comes after it where each rule holds, or the first rule that does not.
#[inline(always)]
fn judge_by(findings: &Findings, after: Between) -> Judged
    ensures { result ≡ judged_by (find (λ rule. not (found_of findings.now rule)) rules) after }
{
    match findings.first_broken() {
        None => Judged::Right(after),
        Some(rule) => {
            after.discard();
            Judged::Broken(rule)
        }
    }
}
