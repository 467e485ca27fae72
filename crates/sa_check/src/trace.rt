ghost use Rattle.std.specs.Prelude.{◌≡◌, [], ◌∷◌, IfOk};
ghost use Rattle.sa_trace.specs.Reading.{read_of};
ghost use Rattle.sa_trace.specs.Reader.{left, in_front, with_said};
ghost use Rattle.sa_check_moment.specs.Seen.{seen, event};
ghost use Rattle.sa_ranks.specs.Packages.{rules_named};
ghost use Rattle.sa_check.specs.Sides.{line_told};
ghost use Rattle.sa_check.specs.Gathered.{line_said};
ghost use Rattle.sa_check.specs.Judged.{Judges};
ghost use Rattle.sa_check.specs.Quiet.{IsCalmIf, WasSettled};
ghost use Rattle.sa_check.specs.Verdict.{IsChecked, unless_bad};

use crate::end::LastTold;
use crate::event::{TraceEvent, gather};
use crate::judge::{Between, Judged, judge};
use crate::verdict::Verdict;
use sa_base::{Item, Record, RulesName, Unread};
use sa_check_moment::Moment;
use sa_laws::Rule;
use sa_spaces::Workload;
use sa_trace::{Reader, Said};
use std::alloc::{AllocError, Global};

/// What the trace text is beside the workload, by these rules: `Legal` exactly where it is right, and `Broken` with exactly
/// its first break. `Bad` exactly where these bytes are the text of no trace: a bad line comes before every break.
///
/// `OutOfMemory` where memory runs out, and where a semaphore's count would pass 2^32 - 1, or the I/Os begun 2^64 - 1.
/// Each event is judged as its lines are read, so memory does not grow with the number of items.
pub fn check(
    alloc: Global,
    rules: RulesName,
    workload: &Workload,
    text: &[u8],
) -> Result<Verdict, Unread>
    ensures { IsChecked (rules_named rules) workload.now (read_of text.now) result }
{
    let mut reader = Reader::new(text);
    match reader.next() {
        Ok(Said::Next(first)) => judge_events(alloc, rules, workload, &mut reader, first),
        Ok(Said::Last(..)) => Ok(Verdict::Broken {
            event: 0,
            rule: Rule::Numbered,
        }),
        Err(bad) => Err(Unread::Bad(bad)),
    }
}

// The verdict on the events of which this is the first item. After the first break, and where judging fails, the text is
// read on and no more is judged, since a bad line comes before these.
fn judge_events(
    alloc: Global,
    rules: RulesName,
    workload: &Workload,
    reader: &mut Reader,
    first: Item,
) -> Result<Verdict, Unread>
    ensures { IsChecked (rules_named rules) workload.now (in_front (first ∷ []) (left reader.old)) result }
{
    let mut now = Between {
        moment: Moment::start(alloc, rules, workload)?,
        calm: false,
    };
    let mut records = Vec::new(alloc);
    let mut said = Said::Next(first);
    while let Said::Next(item) = said {
        match gather(reader, &item, &mut records) {
            Ok(next) => said = next,
            Err(bad) => {
                now.discard();
                return Err(bad);
            }
        }
        match judge_records(alloc, now, &item, &records, last_told(&said)) {
            Ok(Judged::Right(after)) => now = after,
            Ok(Judged::Broken(rule)) => {
                let event = item.event;
                return unless_bad(reader, said, Ok(Verdict::Broken { event, rule }));
            }
            Err(AllocError) => return unless_bad(reader, said, Err(Unread::OutOfMemory)),
        }
    }
    now.discard();
    Ok(Verdict::Legal)
}

// Judges the event with these records, of which this is the first item, on what comes before it, which the event before
// has left as it must be; the last line, if it is the trace's last event.
fn judge_records(
    alloc: Global,
    before: Between,
    first: &Item,
    records: &[Record],
    last: Option<LastTold>,
) -> Result<Judged, AllocError>
    requires settled { WasSettled (seen before.moment).workload (seen before.moment).readings }
    requires calm { IsCalmIf before.calm (seen before.moment).workload (seen before.moment).readings }
    ensures { IfOk result (Judges (seen before.moment)
        (event first.now.event first.now.proc records.now) (line_told last)) }
{
    let event = TraceEvent {
        number: first.event,
        proc: first.proc,
        records,
    };
    judge(alloc, before, &event, last)
}

// What the last line tells, if this is said by it.
fn last_told(said: &Said) -> Option<LastTold>
    ensures { line_told result ≡ line_said said.now }
{
    match *said {
        Said::Next(_) => None,
        Said::Last(end, events) => Some(LastTold { end, events }),
    }
}

// What was found, unless one of the lines from the one that says this on is bad, which comes before what was found.
fn unless_bad(
    reader: &mut Reader,
    said: Said,
    found: Result<Verdict, Unread>,
) -> Result<Verdict, Unread>
    ensures { result ≡ unless_bad (with_said said (left reader.old)) found }
{
    let mut now = said;
    while let Said::Next(_) = now {
        match reader.next() {
            Ok(next) => now = next,
            Err(bad) => return Err(Unread::Bad(bad)),
        }
    }
    found
}
