// The record that breaks a rule.
ghost use Rattle.std.specs.Prelude.{◌≡◌, ◌↔◌, ◌++◌, IfOk, IsTrue, OnOk};
ghost use Rattle.sa_laws.specs.Event.{events_of};
ghost use Rattle.sa_check_moment.specs.Seen.{seen, opened};
ghost use Rattle.sa_check.specs.Items.{told_event};
ghost use Rattle.sa_page.specs.Failing.{HoldsOf, failing_record, FailsFrom, FailsIn, FailsAt, record_line, record_words, record_said, SaysFailing};

use crate::advance::advance;
use crate::event::gather;
use sa_base::{Item, ProcNo, Record, RulesName};
use sa_cells::View;
use sa_check::{TraceEvent, Verdict};
use sa_check_moment::Moment;
use sa_check_rules::{gives_upcall, names_the_life, raises_line, tells_all, tells_once};
use sa_laws::Rule;
use sa_spaces::Workload;
use sa_text::print_number;
use sa_trace::append_line;
use std::alloc::{AllocError, Global};

/// A record that breaks a rule: its place among the records of its event, from 0 on, and its item.
#[derive(Clone, Copy)]
pub(crate) struct Failing {
    place: usize,
    item: Item,
}

// What is said if no one record breaks the rule.
const NO_RECORD: &[u8] =
    b"record -\nNo one record of the event breaks it: the event as a whole does.\n";

// What comes before the line of the record that breaks it.
const BREAKS_IT: &[u8] = b"The record that breaks it: ";

/// What is said of the record that breaks the rule of this verdict on these items of a trace of this workload.
pub(crate) fn failing_said(
    alloc: Global,
    rules: RulesName,
    workload: &Workload,
    verdict: Verdict,
    items: &[Item],
) -> Result<Vec<u8>, AllocError>
    ensures { IfOk result (λ text. SaysFailing (opened rules workload.now) verdict (events_of items.now) text.items) }
{
    match verdict {
        Verdict::Legal => Ok(Vec::new(alloc)),
        Verdict::Broken { event, rule } => {
            let start = View::start(alloc, rules, workload)?;
            said_of(alloc, failing_at(alloc, start, items, event, rule)?)
        }
    }
}

// What is said of this record, or of none.
fn said_of(alloc: Global, found: Option<Failing>) -> Result<Vec<u8>, AllocError>
    ensures { IfOk result (λ text. text.items ≡ record_said found) }
{
    let mut out = Vec::new(alloc);
    match found {
        None => out.extend_from_slice(NO_RECORD)?,
        Some(failing) => push_failing(&mut out, &failing)?,
    }
    Ok(out)
}

fn push_failing(out: &mut Vec<u8>, failing: &Failing) -> Result<(), AllocError>
    ensures { OnOk result (out.new.items
        ≡ out.old.items ++ (record_line failing.now ++ record_words failing.now)) }
{
    push_place(out, failing)?;
    push_item(out, failing)
}

#[tactic(auto, unfolding(crate::specs::Failing::record_line))]
fn push_place(out: &mut Vec<u8>, failing: &Failing) -> Result<(), AllocError>
    ensures { OnOk result (out.new.items ≡ out.old.items ++ record_line failing.now) }
{
    out.extend_from_slice(b"record ")?;
    print_number(failing.place as u64, out)?;
    out.extend_from_slice(b"\n")
}

#[tactic(auto, unfolding(crate::specs::Failing::record_words))]
fn push_item(out: &mut Vec<u8>, failing: &Failing) -> Result<(), AllocError>
    ensures { OnOk result (out.new.items ≡ out.old.items ++ record_words failing.now) }
{
    out.extend_from_slice(BREAKS_IT)?;
    append_line(out, &failing.item)
}

// The record that breaks the rule in the event of this number, from the moment before the items on.
fn failing_at(
    alloc: Global,
    start: View,
    items: &[Item],
    number: u64,
    rule: Rule,
) -> Result<Option<Failing>, AllocError>
    ensures { IfOk result (FailsAt rule number (seen start.moment) (events_of items.now)) }
{
    let mut now = start;
    let mut rest = items;
    while let Some(next) = gather(alloc, rest)? {
        let event = TraceEvent {
            number: next.first.event,
            proc: next.first.proc,
            records: &next.records,
        };
        if event.number == number {
            return failing_in(now, &event, rule);
        }
        let Some(after) = advance(now, &event)? else {
            return Ok(None);
        };
        now = after;
        rest = next.rest;
    }
    Ok(None)
}

// The record that breaks the rule in this event, from the moment before it on.
fn failing_in(start: View, event: &TraceEvent, rule: Rule) -> Result<Option<Failing>, AllocError>
    ensures { IfOk result (FailsIn rule (seen start.moment) (told_event event.now)) }
{
    let begun = start.begin(event.number, event.proc);
    failing_of(begun, event, rule)
}

// The same from the moment on as the event begins.
fn failing_of(start: View, event: &TraceEvent, rule: Rule) -> Result<Option<Failing>, AllocError>
    ensures { IfOk result (FailsFrom rule (seen start.moment) (told_event event.now) 0 event.now.records.now) }
{
    let records = event.records;
    let mut now = start;
    for (i, what) in records.iter().enumerate() {
        if !holds_of(&now.moment, event.proc, rule, what, &records[i + 1..]) {
            return Ok(Some(failing_record(event, i, *what)));
        }
        if !now.moment.allows(event.proc, what) {
            return Ok(None);
        }
        now = now.read(event.number, event.proc, what)?;
    }
    Ok(None)
}

fn failing_record(event: &TraceEvent, place: usize, what: Record) -> Failing
    ensures { result ≡ failing_record (told_event event.now) place what }
{
    Failing {
        place,
        item: Item {
            event: event.number,
            proc: event.proc,
            what,
        },
    }
}

// The record is as the rule asks, on the moment before it; `rest` comes after it.
fn holds_of(moment: &Moment, p: ProcNo, rule: Rule, what: &Record, rest: &[Record]) -> bool
    ensures { let m = seen moment.now in
        IsTrue result ↔ HoldsOf rule m.workload p m.readings what.now rest.now }
{
    match rule {
        Rule::Stepwise => moment.allows(p, what),
        Rule::ToldOnce => tells_once(moment, what),
        Rule::WhereOwned => names_the_life(moment, p, what),
        Rule::AllTold => tells_all(moment, p, what, rest),
        Rule::UpcallGiven => gives_upcall(moment, p, what, rest),
        Rule::LineCause => raises_line(moment, what, rest),
        _ => true,
    }
}
