// What is said of the whole trace.
ghost use Rattle.std.specs.Prelude.{◌≡◌, ◌++◌, OnOk};
ghost use Rattle.sa_page.specs.Said.{demand_words, lock_words, order_words, rule_words, legal_words, breaks_at, broken_words, verdict_words, verdict_said, end_text, end_words, events_word, end_said};

use sa_base::{End, RulesName};
use sa_check::{Verdict, verdict_line, word};
use sa_laws::Rule;
use sa_text::print_number;
use sa_trace::end_word;
use std::alloc::{AllocError, Global};

// What stands around the event and the rule of a break.
const AT_EVENT: &[u8] = b"At event ";

const RULE: &[u8] = b" rule ";

const FAILS: &[u8] = b" does not hold: ";

/// Appends the line of the verdict, and what it says in words.
pub(crate) fn push_verdict(
    out: &mut Vec<u8>,
    alloc: Global,
    rules: RulesName,
    verdict: Verdict,
) -> Result<(), AllocError>
    ensures { OnOk result (out.new.items ≡ out.old.items ++ verdict_said rules verdict) }
{
    out.extend_from_slice(&verdict_line(alloc, rules, verdict)?)?;
    push_verdict_words(out, rules, verdict)
}

fn push_verdict_words(
    out: &mut Vec<u8>,
    rules: RulesName,
    verdict: Verdict,
) -> Result<(), AllocError>
    ensures { OnOk result (out.new.items ≡ out.old.items ++ verdict_words rules verdict) }
{
    match verdict {
        Verdict::Legal => out.extend_from_slice(legal_words(rules)),
        Verdict::Broken { event, rule } => push_broken(out, rules, event, rule),
    }
}

// That every rule holds.
fn legal_words(rules: RulesName) -> &'static [u8]
    ensures { result.now ≡ legal_words rules }
{
    match rules {
        RulesName::FastThreads => {
            b"Every rule of the kernel and of FastThreads holds at every event.\n"
        }
        RulesName::Priorities => {
            b"Every rule of the kernel and of thread priorities holds at every event.\n"
        }
        RulesName::Any =>
            b"Every rule of the kernel, and of any user level, holds at every event.\n",
    }
}

#[tactic(auto, unfolding(crate::specs::Said::broken_words))]
fn push_broken(
    out: &mut Vec<u8>,
    rules: RulesName,
    event: u64,
    rule: Rule,
) -> Result<(), AllocError>
    ensures { OnOk result (out.new.items ≡ out.old.items ++ broken_words rules event rule) }
{
    push_breaks_at(out, rules, event, rule)?;
    out.extend_from_slice(rule_words(rules, rule))?;
    out.extend_from_slice(b".\n")
}

// Appends that the rule does not hold at the event.
#[tactic(auto, unfolding(crate::specs::Said::breaks_at))]
fn push_breaks_at(
    out: &mut Vec<u8>,
    rules: RulesName,
    event: u64,
    rule: Rule,
) -> Result<(), AllocError>
    ensures { OnOk result (out.new.items ≡ out.old.items ++ breaks_at rules event rule) }
{
    out.extend_from_slice(AT_EVENT)?;
    print_number(event, out)?;
    out.extend_from_slice(RULE)?;
    out.extend_from_slice(word(rules, rule))?;
    out.extend_from_slice(FAILS)
}

// What a rule asks.
fn rule_words(rules: RulesName, rule: Rule) -> &'static [u8]
    ensures { result.now ≡ rule_words rules rule }
{
    match rule {
        Rule::Numbered => b"events are numbered from 0, and event 0 is the opening",
        Rule::Stepwise => b"each record is a step of the abstract machine of threads",
        Rule::ToldOnce => b"each stop, block and return is told at most once",
        Rule::ToldInTime => b"each stop, block and return is told in time",
        Rule::WhereOwned =>
            b"each processor is owned by the space of the activation that runs there, an upcall comes where none runs, and a stop or a block names the one that runs",
        Rule::AllTold => b"an upcall is in a fresh activation, and tells all",
        Rule::UpcallGiven => b"a block gives an upcall",
        Rule::InterruptNext =>
            b"a raised line is an interrupt at the next turn of its processor, and nothing else is",
        Rule::LineCause => b"a line has its cause",
        Rule::WantCause => b"a want has its cause",
        Rule::SharesCovered =>
            b"each space has at least its share of aims, and aims come in their order",
        Rule::DemandAnnounced => demand_words(rules),
        Rule::TurnsTaken =>
            b"an event is one of those that may come, with the records that belong to it",
        Rule::LocksKept => lock_words(rules),
        Rule::OrderKept => order_words(rules),
        Rule::EndTold => b"no event comes after the end, and the last line says it",
    }
}

// What is asked of demand.
fn demand_words(rules: RulesName) -> &'static [u8]
    ensures { result.now ≡ demand_words rules }
{
    match rules {
        RulesName::Priorities =>
            b"demand is announced, and a ready thread that outranks a running one of its space is not left waiting by a thread that goes on",
        _ => b"demand is announced",
    }
}

// What is asked of locks.
fn lock_words(rules: RulesName) -> &'static [u8]
    ensures { result.now ≡ lock_words rules }
{
    match rules {
        RulesName::FastThreads =>
            b"the lock of a list is held where a thread is put into it or taken from it, and by one at a time",
        RulesName::Priorities =>
            b"the lock of list 0 is held where a thread is put into it or taken from it, and by one at a time",
        RulesName::Any => b"a thread that is made ready or continued is heard of",
    }
}

// What is asked of the order of threads.
fn order_words(rules: RulesName) -> &'static [u8]
    ensures { result.now ≡ order_words rules }
{
    match rules {
        RulesName::Priorities =>
            b"a thread that runs is of the greatest rank, and of these the newest",
        _ => b"a thread that runs is the newest of its own list, or the oldest of another",
    }
}

// Appends how the run ended, and with how many events.
#[tactic(auto, unfolding(crate::specs::Said::end_text))]
fn push_end_line(out: &mut Vec<u8>, end: End, events: u64) -> Result<(), AllocError>
    ensures { OnOk result (out.new.items ≡ out.old.items ++ end_text end events) }
{
    out.extend_from_slice(b"end ")?;
    out.extend_from_slice(end_word(end))?;
    out.extend_from_slice(b" ")?;
    print_number(events, out)?;
    out.extend_from_slice(b"\n")
}

/// Appends the line that says how the run ended, and its words.
#[tactic(auto, unfolding(crate::specs::Said::end_said))]
pub(crate) fn push_end(out: &mut Vec<u8>, end: End, events: u64) -> Result<(), AllocError>
    ensures { OnOk result (out.new.items ≡ out.old.items ++ end_said end events) }
{
    push_end_line(out, end, events)?;
    out.extend_from_slice(end_words(end))?;
    print_number(events, out)?;
    out.extend_from_slice(events_word(events))
}

// What comes after the number of events.
fn events_word(events: u64) -> &'static [u8]
    ensures { result.now ≡ events_word events }
{
    if events == 1 { b" event." } else { b" events." }
}

// How a run ended, up to the number of its events.
fn end_words(end: End) -> &'static [u8]
    ensures { result.now ≡ end_words end }
{
    match end {
        End::AllDone => b"All threads are done, after ",
        End::Stuck => b"Threads wait, and nothing can happen any more, after ",
        End::Budget => b"The run was cut off, since its budget was spent, after ",
    }
}
