// The text of a verdict.
ghost use Rattle.std.specs.Prelude.{◌≡◌, ◌==◌, ◌++◌, IfOk, OnOk};
ghost use Rattle.std.specs.List.{list_any};
ghost use Rattle.toga_verdict.specs.Verdict.{end_line, last_line, legal_text, break_line, broken_words, broken_text, verdict_text};

use crate::lines::push_lines_near;
use crate::source::Source;
use crate::words::push_heard;
use sa_base::{End, Item, RulesName};
use sa_check::{Verdict, word};
use sa_laws::Rule;
use sa_text::print_number;
use sa_trace::{TraceText, end_word};
use std::alloc::{AllocError, Global};
use toga_explain::rule_text;

/// What the verdict of these rules on a trace says: that every rule is kept, or which is broken at which event, what it asks, and
/// the lines of that event and of the two before it with their words. Its only error is want of memory.
pub fn verdict_text(
    alloc: Global,
    rules: RulesName,
    source: &Source,
    told: &TraceText,
    verdict: Verdict,
) -> Result<Vec<u8>, AllocError>
    ensures { IfOk result (λ text. text.items ≡ verdict_text rules source.now told.now.trace.items told.now.end told.now.events verdict) }
{
    let mut out = Vec::new(alloc);
    match verdict {
        Verdict::Legal => push_legal(&mut out, told.events)?,
        Verdict::Broken { event, rule } => {
            push_broken(&mut out, alloc, rules, source, told, event, rule)?
        }
    }
    Ok(out)
}

// Appends that every rule is kept.
fn push_legal(out: &mut Vec<u8>, events: u64) -> Result<(), AllocError>
    ensures { OnOk result (out.new.items ≡ out.old.items ++ legal_text events) }
{
    push_heard(
        out,
        b"Legal: a run of the source that keeps every rule, ",
        events,
        b" events.\n",
    )
}

// Appends that a rule is broken, what it asks, and the lines that show it.
#[tactic(auto, unfolding(crate::specs::Verdict::broken_text))]
fn push_broken(
    out: &mut Vec<u8>,
    alloc: Global,
    rules: RulesName,
    source: &Source,
    told: &TraceText,
    event: u64,
    rule: Rule,
) -> Result<(), AllocError>
    ensures { OnOk result (out.new.items
        ≡ out.old.items ++ broken_text rules source.now told.now.trace.items told.now.end told.now.events event rule) }
{
    push_broken_words(out, rules, event, rule)?;
    push_lines_near(out, alloc, source, event, told.trace.items())?;
    push_last_line(out, event, told.trace.items(), told.end, told.events)
}

// Appends that a rule is broken, and what it asks.
#[tactic(auto, unfolding(crate::specs::Verdict::broken_words))]
fn push_broken_words(
    out: &mut Vec<u8>,
    rules: RulesName,
    event: u64,
    rule: Rule,
) -> Result<(), AllocError>
    ensures { OnOk result (out.new.items ≡ out.old.items ++ broken_words rules event rule) }
{
    push_break_line(out, rules, event, rule)?;
    out.extend_from_slice(rule_text(rules, rule))?;
    out.extend_from_slice(b"\n\n")
}

// Appends the line that says which rule is broken at which event.
#[tactic(auto, unfolding(crate::specs::Verdict::break_line))]
fn push_break_line(
    out: &mut Vec<u8>,
    rules: RulesName,
    event: u64,
    rule: Rule,
) -> Result<(), AllocError>
    ensures { OnOk result (out.new.items ≡ out.old.items ++ break_line rules event rule) }
{
    out.extend_from_slice(b"Not legal: event ")?;
    print_number(event, out)?;
    out.extend_from_slice(b" breaks rule ")?;
    out.extend_from_slice(word(rules, rule))?;
    out.extend_from_slice(b".\n")
}

// Appends the first three words of the last line, if no item is of the event.
fn push_last_line(
    out: &mut Vec<u8>,
    event: u64,
    items: &[Item],
    end: End,
    events: u64,
) -> Result<(), AllocError>
    ensures { OnOk result (out.new.items ≡ out.old.items ++ last_line event items.now end events) }
{
    if is_told(event, items) {
        return Ok(());
    }
    push_end_line(out, end, events)
}

// Some item is of the event.
fn is_told(event: u64, items: &[Item]) -> bool
    ensures { result ≡ list_any (λ i. i.event == event) items.now }
{
    items.iter().any(|item| item.event == event)
}

// Appends the first three words of the last line.
#[tactic(auto, unfolding(crate::specs::Verdict::end_line))]
fn push_end_line(out: &mut Vec<u8>, end: End, events: u64) -> Result<(), AllocError>
    ensures { OnOk result (out.new.items ≡ out.old.items ++ end_line end events) }
{
    out.extend_from_slice(b"> end ")?;
    out.extend_from_slice(end_word(end))?;
    out.extend_from_slice(b" ")?;
    print_number(events, out)?;
    out.extend_from_slice(b"\n")
}
