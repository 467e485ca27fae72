// The page.
ghost use Rattle.std.specs.Prelude.{◌≡◌, ◌++◌, Ok, IfOk, IfErr, OnOk};
ghost use Rattle.sa_trace.specs.Reading.{read_of, told};
ghost use Rattle.sa_page.specs.Said.{verdict_said};
ghost use Rattle.sa_page.specs.Page.{said_part, texts_part, said, IsPage, IsPrinted, HasNoPage};

use crate::ended::ending_said;
use crate::failing::failing_said;
use crate::lines::push_items;
use crate::said::push_verdict;
use crate::shell::{CELLS, SAID, TRACE, WORKLOAD, push_back, push_front};
use crate::shown::{Pair, push_shown};
use sa_base::{Bad, Item, RulesName, Unread};
use sa_cells::push_opening;
use sa_check::{Verdict, check};
use sa_spaces::Workload;
use sa_trace::{TraceText, read};
use sa_workload::print as workload_text;
use std::alloc::{AllocError, Global};

/// The most events of a trace that a page shows.
pub const MAX_EVENTS: u64 = 100_000;

/// The limit of pages, by number. It does nothing.
pub fn page_limits_are_these()
    ensures { MAX_EVENTS ≡ 100000 }
{}

/// Why there is no page.
#[derive(Clone, Copy)]
pub enum PageError {
    /// The bytes are no trace text.
    BadTrace(Bad),
    /// The trace has more events than a page may have.
    TooMuch,
    /// Memory ran out, or a count would not fit.
    OutOfMemory,
}

/// The text of the page of the trace of this text, beside its workload, by these rules.
pub fn page_of(
    alloc: Global,
    rules: RulesName,
    workload: &Workload,
    text: &[u8],
) -> Result<Vec<u8>, PageError>
    ensures ok { IfOk result (λ page. IsPage rules workload.now text.now page.items) }
    ensures err { IfErr result (HasNoPage text.now) }
{
    match read(alloc, text) {
        Ok(trace) => page_with(alloc, rules, workload, text, &trace),
        Err(Unread::Bad(bad)) => Err(PageError::BadTrace(bad)),
        Err(Unread::OutOfMemory) => Err(PageError::OutOfMemory),
    }
}

// The same, where the trace was read.
fn page_with(
    alloc: Global,
    rules: RulesName,
    workload: &Workload,
    text: &[u8],
    trace: &TraceText,
) -> Result<Vec<u8>, PageError>
    requires { read_of text.now ≡ Ok (told trace.now.trace.items trace.now.end trace.now.events) }
    ensures ok { IfOk result (λ page. IsPage rules workload.now text.now page.items) }
    ensures err { IfErr result (HasNoPage text.now) }
{
    if trace.events > MAX_EVENTS {
        return Err(PageError::TooMuch);
    }
    match check(alloc, rules, workload, text) {
        Ok(verdict) => match print(alloc, rules, workload, verdict, trace) {
            Ok(page) => Ok(page),
            Err(AllocError) => Err(PageError::OutOfMemory),
        },
        Err(Unread::Bad(bad)) => Err(PageError::BadTrace(bad)),
        Err(Unread::OutOfMemory) => Err(PageError::OutOfMemory),
    }
}

// The text of the page with this verdict.
fn print(
    alloc: Global,
    rules: RulesName,
    workload: &Workload,
    verdict: Verdict,
    trace: &TraceText,
) -> Result<Vec<u8>, AllocError>
    ensures { IfOk result (λ page. IsPrinted rules workload.now verdict
        (told trace.now.trace.items trace.now.end trace.now.events) page.items) }
{
    let failing = failing_said(alloc, rules, workload, verdict, trace.trace.items())?;
    let end = ending_said(
        alloc,
        rules,
        workload,
        trace.end,
        trace.events,
        trace.trace.items(),
    )?;
    let pair = Pair::start(alloc, rules, workload)?;
    let text = workload_text(alloc, workload)?;
    let mut out = Vec::new(alloc);
    push_front(&mut out)?;
    push_said(&mut out, alloc, rules, verdict, &failing, &end)?;
    push_texts(&mut out, alloc, workload, &text, trace.trace.items())?;
    out.extend_from_slice(CELLS)?;
    push_opening(&mut out, alloc, &pair.now)?;
    push_shown(&mut out, alloc, pair, trace.trace.items())?;
    push_back(&mut out)?;
    Ok(out)
}

// Appends the part that says of the whole trace the verdict, the record that breaks it, and the end.
#[tactic(auto, unfolding(crate::specs::Page::said_part))]
fn push_said(
    out: &mut Vec<u8>,
    alloc: Global,
    rules: RulesName,
    verdict: Verdict,
    failing: &[u8],
    end: &[u8],
) -> Result<(), AllocError>
    ensures { OnOk result (out.new.items ≡ out.old.items
        ++ said_part (verdict_said rules verdict) failing.now end.now) }
{
    out.extend_from_slice(SAID)?;
    push_verdict(out, alloc, rules, verdict)?;
    out.extend_from_slice(failing)?;
    out.extend_from_slice(end)
}

// Appends the parts of the workload, whose text this is, and of the trace.
#[tactic(auto, unfolding(crate::specs::Page::texts_part))]
fn push_texts(
    out: &mut Vec<u8>,
    alloc: Global,
    workload: &Workload,
    text: &[u8],
    items: &[Item],
) -> Result<(), AllocError>
    ensures { OnOk result (out.new.items ≡ out.old.items
        ++ texts_part text.now (said workload.now items.now)) }
{
    out.extend_from_slice(WORKLOAD)?;
    out.extend_from_slice(text)?;
    out.extend_from_slice(TRACE)?;
    push_items(out, alloc, workload, items)
}
