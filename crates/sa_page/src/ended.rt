// The end of a history, and the threads that wait there.
ghost use Rattle.std.specs.Prelude.{◌≡◌, ◌++◌, IfOk, OnOk};
ghost use Rattle.std.specs.Option.{option_map};
ghost use Rattle.sa_laws.specs.Event.{events_of};
ghost use Rattle.sa_check_moment.specs.Seen.{seen, opened};
ghost use Rattle.sa_cells.specs.declared.view.View.{View};
ghost use Rattle.sa_page.specs.Ended.{EndsAt, SaysEnd, last_said, threads_said, stuck_said};

mod circles;
mod counts;
mod waits;

use crate::advance::advance;
use crate::event::gather;
use crate::said::push_end;
use counts::push_counts;
use sa_base::{End, Item, RulesName};
use sa_cells::View;
use sa_check::TraceEvent;
use sa_replay::Replay;
use sa_spaces::Workload;
use sa_waits::waits as waits_of;
use std::alloc::{AllocError, Global};
use waits::push_waits;

/// What is said of the end of these items of a trace of this workload, which has this end after this many events: how the run
/// ended, and what its threads are there.
pub(crate) fn ending_said(
    alloc: Global,
    rules: RulesName,
    workload: &Workload,
    end: End,
    events: u64,
    items: &[Item],
) -> Result<Vec<u8>, AllocError>
    ensures { IfOk result (λ text. SaysEnd (opened rules workload.now) end events (events_of items.now) text.items) }
{
    let last = ended(alloc, View::start(alloc, rules, workload)?, items)?;
    let mut out = Vec::new(alloc);
    push_end(&mut out, end, events)?;
    push_last(&mut out, alloc, end, &last)?;
    Ok(out)
}

// Appends what the threads are at the end, if it is known, and who waits there, if the run is stuck.
fn push_last(
    out: &mut Vec<u8>,
    alloc: Global,
    end: End,
    last: &Option<View>,
) -> Result<(), AllocError>
    ensures { OnOk result (out.new.items ≡ out.old.items
        ++ last_said end (option_map (λ (view : View). seen view.moment) last.now)) }
{
    match last {
        None => out.extend_from_slice(b"\n"),
        Some(view) => push_threads(out, alloc, end, &view.replay),
    }
}

fn push_threads(
    out: &mut Vec<u8>,
    alloc: Global,
    end: End,
    replay: &Replay,
) -> Result<(), AllocError>
    ensures { OnOk result (out.new.items ≡ out.old.items ++ threads_said end replay.now.state) }
{
    push_counts(out, replay)?;
    out.extend_from_slice(b"\n")?;
    push_stuck(out, alloc, end, replay)
}

// Appends who waits, if this end is a stuck one.
fn push_stuck(out: &mut Vec<u8>, alloc: Global, end: End, replay: &Replay) -> Result<(), AllocError>
    ensures { OnOk result (out.new.items ≡ out.old.items ++ stuck_said end replay.now.state) }
{
    match end {
        End::Stuck => {
            let waits = waits_of(alloc, replay)?;
            push_waits(out, alloc, replay, &waits)
        }
        _ => Ok(()),
    }
}

// What is seen after these items, from the moment before them on. `None` exactly if one of their events is not stepwise.
fn ended(alloc: Global, view: View, items: &[Item]) -> Result<Option<View>, AllocError>
    ensures { IfOk result (λ last. EndsAt (seen view.moment) (events_of items.now)
        (option_map (λ (view : View). seen view.moment) last)) }
{
    let mut now = view;
    let mut rest = items;
    while let Some(next) = gather(alloc, rest)? {
        let event = TraceEvent {
            number: next.first.event,
            proc: next.first.proc,
            records: &next.records,
        };
        let Some(after) = advance(now, &event)? else {
            return Ok(None);
        };
        now = after;
        rest = next.rest;
    }
    Ok(Some(now))
}
