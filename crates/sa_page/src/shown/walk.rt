// The walk along a trace.
ghost use Rattle.std.specs.Prelude.{◌≡◌, ◌++◌, OnOk, IfOk};
ghost use Rattle.sa_laws.specs.Event.{events_of};
ghost use Rattle.sa_check_moment.specs.Seen.{seen};
ghost use Rattle.sa_check.specs.Items.{told_event};
ghost use Rattle.sa_page.specs.Shown.{stop_line, WritesShown, ShowsOne};

use crate::advance::advance;
use crate::event::gather;
use crate::shown::Pair;
use sa_base::Item;
use sa_cells::{push_changes, push_ups};
use sa_check::TraceEvent;
use sa_text::print_number;
use std::alloc::{AllocError, Global};

/// Appends what each event of these items changes, from this moment on, up to the first that is not stepwise.
pub(crate) fn push_shown(
    out: &mut Vec<u8>,
    alloc: Global,
    pair: Pair,
    items: &[Item],
) -> Result<(), AllocError>
    ensures { OnOk result (WritesShown (seen pair.now.moment) pair.ups.items (events_of items.now)
        out.old.items out.new.items) }
{
    let mut pair = pair;
    let mut rest = items;
    while let Some(next) = gather(alloc, rest)? {
        let event = TraceEvent {
            number: next.first.event,
            proc: next.first.proc,
            records: &next.records,
        };
        match push_event(out, alloc, pair, &event)? {
            Some(after) => pair = after,
            None => return push_stop(out, event.number),
        }
        rest = next.rest;
    }
    Ok(())
}

// Appends what the event changes. `None` exactly where it is not stepwise.
fn push_event(
    out: &mut Vec<u8>,
    alloc: Global,
    pair: Pair,
    event: &TraceEvent,
) -> Result<Option<Pair>, AllocError>
    ensures { IfOk result (ShowsOne (seen pair.now.moment) pair.ups.items (told_event event.now)
        out.old.items out.new.items) }
{
    let Pair {
        before,
        now,
        mut ups,
    } = pair;
    let Some(now) = advance(now, event)? else {
        return Ok(None);
    };
    push_ups(&mut ups, event.records)?;
    push_changes(
        out,
        alloc,
        event.number,
        event.proc,
        &ups,
        &before,
        &now,
        event.records,
    )?;
    let Some(before) = advance(before, event)? else {
        return Ok(None);
    };
    Ok(Some(Pair { before, now, ups }))
}

// Appends that the page ends with this event.
#[tactic(auto, unfolding(crate::specs::Shown::stop_line))]
fn push_stop(out: &mut Vec<u8>, event: u64) -> Result<(), AllocError>
    ensures { OnOk result (out.new.items ≡ out.old.items ++ stop_line event) }
{
    print_number(event, out)?;
    out.extend_from_slice(b" page.end no step of the machine\n")
}
