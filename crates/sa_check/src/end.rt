// What is found after an event.
ghost use Rattle.std.specs.Prelude.{◌↔◌, IfOk, IsTrue};
ghost use Rattle.sa_laws.specs.Ends.{EndIsTold};
ghost use Rattle.sa_check_moment.specs.Seen.{seen};
ghost use Rattle.sa_check.specs.Quiet.{IsCalm, IsKnownAfter};
ghost use Rattle.sa_check.specs.Sides.{IsEnding, line_told};

use crate::{are_lines_due, covers_shares, is_told_in_time, wants_nothing};
use sa_base::End;
use sa_check_moment::Moment;
use sa_check_rules::{each_runs_for_its_owner, is_told_end, run_goes_on};
use std::alloc::{AllocError, Global};

/// What the last line of a trace tells: how the run ended, and its number of events.
#[derive(Clone, Copy)]
pub(crate) struct LastTold {
    pub(crate) end: End,
    pub(crate) events: u64,
}

/// What was found after an event.
#[derive(Clone, Copy)]
pub(crate) struct Ending {
    pub(crate) told_in_time: bool,
    pub(crate) owned: bool,
    pub(crate) wants: bool,
    pub(crate) shares: bool,
    pub(crate) end_told: bool,
    pub(crate) calm: bool,
}

// What is found on the moment after a quiet event of this number; the last line, if it is the trace's last event.
// Owners, shares, wants and what is told in time are as they must be, and no line is due.
#[inline(always)]
fn settled_after(moment: &Moment, number: u64, last: Option<LastTold>) -> Ending
    requires { IsCalm (seen moment.now) number }
    ensures { IsEnding (seen moment.now) number (line_told last) result }
{
    Ending {
        told_in_time: true,
        owned: true,
        wants: true,
        shares: true,
        end_told: end_is_told(moment, number, last),
        calm: true,
    }
}

/// What is found on the moment after an event of this number; the last line, if it is the trace's last event. After a
/// quiet event only that is asked for, and where the shares are covered, they are not looked at.
#[inline(always)]
pub(crate) fn look_after(
    alloc: Global,
    moment: &Moment,
    number: u64,
    last: Option<LastTold>,
    quiet: bool,
    covered: bool,
) -> Result<Ending, AllocError>
    requires { IsKnownAfter quiet covered (seen moment.now) number }
    ensures { IfOk result (IsEnding (seen moment.now) number (line_told last)) }
{
    if quiet {
        return Ok(settled_after(moment, number, last));
    }
    Ok(Ending {
        told_in_time: is_told_in_time(moment),
        owned: each_runs_for_its_owner(moment),
        wants: wants_nothing(moment),
        shares: covered || covers_shares(moment, number),
        end_told: end_is_told(moment, number, last),
        calm: are_lines_due(alloc, moment, &[])?,
    })
}

// The run goes on, or the last line tells how it ended.
#[inline(always)]
fn end_is_told(moment: &Moment, number: u64, last: Option<LastTold>) -> bool
    ensures { IsTrue result ↔ EndIsTold (seen moment.now).readings number (line_told last) }
{
    match last {
        None => run_goes_on(moment),
        Some(told) => told.events == number && is_told_end(moment, told.end),
    }
}
