// What is found as an event begins.
ghost use Rattle.std.specs.Prelude.{◌≡◌, ◌↔◌, true, is_some, IsTrue};
ghost use Rattle.sa_laws.specs.Readings.{running_of, line_of};
ghost use Rattle.sa_ranks.specs.Packages.{rules_named};
ghost use Rattle.sa_check_moment.specs.Seen.{seen, at_event, lowers};
ghost use Rattle.sa_check.specs.Items.{told_event};
ghost use Rattle.sa_check.specs.Quiet.{is_quiet};
ghost use Rattle.sa_check.specs.Sides.{IsBeginning, LinesAreInPlace};

use crate::event::TraceEvent;
use sa_base::{ProcNo, Record};
use sa_check_moment::{Moment, Start};
use sa_check_rules::{
    demand_is_announced, first_is_asked, interrupt_is_next, locks_are_kept, order_is_kept,
    turns_are_taken,
};
use sa_check_shapes::{has_aims, last_lines};

/// What was found before an event and as it begins, and what its end will need.
#[derive(Clone, Copy)]
pub(crate) struct Beginning {
    pub(crate) start: Start,
    pub(crate) demand_announced: bool,
    pub(crate) order_kept: bool,
    pub(crate) interrupt_next: bool,
    pub(crate) turns_taken: bool,
    pub(crate) locks_kept: bool,
    pub(crate) lines: bool,
}

/// An event begins. One that is known to be quiet has no line and no aim, and its processor's line is low.
#[inline(always)]
pub(crate) fn begin(moment: &mut Moment, event: &TraceEvent, quiet: bool) -> Beginning
    requires { let m = seen moment.old in
        IsTrue quiet → is_quiet m.workload m.readings (told_event event.now) ≡ true }
    ensures event_begun { seen moment.new ≡ at_event event.now.number event.now.proc (seen moment.old) }
    ensures running { result.start.running ≡ running_of (seen moment.old).readings event.now.proc }
    ensures lowers { result.start.lowers ≡ lowers (seen moment.old).readings event.now.records.now }
    ensures found { IsBeginning (seen moment.old) (told_event event.now) result }
{
    if quiet {
        return begin_by(moment, event, false, true);
    }
    let raised = moment.line(event.proc).is_some();
    let lines = lines_are_in_place(moment, event.proc, event.records);
    begin_by(moment, event, raised, lines)
}

// An event begins, of which is known whether the line of its processor is raised, and whether its lines are in place.
#[inline(always)]
fn begin_by(moment: &mut Moment, event: &TraceEvent, raised: bool, lines: bool) -> Beginning
    requires raised { raised ≡ is_some (line_of (seen moment.old).readings event.now.proc) }
    requires lines { let m = seen moment.old in
        IsTrue lines ↔ LinesAreInPlace (rules_named m.rules).Lines m.workload m.readings event.now.proc event.now.records.now }
    ensures event_begun { seen moment.new ≡ at_event event.now.number event.now.proc (seen moment.old) }
    ensures running { result.start.running ≡ running_of (seen moment.old).readings event.now.proc }
    ensures lowers { result.start.lowers ≡ lowers (seen moment.old).readings event.now.records.now }
    ensures found { IsBeginning (seen moment.old) (told_event event.now) result }
{
    let number = event.number;
    let p = event.proc;
    let records = event.records;
    let start = moment.before(p, records);
    let demand_announced = demand_is_announced(moment, number, p, records);
    let order_kept = order_is_kept(moment, p, records);
    moment.begin(number, p);
    Beginning {
        start,
        demand_announced,
        order_kept,
        interrupt_next: interrupt_is_next(moment, raised, number, p, records),
        turns_taken: turns_are_taken(moment, raised, number, p, records),
        locks_kept: locks_are_kept(moment, number, p, records),
        lines,
    }
}

// A line with which the event begins is asked for, and no aim comes after the first of the last lines.
fn lines_are_in_place(moment: &Moment, p: ProcNo, records: &[Record]) -> bool
    ensures { let m = seen moment.now in
        IsTrue result ↔ LinesAreInPlace (rules_named m.rules).Lines m.workload m.readings p records.now }
{
    first_is_asked(moment, p, records) && !has_aims(last_lines(records))
}
