// What a user level brings to the rules, by whose rules the trace is judged: its table of steps, the lines that it asks
// for, and what it says of demand, of list locks and of the order of ready lists.
ghost use Rattle.std.specs.Prelude.{◌≡◌, ◌≢◌, ◌↔◌, ℕ, Some, IsTrue};
ghost use Rattle.sa_laws.specs.Readings.{Readings, owner_of};
ghost use Rattle.sa_laws.specs.History.{event_begun};
ghost use Rattle.sa_laws.specs.Upcalls.{IsOwnLine, FirstLineIsAsked};
ghost use Rattle.sa_ranks.specs.Packages.{rules_named};
ghost use Rattle.sa_check_moment.specs.Seen.{seen, event};

use crate::any::{asks_for_any, is_any_step, names_heard};
use crate::demand::is_announced;
use crate::locks::list_locks_are_kept;
use crate::order::lists_are_in_order;
use crate::ranks::{asks_for, is_ranked_step, pairs_are_served, rank_is_kept, the_lock_is_kept};
use crate::table::is_fast_step;
use sa_base::{ProcNo, Record, RulesName, SpaceNo};
use sa_check_moment::Moment;

/// Demand is announced, and what else the user level says of it: at an event of this number and processor with these
/// records, on the moment before it.
#[inline(always)]
pub fn demand_is_announced(moment: &Moment, number: u64, p: ProcNo, records: &[Record]) -> bool
    ensures { let m = seen moment.now in
        IsTrue result ↔ (rules_named m.rules).Demand m.workload m.readings (event number p records.now) }
{
    match moment.rules() {
        RulesName::FastThreads => is_announced(moment, number, p, records),
        RulesName::Priorities => pairs_are_served(moment, number, p, records),
        RulesName::Any => true,
    }
}

/// List locks, at an event of this number and processor with these records, on the moment as it begins.
#[inline(always)]
pub fn locks_are_kept(moment: &Moment, number: u64, p: ProcNo, records: &[Record]) -> bool
    ensures { let m = seen moment.now in let e = event number p records.now in
        (r : Readings) → m.readings ≡ event_begun m.workload e r
        → (IsTrue result ↔ (rules_named m.rules).Locks m.workload r e) }
{
    match moment.rules() {
        RulesName::FastThreads => list_locks_are_kept(moment, number, p, records),
        RulesName::Priorities => the_lock_is_kept(moment, number, p, records),
        RulesName::Any => names_heard(moment, records),
    }
}

/// The order of ready lists, at an event of this processor with these records, on the moment before it.
#[inline(always)]
pub fn order_is_kept(moment: &Moment, p: ProcNo, records: &[Record]) -> bool
    ensures { let m = seen moment.now in (number : ℕ)
        → (IsTrue result ↔ (rules_named m.rules).Order m.workload m.readings (event number p records.now)) }
{
    match moment.rules() {
        RulesName::FastThreads => lists_are_in_order(moment, p, records),
        RulesName::Priorities => rank_is_kept(moment, records),
        RulesName::Any => true,
    }
}

/// If an event of the processor begins with a line, the user level asks for it, on the moment before the event.
pub fn first_is_asked(moment: &Moment, p: ProcNo, records: &[Record]) -> bool
    ensures { let m = seen moment.now in
        IsTrue result ↔ FirstLineIsAsked (rules_named m.rules).Lines m.workload m.readings p records.now }
{
    match records {
        [Record::Line(q), ..] => is_own_line(moment, p, *q),
        _ => true,
    }
}

// The line is that of another processor of the same space, and the user level asks for it.
fn is_own_line(moment: &Moment, p: ProcNo, q: ProcNo) -> bool
    ensures { let m = seen moment.now in
        IsTrue result ↔ IsOwnLine (rules_named m.rules).Lines m.workload m.readings p q }
{
    match moment.owner(p) {
        None => false,
        Some(s) => is_own_line_in(moment, p, q, s),
    }
}

// The same, where this space owns the processor.
fn is_own_line_in(moment: &Moment, p: ProcNo, q: ProcNo, s: SpaceNo) -> bool
    ensures { let m = seen moment.now in
        IsTrue result ↔ ((q ≢ p) × (owner_of m.readings q ≡ Some s)
        × (rules_named m.rules).Lines m.workload m.readings p q) }
{
    q != p && moment.owner(q) == Some(s) && is_asked(moment, p, q)
}

// The user level asks for the line of the other processor.
fn is_asked(moment: &Moment, p: ProcNo, q: ProcNo) -> bool
    ensures { let m = seen moment.now in
        IsTrue result ↔ (rules_named m.rules).Lines m.workload m.readings p q }
{
    match moment.rules() {
        RulesName::FastThreads => false,
        RulesName::Priorities => asks_for(moment, p, q),
        RulesName::Any => asks_for_any(moment, p, q),
    }
}

/// The records are those of a step of the processor, by the user level's table.
#[inline(always)]
pub(crate) fn is_step(moment: &Moment, p: ProcNo, records: &[Record]) -> bool
    ensures { let m = seen moment.now in
        IsTrue result ↔ (rules_named m.rules).Steps m.workload m.readings p records.now }
{
    match moment.rules() {
        RulesName::FastThreads => is_fast_step(moment, p, records),
        RulesName::Priorities => is_ranked_step(moment, p, records),
        RulesName::Any => is_any_step(moment, p, records),
    }
}
