// Turns.
ghost use Rattle.std.specs.Prelude.{◌≡◌, ◌↔◌, IsTrue, is_some};
ghost use Rattle.sa_instr.specs.Local.{local_answer};
ghost use Rattle.sa_instr.specs.declared.answer.Local.TheVariants.{Went};
ghost use Rattle.sa_laws.specs.Readings.{Readings, line_of, owner_of};
ghost use Rattle.sa_laws.specs.History.{event_begun};
ghost use Rattle.sa_laws.specs.Turns.{IsTickOrStep, IsLocalIns, IsTurn, TurnsAreTaken};
ghost use Rattle.sa_ranks.specs.Packages.{rules_named};
ghost use Rattle.sa_check_moment.specs.Seen.{seen, event};

use crate::user_level::is_step;
use sa_base::{ProcNo, Record};
use sa_check_moment::Moment;
use sa_check_shapes::{closing_part, is_closing, is_interrupt, is_over, own_part, parted};
use sa_instr::Instr;

/// Turns and steps, at an event of this number and processor with these records, on the moment as it begins. `raised`:
/// the processor's line was raised before it.
#[inline(always)]
pub fn turns_are_taken(
    moment: &Moment,
    raised: bool,
    number: u64,
    p: ProcNo,
    records: &[Record],
) -> bool
    ensures { let m = seen moment.now in let e = event number p records.now in
        (r : Readings) → m.readings ≡ event_begun m.workload e r → raised ≡ is_some (line_of r p)
        → (IsTrue result ↔ TurnsAreTaken (rules_named m.rules).Steps m.workload r e) }
{
    number == 0
        || (is_turn(moment, raised, number, p, own_part(records))
            && is_closing(closing_part(records)))
}

// The first that applies of an interrupt, a completion, a tick, and a step.
#[inline(always)]
fn is_turn(moment: &Moment, raised: bool, number: u64, p: ProcNo, records: &[Record]) -> bool
    ensures { let m = seen moment.now in
        IsTrue result ↔ IsTurn (rules_named m.rules).Steps raised number m.workload m.readings p records.now }
{
    if raised {
        return is_interrupt(records);
    }
    match moment.due(number) {
        None => is_tick_or_step(moment, p, records),
        Some(kind) => {
            is_over(kind, records) || (is_local_ins(moment, records) && is_step(moment, p, records))
        }
    }
}

// A tick of a processor that nobody owns, else a step.
#[inline(always)]
fn is_tick_or_step(moment: &Moment, p: ProcNo, records: &[Record]) -> bool
    ensures { let m = seen moment.now in
        IsTrue result ↔ IsTickOrStep (rules_named m.rules).Steps (owner_of m.readings p) m.workload m.readings p records.now }
{
    if moment.owner(p).is_some() {
        return is_step(moment, p, records);
    }
    match parted(records) {
        Some((Record::Tick, others)) => others.is_empty(),
        _ => false,
    }
}

// A local instruction alone.
fn is_local_ins(moment: &Moment, records: &[Record]) -> bool
    ensures { let m = seen moment.now in IsTrue result ↔ IsLocalIns m.workload m.readings records.now }
{
    match parted(records) {
        Some((Record::Ins(s, t, place), others)) => {
            others.is_empty() && is_local(moment.instr_of(s, t, place))
        }
        _ => false,
    }
}

// The instruction stays within its thread.
fn is_local(instr: Instr) -> bool
    ensures { IsTrue result ↔ (local_answer instr ≡ Went) }
{
    match instr {
        Instr::Compute | Instr::Set(..) | Instr::Add(..) | Instr::Sub(..) | Instr::Jnz(..) => true,
        _ => false,
    }
}
