// The rules of any user level: its table of steps, the lines that it may ask for, and which threads it may name.
ghost use Rattle.std.specs.Prelude.{◌≡◌, ◌↔◌, ◌∷◌, IsTrue};
ghost use Rattle.sa_laws.specs.Any.{CanHintAny, IsOnList, CanInterrupt, IsAloneIn, AnyStepBy, IsAnyStep, AnyLines, NamesHeard};
ghost use Rattle.sa_check_moment.specs.Seen.{seen};

use crate::life::carried_by;
use crate::table::give_back;
use sa_base::{ProcNo, Record, SpaceNo, ThreadNo};
use sa_check_lives::KeptLife;
use sa_check_moment::Moment;
use sa_check_shapes::{is_ins_of, is_passage, parted};

/// The records are those of a step of the life that runs on the processor.
pub(crate) fn is_any_step(moment: &Moment, p: ProcNo, records: &[Record]) -> bool
    ensures { let m = seen moment.now in
        IsTrue result ↔ IsAnyStep m.workload m.readings p records.now }
{
    match moment.life_on(p) {
        None => false,
        Some(life) => match parted(records) {
            None => false,
            Some((first, others)) => is_step_of(moment, p, life, first, others, records),
        },
    }
}

/// The user level may ask for the line of this processor: it is low.
pub(crate) fn asks_for_any(moment: &Moment, p: ProcNo, q: ProcNo) -> bool
    ensures { let m = seen moment.now in IsTrue result ↔ AnyLines m.workload m.readings p q }
{
    let _own = p;
    moment.line(q).is_none()
}

/// A thread that is made ready or continued is heard of.
pub(crate) fn names_heard(moment: &Moment, records: &[Record]) -> bool
    ensures { IsTrue result ↔ NamesHeard (seen moment.now).readings records.now }
{
    match parted(records) {
        None => true,
        Some((first, others)) => first_is_heard(moment, first, others),
    }
}

// The thread is heard of that the first of these records makes ready or continues, if it does.
fn first_is_heard(moment: &Moment, first: Record, others: &[Record]) -> bool
    ensures { IsTrue result ↔ NamesHeard (seen moment.now).readings (first ∷ others.now) }
{
    let _others = others;
    match first {
        Record::Ready(s, t) => moment.is_heard(s, t),
        Record::Cont(s, Some(t)) => moment.is_heard(s, t),
        _ => true,
    }
}

// The records are those of a step of this life, which begins with the first of them.
fn is_step_of(
    moment: &Moment,
    p: ProcNo,
    life: &KeptLife,
    first: Record,
    others: &[Record],
    records: &[Record],
) -> bool
    requires { records.now ≡ first ∷ others.now }
    ensures { let m = seen moment.now in
        IsTrue result ↔ AnyStepBy m.workload m.readings p life.now first others.now }
{
    match first {
        Record::Ins(s, t, place) => is_ins_of(moment.instr_of(s, t, place), others),
        Record::Block(..) => is_passage(others),
        Record::GiveBack(_) => give_back(records, moment.taken(life.space())),
        _ => others.is_empty() && is_alone(moment, p, life, first),
    }
}

// The record is a step by itself.
fn is_alone(moment: &Moment, p: ProcNo, life: &KeptLife, what: Record) -> bool
    ensures { let m = seen moment.now in
        IsTrue result ↔ IsAloneIn m.workload m.readings p life.now what }
{
    match what {
        Record::Run(s, _) => s == life.space(),
        Record::Ready(s, _) => s == life.space(),
        Record::Cont(s, _) => s == life.space(),
        Record::Back(s, _) => s == life.space(),
        Record::Take(s, l, t) => is_on_list(moment, life, s, l, t),
        Record::Free(s, l, t) => is_on_list(moment, life, s, l, t),
        Record::Spin(l) => l.0 < moment.workload().processors(),
        Record::Want(s, n) => s == life.space() && can_hint(moment, s, n),
        Record::Line(q) => can_interrupt(moment, p, life, q),
        Record::Idle => true,
        _ => false,
    }
}

// An operation on a list that a processor has, by the thread of the life.
fn is_on_list(moment: &Moment, life: &KeptLife, s: SpaceNo, l: ProcNo, t: Option<ThreadNo>) -> bool
    ensures { let m = seen moment.now in IsTrue result ↔ IsOnList m.workload m.readings life.now s l t }
{
    s == life.space() && l.0 < moment.workload().processors() && t == carried_by(moment, life)
}

// A hint raises the demand to at most the processors, or lowers it by one.
fn can_hint(moment: &Moment, s: SpaceNo, n: u16) -> bool
    ensures { let m = seen moment.now in IsTrue result ↔ CanHintAny m.workload m.readings s n }
{
    let demand = moment.demand(s);
    (demand < n && n <= moment.workload().processors()) || u32::from(n) + 1 == u32::from(demand)
}

// The other processor of the space can be interrupted: its line is low.
fn can_interrupt(moment: &Moment, p: ProcNo, life: &KeptLife, q: ProcNo) -> bool
    ensures { IsTrue result ↔ CanInterrupt (seen moment.now).readings p life.now q }
{
    q != p && moment.owner(q) == Some(life.space()) && moment.line(q).is_none()
}
