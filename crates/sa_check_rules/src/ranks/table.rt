// The table of steps with thread priorities: the rows that differ from FastThreads', and the two of urge.
ghost use Rattle.std.specs.Prelude.{◌≡◌, ◌↔◌, Some, IsTrue, nat_lt};
ghost use Rattle.sa_laws.specs.Readings.{demand_of};
ghost use Rattle.sa_ranks.specs.Steps.{CanSpin, FindsNone, CanLower, CanHint, CanIdle, IsOutranked, GivesWay, BacksBy, RankedStepIn, IsRankedStep};
ghost use Rattle.sa_base.specs.declared.package.RulesName.TheVariants.{Priorities};
ghost use Rattle.sa_check_moment.specs.Seen.{seen};

use crate::life::{carried_by, has_no_lock, has_nothing, patience};
use crate::ranks::THE_LIST;
use crate::ranks::lines::interrupts;
use crate::table::{can_raise, is_step_of};
use sa_base::{ActNo, ProcNo, Record, SpaceNo, ThreadNo};
use sa_check_lives::KeptLife;
use sa_check_moment::Moment;
use sa_check_shapes::parted;

/// The records are those of a step of the life that runs on the processor.
pub(crate) fn is_ranked_step(moment: &Moment, p: ProcNo, records: &[Record]) -> bool
    requires { (seen moment.now).rules ≡ Priorities }
    ensures { let m = seen moment.now in
        IsTrue result ↔ IsRankedStep m.workload m.readings p records.now }
{
    let Some(a) = moment.running(p) else {
        return false;
    };
    match moment.life_on(p) {
        None => false,
        Some(life) => is_ranked_step_of(moment, p, a, life, records),
    }
}

// The records are those of a step of this life.
fn is_ranked_step_of(
    moment: &Moment,
    p: ProcNo,
    a: ActNo,
    life: &KeptLife,
    records: &[Record],
) -> bool
    requires { (seen moment.now).rules ≡ Priorities }
    ensures { let m = seen moment.now in
        IsTrue result ↔ RankedStepIn m.workload m.readings p (Some a) (Some life.now) records.now }
{
    let Some((first, others)) = parted(records) else {
        return false;
    };
    match first {
        Record::Spin(l) => others.is_empty() && can_spin(moment, a, life, l),
        Record::Want(s, n) => {
            others.is_empty() && s == life.space() && can_hint(moment, s, life, n)
        }
        Record::Idle => others.is_empty() && can_idle(moment, life),
        Record::Back(s, t) => others.is_empty() && backs(moment, p, life, s, t),
        Record::Line(q) => others.is_empty() && interrupts(moment, p, life, q),
        _ => is_step_of(moment, p, a, life, records),
    }
}

// The life has something to make ready, and list 0 is locked by another.
fn can_spin(moment: &Moment, a: ActNo, life: &KeptLife, l: ProcNo) -> bool
    ensures { IsTrue result ↔ CanSpin (seen moment.now).readings a life.now l }
{
    has_no_lock(life)
        && moment.has_hand(life)
        && l == THE_LIST
        && moment.is_locked_by_other(a, life.space(), THE_LIST)
}

// The life has no thread to run, and list 0 is locked or has none.
fn finds_none(moment: &Moment, life: &KeptLife) -> bool
    ensures { IsTrue result ↔ FindsNone (seen moment.now).readings life.now }
{
    carried_by(moment, life).is_none()
        && (!moment.has_ready(life.space(), THE_LIST) || moment.is_locked(life.space(), THE_LIST))
}

// A want of this number for the space is a hint that the life can give: a lowering or a raising one.
fn can_hint(moment: &Moment, s: SpaceNo, life: &KeptLife, n: u16) -> bool
    ensures { let m = seen moment.now in
        IsTrue result ↔ CanHint (nat_lt n (demand_of m.readings s)) m.workload m.readings life.now n }
{
    if n < moment.demand(s) {
        can_lower(moment, life, n)
    } else {
        can_raise(moment, life, n)
    }
}

// A lowering hint: the life finds no thread, its patience is over, and more than the load was announced.
fn can_lower(moment: &Moment, life: &KeptLife, n: u16) -> bool
    ensures { let m = seen moment.now in
        IsTrue result ↔ CanLower m.workload m.readings life.now n }
{
    let space = life.space();
    let demand = moment.demand(space);
    finds_none(moment, life)
        && u64::from(patience(moment, space)) <= life.scans()
        && moment.load(space) < u128::from(demand)
        && u32::from(n) + 1 == u32::from(demand)
}

// A look that finds no thread: patience is not over, or no more than the load was announced.
fn can_idle(moment: &Moment, life: &KeptLife) -> bool
    ensures { let m = seen moment.now in
        IsTrue result ↔ CanIdle m.workload m.readings life.now }
{
    let space = life.space();
    finds_none(moment, life)
        && (life.scans() < u64::from(patience(moment, space))
            || u128::from(moment.demand(space)) <= moment.load(space))
}

// A back under an open cont, or of a thread that gives way.
fn backs(moment: &Moment, p: ProcNo, life: &KeptLife, s: SpaceNo, t: Option<ThreadNo>) -> bool
    requires { (seen moment.now).rules ≡ Priorities }
    ensures { IsTrue result ↔ BacksBy life.now.cont (seen moment.now).readings p life.now s t }
{
    if life.cont() {
        return true;
    }
    gives_way(moment, p, life, s, t)
}

// The life owes nothing else, and the thread that it carries is in a pair.
fn gives_way(moment: &Moment, p: ProcNo, life: &KeptLife, s: SpaceNo, t: Option<ThreadNo>) -> bool
    requires { (seen moment.now).rules ≡ Priorities }
    ensures { IsTrue result ↔ GivesWay (seen moment.now).readings p life.now s t }
{
    has_nothing(moment, life)
        && s == life.space()
        && t == carried_by(moment, life)
        && is_outranked(moment, life.space(), p)
}

// The thread of the space that runs on the processor is in a pair.
fn is_outranked(moment: &Moment, s: SpaceNo, p: ProcNo) -> bool
    requires { (seen moment.now).rules ≡ Priorities }
    ensures { IsTrue result ↔ IsOutranked (seen moment.now).readings s p }
{
    moment.outranked_on(s, p).is_some()
}
