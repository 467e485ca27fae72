// FastThreads' table of steps.
ghost use Rattle.std.specs.Prelude.{◌≡◌, ◌↔◌, Some, IsTrue, map, nat_lt};
ghost use Rattle.sa_base.specs.declared.record.Record.TheVariants.{GiveBack};
ghost use Rattle.sa_laws.specs.Readings.{demand_of};
ghost use Rattle.sa_laws.specs.Life.{first_lock};
ghost use Rattle.sa_laws.specs.Turns.{CanFault, CanSpin, CanRaise, CanLower, CanHint, CanIdle, CanGiveBack, StepIn, IsStep};
ghost use Rattle.sa_check_moment.specs.Seen.{seen};

use crate::life::{carried_by, finds_none, has_no_lock, has_nothing, patience};
use sa_base::{ActNo, BULK_RETURN, PACKAGE_PAGE, ProcNo, Record, SpaceNo};
use sa_check_lives::KeptLife;
use sa_check_moment::Moment;
use sa_check_shapes::{are_of_locks, is_ins_of, is_passage, parted};

/// The records are those of a step of the life that runs on the processor.
#[inline(always)]
pub(crate) fn is_fast_step(moment: &Moment, p: ProcNo, records: &[Record]) -> bool
    ensures { let m = seen moment.now in
        IsTrue result ↔ IsStep m.workload m.readings p records.now }
{
    let Some(a) = moment.running(p) else {
        return false;
    };
    match moment.life_on(p) {
        None => false,
        Some(life) => is_step_of(moment, p, a, life, records),
    }
}

/// The records are those of a step of this life.
#[inline(always)]
pub(crate) fn is_step_of(
    moment: &Moment,
    p: ProcNo,
    a: ActNo,
    life: &KeptLife,
    records: &[Record],
) -> bool
    ensures { let m = seen moment.now in
        IsTrue result ↔ StepIn m.workload m.readings p (Some a) (Some life.now) records.now }
{
    let Some((first, others)) = parted(records) else {
        return false;
    };
    match first {
        Record::Ins(s, t, place) => is_ins_of(moment.instr_of(s, t, place), others),
        Record::Block(..) => is_passage(others) && can_fault(moment, life),
        Record::Spin(l) => others.is_empty() && can_spin(moment, p, a, life, l),
        Record::Want(s, n) => {
            others.is_empty() && s == life.space() && can_hint(moment, s, life, n)
        }
        Record::Idle => others.is_empty() && can_idle(moment, life),
        Record::GiveBack(_) => can_give_back(moment, life, records),
        _ => are_of_locks(records),
    }
}

// Where the life has a lock, the package's page is absent, and the first lock has got no ready or run record, and if it
// was inherited, a cont is open.
fn can_fault(moment: &Moment, life: &KeptLife) -> bool
    ensures { IsTrue result ↔ CanFault (seen moment.now).readings life.now (first_lock life.now) }
{
    match life.first_lock() {
        None => true,
        Some(lock) => {
            !moment.is_resident(life.space(), PACKAGE_PAGE)
                && !lock.used
                && (!lock.inherited || life.cont())
        }
    }
}

// The life has a thread to push, and its own list is locked by another.
fn can_spin(moment: &Moment, p: ProcNo, a: ActNo, life: &KeptLife, l: ProcNo) -> bool
    ensures { IsTrue result ↔ CanSpin (seen moment.now).readings p a life.now l }
{
    has_no_lock(life)
        && moment.has_hand(life)
        && l == p
        && moment.is_locked_by_other(a, life.space(), l)
}

// A want of this number for the space is a hint that the life can give: a lowering or a raising one.
fn can_hint(moment: &Moment, s: SpaceNo, life: &KeptLife, n: u16) -> bool
    ensures { let m = seen moment.now in
        IsTrue result ↔ CanHint (nat_lt n (demand_of m.readings s)) m.workload m.readings life.now n }
{
    if n < moment.demand(s) {
        can_lower(moment, life, n)
    } else {
        can_raise(moment, life, n)
    }
}

/// A raising hint: the life has nothing, and less than its space can use was announced.
pub(crate) fn can_raise(moment: &Moment, life: &KeptLife, n: u16) -> bool
    ensures { let m = seen moment.now in
        IsTrue result ↔ CanRaise m.workload m.readings life.now n }
{
    let usable = moment.usable(life.space());
    has_nothing(moment, life) && moment.demand(life.space()) < usable && n == usable
}

// A lowering hint: the life finds no thread, its patience is over, and more than the load was announced.
fn can_lower(moment: &Moment, life: &KeptLife, n: u16) -> bool
    ensures { let m = seen moment.now in
        IsTrue result ↔ CanLower m.workload m.readings life.now n }
{
    let space = life.space();
    let demand = moment.demand(space);
    finds_none(moment, life)
        && u64::from(patience(moment, space)) <= life.scans()
        && moment.load(space) < u128::from(demand)
        && u32::from(n) + 1 == u32::from(demand)
}

// A look that finds no thread: patience is not over, or no more than the load was announced.
#[inline(always)]
fn can_idle(moment: &Moment, life: &KeptLife) -> bool
    ensures { let m = seen moment.now in
        IsTrue result ↔ CanIdle m.workload m.readings life.now }
{
    let space = life.space();
    finds_none(moment, life)
        && (life.scans() < u64::from(patience(moment, space))
            || u128::from(moment.demand(space)) <= moment.load(space))
}

// A life without a thread, which has nothing, gives back all that its space has taken: 8 or more.
fn can_give_back(moment: &Moment, life: &KeptLife, records: &[Record]) -> bool
    ensures { IsTrue result ↔ CanGiveBack (seen moment.now).readings life.now records.now }
{
    let taken = moment.taken(life.space());
    carried_by(moment, life).is_none()
        && has_nothing(moment, life)
        && taken.len() >= BULK_RETURN as usize
        && give_back(records, taken)
}

/// The records give back these, in order.
pub(crate) fn give_back(records: &[Record], taken: &[ActNo]) -> bool
    ensures { IsTrue result ↔ (records.now ≡ map GiveBack taken.now) }
{
    let mut left = taken;
    for what in records {
        match (*what, parted(left)) {
            (Record::GiveBack(a), Some((next, rest))) if a == next => left = rest,
            _ => return false,
        }
    }
    left.is_empty()
}
