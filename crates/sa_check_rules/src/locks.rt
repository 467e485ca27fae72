// List locks.
ghost use Rattle.std.specs.Prelude.{◌≡◌, ◌↔◌, IsTrue};
ghost use Rattle.sa_laws.specs.Life.{first_lock};
ghost use Rattle.sa_laws.specs.Readings.{Readings, has_hand, life_on};
ghost use Rattle.sa_laws.specs.History.{event_begun, is_step};
ghost use Rattle.sa_laws.specs.Locks.{TakesFor, CanTake, CanBeUsed, CanReady, CanRun, CanFree, CanCont, WithFirst, back_is_due, KeepsLocks, KeepsLocksIf, KeepsLocksIn, LocksAreKept};
ghost use Rattle.sa_check_moment.specs.Seen.{seen, event};

use crate::life::{carried_by, has_no_lock, is_unlocked};
use sa_base::{PACKAGE_PAGE, ProcNo, Record, SpaceNo, ThreadNo};
use sa_check_lives::{KeptLife, ListLock};
use sa_check_moment::Moment;
use sa_check_shapes::{is_back, is_step, own_part, parted, stands_alone};

/// List locks, at an event of this number and processor with these records, on the moment as it begins.
#[inline(always)]
pub(crate) fn list_locks_are_kept(
    moment: &Moment,
    number: u64,
    p: ProcNo,
    records: &[Record],
) -> bool
    ensures { let m = seen moment.now in let e = event number p records.now in
        (r : Readings) → m.readings ≡ event_begun m.workload e r
        → (IsTrue result ↔ LocksAreKept m.workload r e) }
{
    number == 0 || keeps_locks_in(moment, p, own_part(records))
}

// A step keeps to the rules, and an operation is in an event of its own.
#[inline(always)]
fn keeps_locks_in(moment: &Moment, p: ProcNo, records: &[Record]) -> bool
    ensures { let m = seen moment.now in
        IsTrue result ↔ KeepsLocksIn m.workload m.readings p records.now }
{
    match parted(records) {
        None => true,
        Some((first, _)) => keeps_locks_if(moment, p, first) && stands_alone(records),
    }
}

// If the event that begins so is a step of a running life, it keeps to the rules.
#[inline(always)]
fn keeps_locks_if(moment: &Moment, p: ProcNo, first: Record) -> bool
    ensures { let m = seen moment.now in
        IsTrue result ↔ KeepsLocksIf (is_step first) m.workload m.readings p (life_on m.readings p) first }
{
    if !is_step(first) {
        return true;
    }
    match moment.life_on(p) {
        None => true,
        Some(life) => { is_back(first) == back_is_due(life) && keeps_locks(moment, p, life, first) }
    }
}

/// A back is due: a continued lock was freed.
pub(crate) fn back_is_due(life: &KeptLife) -> bool
    ensures { result ≡ back_is_due life.now }
{
    life.cont() && life.freed()
}

/// The operation on ready lists keeps to its rule.
#[inline(always)]
pub(crate) fn keeps_locks(moment: &Moment, p: ProcNo, life: &KeptLife, first: Record) -> bool
    ensures { let m = seen moment.now in
        IsTrue result ↔ KeepsLocks m.workload m.readings p life.now first }
{
    match first {
        Record::Take(s, l, t) => can_take(moment, p, life, s, l, t),
        Record::Ready(s, t) => can_ready(moment, life, s, t),
        Record::Run(s, _) => can_run(moment, life, s),
        Record::Free(s, l, t) => can_free(life, s, l, t),
        Record::Cont(s, t) => can_cont(life, s, t),
        Record::Back(s, _) => s == life.space(),
        _ => true,
    }
}

// A take of an unlocked list by a life that has none, for the thread that it carries.
fn can_take(
    moment: &Moment,
    p: ProcNo,
    life: &KeptLife,
    s: SpaceNo,
    l: ProcNo,
    t: Option<ThreadNo>,
) -> bool
    ensures { let m = seen moment.now in
        IsTrue result ↔ CanTake m.workload m.readings p life.now s l t }
{
    is_unlocked(moment, life, s, l)
        && has_no_lock(life)
        && t == carried_by(moment, life)
        && takes_for(moment, p, life, l)
}

// For a push the processor's own list; for a pop, of a life without a thread, the first open one.
fn takes_for(moment: &Moment, p: ProcNo, life: &KeptLife, l: ProcNo) -> bool
    ensures { let m = seen moment.now in
        IsTrue result ↔ TakesFor (has_hand m.readings life.now) m.workload m.readings p life.now l }
{
    if moment.has_hand(life) {
        return l == p;
    }
    carried_by(moment, life).is_none() && moment.is_first_open(life.space(), p, l)
}

// The lock can get its ready or run record.
fn can_be_used(moment: &Moment, life: &KeptLife, lock: ListLock) -> bool
    ensures { IsTrue result ↔ CanBeUsed (seen moment.now).readings life.now lock }
{
    !lock.used && moment.is_resident(life.space(), PACKAGE_PAGE) && (!lock.inherited || life.cont())
}

// A ready of a thread of the life's hand that holds no lock, under a lock for a push.
fn can_ready(moment: &Moment, life: &KeptLife, s: SpaceNo, t: ThreadNo) -> bool
    ensures { let r = (seen moment.now).readings in
        IsTrue result ↔ WithFirst (first_lock life.now) (λ lock. CanReady r life.now lock s t) }
{
    let Some(lock) = life.first_lock() else {
        return false;
    };
    lock.for_push
        && can_be_used(moment, life, lock)
        && s == life.space()
        && life.has_in_hand(t)
        && moment.counts(s, t)
        && !moment.holds_lock(s, t)
}

// A run under a lock for a pop.
fn can_run(moment: &Moment, life: &KeptLife, s: SpaceNo) -> bool
    ensures { let r = (seen moment.now).readings in
        IsTrue result ↔ WithFirst (first_lock life.now) (λ lock. CanRun r life.now lock s) }
{
    let Some(lock) = life.first_lock() else {
        return false;
    };
    !lock.for_push && can_be_used(moment, life, lock) && s == life.space()
}

// A free of the first lock, which was used, for its thread.
fn can_free(life: &KeptLife, s: SpaceNo, l: ProcNo, t: Option<ThreadNo>) -> bool
    ensures { IsTrue result ↔ WithFirst (first_lock life.now) (λ lock. CanFree life.now lock s l t) }
{
    let Some(lock) = life.first_lock() else {
        return false;
    };
    s == life.space()
        && l == lock.list
        && t == lock.thread
        && lock.used
        && (!lock.inherited || life.cont())
}

// A cont of the first lock, which was inherited, for its thread.
fn can_cont(life: &KeptLife, s: SpaceNo, t: Option<ThreadNo>) -> bool
    ensures { IsTrue result ↔ WithFirst (first_lock life.now) (λ lock. CanCont life.now lock s t) }
{
    let Some(lock) = life.first_lock() else {
        return false;
    };
    s == life.space() && !life.cont() && lock.inherited && t == lock.thread
}
