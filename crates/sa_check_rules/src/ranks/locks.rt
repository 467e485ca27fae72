// The lock of list 0, in which all ready threads are.
ghost use Rattle.std.specs.Prelude.{◌≡◌, ◌↔◌, IsTrue};
ghost use Rattle.sa_laws.specs.Readings.{Readings, has_hand, life_on};
ghost use Rattle.sa_laws.specs.History.{event_begun, is_step};
ghost use Rattle.sa_ranks.specs.Locks.{TakesFor, CanTake, KeepsTheLock, StepKeepsTheLock, KeepsTheLockIf, KeepsTheLockIn, TheLockIsKept};
ghost use Rattle.sa_check_moment.specs.Seen.{seen, event};

use crate::life::{carried_by, has_no_lock, is_unlocked};
use crate::locks::{back_is_due, keeps_locks};
use crate::ranks::THE_LIST;
use sa_base::{ProcNo, Record, SpaceNo, ThreadNo};
use sa_check_lives::KeptLife;
use sa_check_moment::Moment;
use sa_check_shapes::{is_back, is_step, own_part, parted, stands_alone};

/// The list's lock, at an event of this number and processor with these records, on the moment as it begins.
pub(crate) fn the_lock_is_kept(moment: &Moment, number: u64, p: ProcNo, records: &[Record]) -> bool
    ensures { let m = seen moment.now in let e = event number p records.now in
        (r : Readings) → m.readings ≡ event_begun m.workload e r
        → (IsTrue result ↔ TheLockIsKept m.workload r e) }
{
    number == 0 || keeps_the_lock_in(moment, p, own_part(records))
}

// A step keeps to the rules, and an operation is in an event of its own.
fn keeps_the_lock_in(moment: &Moment, p: ProcNo, records: &[Record]) -> bool
    ensures { let m = seen moment.now in
        IsTrue result ↔ KeepsTheLockIn m.workload m.readings p records.now }
{
    match parted(records) {
        None => true,
        Some((first, _)) => keeps_the_lock_if(moment, p, first) && stands_alone(records),
    }
}

// If the event that begins so is a step of a running life, it keeps to the rules.
fn keeps_the_lock_if(moment: &Moment, p: ProcNo, first: Record) -> bool
    ensures { let m = seen moment.now in
        IsTrue result ↔ KeepsTheLockIf (is_step first) m.workload m.readings p (life_on m.readings p) first }
{
    if !is_step(first) {
        return true;
    }
    match moment.life_on(p) {
        None => true,
        Some(life) => step_keeps_the_lock(moment, p, life, first),
    }
}

// The step keeps to the rules: the back of a cont comes directly after the free of its lock.
fn step_keeps_the_lock(moment: &Moment, p: ProcNo, life: &KeptLife, first: Record) -> bool
    ensures { let m = seen moment.now in
        IsTrue result ↔ StepKeepsTheLock m.workload m.readings p life.now first }
{
    let back = is_back(first);
    (!back_is_due(life) || back)
        && (!back || !life.cont() || life.freed())
        && keeps_the_lock(moment, p, life, first)
}

// The operation on the list keeps to its rule.
fn keeps_the_lock(moment: &Moment, p: ProcNo, life: &KeptLife, first: Record) -> bool
    ensures { let m = seen moment.now in
        IsTrue result ↔ KeepsTheLock m.workload m.readings p life.now first }
{
    match first {
        Record::Take(s, l, t) => can_take(moment, life, s, l, t),
        _ => keeps_locks(moment, p, life, first),
    }
}

// A take of list 0, which nobody locks, by a life that has no lock, for the thread that it carries.
fn can_take(moment: &Moment, life: &KeptLife, s: SpaceNo, l: ProcNo, t: Option<ThreadNo>) -> bool
    ensures { IsTrue result ↔ CanTake (seen moment.now).readings life.now s l t }
{
    l == THE_LIST
        && is_unlocked(moment, life, s, THE_LIST)
        && has_no_lock(life)
        && t == carried_by(moment, life)
        && takes_for(moment, life)
}

// For a push; or for a pop, of a life without a thread, where the list has one.
fn takes_for(moment: &Moment, life: &KeptLife) -> bool
    ensures { let r = (seen moment.now).readings in
        IsTrue result ↔ TakesFor (has_hand r life.now) r life.now }
{
    if moment.has_hand(life) {
        return true;
    }
    carried_by(moment, life).is_none() && moment.has_ready(life.space(), THE_LIST)
}
