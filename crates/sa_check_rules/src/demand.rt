// Demand is announced.
ghost use Rattle.std.specs.Prelude.{◌≡◌, ◌↔◌, IsTrue};
ghost use Rattle.sa_laws.specs.Demand.{is_bound, OwesNothing, BeginsFreely, DemandIsAnnounced};
ghost use Rattle.sa_check_moment.specs.Seen.{seen, event};

use crate::life::{carried_by, has_nothing};
use sa_base::{ProcNo, Record};
use sa_check_lives::KeptLife;
use sa_check_moment::Moment;
use sa_check_shapes::{is_step, parted};

/// Demand is announced, at an event of this number and processor with these records, on the moment before it.
#[inline(always)]
pub(crate) fn is_announced(moment: &Moment, number: u64, p: ProcNo, records: &[Record]) -> bool
    ensures { let m = seen moment.now in
        IsTrue result ↔ DemandIsAnnounced m.workload m.readings (event number p records.now) }
{
    number == 0 || begins_freely(moment, p, records)
}

// A step is made by a running life, which is out or owes nothing, where only such a life begins a step so.
#[inline(always)]
fn begins_freely(moment: &Moment, p: ProcNo, records: &[Record]) -> bool
    ensures { let m = seen moment.now in
        IsTrue result ↔ BeginsFreely m.workload m.readings p records.now }
{
    let Some((first, _)) = parted(records) else {
        return true;
    };
    if !is_step(first) {
        return true;
    }
    match moment.life_on(p) {
        None => false,
        Some(life) => {
            !is_bound(moment, life, first) || !life.inside() || owes_nothing(moment, life)
        }
    }
}

/// Only a life that is out or owes nothing begins a step so.
#[inline(always)]
pub(crate) fn is_bound(moment: &Moment, life: &KeptLife, first: Record) -> bool
    ensures { result ≡ is_bound (seen moment.now).readings life.now first }
{
    match first {
        Record::Ins(..) | Record::Idle => true,
        Record::Block(..) => !life.has_lock(),
        Record::Want(s, n) => n < moment.demand(s),
        Record::Take(..) => !moment.has_hand(life),
        _ => false,
    }
}

// The life owes nothing.
fn owes_nothing(moment: &Moment, life: &KeptLife) -> bool
    ensures { let m = seen moment.now in
        IsTrue result ↔ OwesNothing m.workload m.readings life.now }
{
    let space = life.space();
    has_nothing(moment, life)
        && moment.usable(space) <= moment.demand(space)
        && (carried_by(moment, life).is_some() || !moment.many_taken(space))
}
