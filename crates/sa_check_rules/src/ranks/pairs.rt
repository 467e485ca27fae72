// Pairs are served.
ghost use Rattle.std.specs.Prelude.{◌≡◌, ◌↔◌, IsTrue};
ghost use Rattle.sa_ranks.specs.Locks.{BeginsUnurged, PairsAreServed};
ghost use Rattle.sa_base.specs.declared.package.RulesName.TheVariants.{Priorities};
ghost use Rattle.sa_check_moment.specs.Seen.{seen, event};

use crate::demand::{is_announced, is_bound};
use sa_base::{ProcNo, Record};
use sa_check_moment::Moment;
use sa_check_shapes::{is_step, parted};

/// Demand is announced and pairs are served, at an event of this number and processor with these records, on the moment
/// before it.
pub(crate) fn pairs_are_served(moment: &Moment, number: u64, p: ProcNo, records: &[Record]) -> bool
    requires { (seen moment.now).rules ≡ Priorities }
    ensures { let m = seen moment.now in
        IsTrue result ↔ PairsAreServed m.workload m.readings (event number p records.now) }
{
    is_announced(moment, number, p, records) && (number == 0 || begins_unurged(moment, p, records))
}

// A step is made by a life that is out, or no pair of its space exists, where only such a life begins a step so.
fn begins_unurged(moment: &Moment, p: ProcNo, records: &[Record]) -> bool
    requires { (seen moment.now).rules ≡ Priorities }
    ensures { let m = seen moment.now in
        IsTrue result ↔ BeginsUnurged m.workload m.readings p records.now }
{
    let Some((first, _)) = parted(records) else {
        return true;
    };
    if !is_step(first) {
        return true;
    }
    match moment.life_on(p) {
        None => true,
        Some(life) => {
            !is_bound(moment, life, first) || !life.inside() || !moment.has_pair(life.space())
        }
    }
}
