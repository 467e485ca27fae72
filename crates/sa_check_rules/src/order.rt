// The order of ready lists.
ghost use Rattle.std.specs.Prelude.{◌↔◌, IsTrue};
ghost use Rattle.sa_laws.specs.Readings.{life_on};
ghost use Rattle.sa_laws.specs.Locks.{TakesNext, RunsNext};
ghost use Rattle.sa_check_moment.specs.Seen.{seen};

use sa_base::{ProcNo, Record, SpaceNo, ThreadNo};
use sa_check_moment::Moment;
use sa_check_shapes::parted;

/// List order, at an event of this processor with these records, on the moment before it.
#[inline(always)]
pub(crate) fn lists_are_in_order(moment: &Moment, p: ProcNo, records: &[Record]) -> bool
    ensures { IsTrue result ↔ RunsNext (seen moment.now).readings p records.now }
{
    match parted(records) {
        Some((Record::Run(s, t), _)) => takes_next(moment, p, s, t),
        _ => true,
    }
}

// The thread is the next one of the list that the processor's life locks first.
fn takes_next(moment: &Moment, p: ProcNo, s: SpaceNo, t: ThreadNo) -> bool
    ensures { let r = (seen moment.now).readings in
        IsTrue result ↔ TakesNext r (life_on r p) s t }
{
    let Some(life) = moment.life_on(p) else {
        return false;
    };
    match life.first_lock() {
        None => false,
        Some(lock) => moment.next_thread(s, lock) == Some(t),
    }
}
