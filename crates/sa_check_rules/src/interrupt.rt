// An interrupt is the next event.
ghost use Rattle.std.specs.Prelude.{◌≡◌, ◌↔◌, IsTrue, is_some};
ghost use Rattle.sa_laws.specs.Readings.{Readings, owner_of, aim_of, line_of};
ghost use Rattle.sa_laws.specs.History.{event_begun};
ghost use Rattle.sa_laws.specs.Upcalls.{StopsAndGoes, InterruptIsNext};
ghost use Rattle.sa_check_moment.specs.Seen.{seen, event};

use crate::page::upcall_page;
use sa_base::{ProcNo, Record};
use sa_check_moment::Moment;
use sa_check_shapes::{begins_as_interrupt, stops_and_goes};

/// An interrupt is the next event, at an event of this number and processor with these records, on the moment as it
/// begins. `raised`: the processor's line was raised before it.
pub fn interrupt_is_next(
    moment: &Moment,
    raised: bool,
    number: u64,
    p: ProcNo,
    records: &[Record],
) -> bool
    ensures { let m = seen moment.now in let e = event number p records.now in
        (r : Readings) → m.readings ≡ event_begun m.workload e r → raised ≡ is_some (line_of r p)
        → (IsTrue result ↔ InterruptIsNext m.workload r e) }
{
    if raised {
        goes_to_aim(moment, p, records)
    } else {
        !begins_as_interrupt(records)
    }
}

// An interrupt of the processor: it stops its owner's life, and goes on where it is aimed.
fn goes_to_aim(moment: &Moment, p: ProcNo, records: &[Record]) -> bool
    ensures { let r = (seen moment.now).readings in
        IsTrue result ↔ StopsAndGoes p r (owner_of r p) (aim_of r p) records.now }
{
    match moment.aim(p) {
        None => false,
        Some(aim) => { stops_and_goes(p, moment.owner(p), aim, upcall_page(moment, aim), records) }
    }
}
