// Lines that a user level asks for, to interrupt another processor of its space.
ghost use Rattle.std.specs.Prelude.{◌≡◌, ◌↔◌, IsTrue};
ghost use Rattle.sa_laws.specs.Readings.{life_on};
ghost use Rattle.sa_ranks.specs.Steps.{Interrupts, RankedLines};
ghost use Rattle.sa_base.specs.declared.package.RulesName.TheVariants.{Priorities};
ghost use Rattle.sa_check_moment.specs.Seen.{seen};

use crate::life::has_nothing;
use sa_base::ProcNo;
use sa_check_lives::KeptLife;
use sa_check_moment::Moment;

/// The life that runs on the processor asks for the line of another.
pub(crate) fn asks_for(moment: &Moment, p: ProcNo, q: ProcNo) -> bool
    requires { (seen moment.now).rules ≡ Priorities }
    ensures { let m = seen moment.now in IsTrue result ↔ RankedLines m.workload m.readings p q }
{
    match moment.life_on(p) {
        None => false,
        Some(life) => interrupts(moment, p, life, q),
    }
}

/// The life owes nothing else, its own thread is in no pair, and the other one's is the lowest of those that are.
pub(crate) fn interrupts(moment: &Moment, p: ProcNo, life: &KeptLife, q: ProcNo) -> bool
    requires { (seen moment.now).rules ≡ Priorities }
    ensures { IsTrue result ↔ Interrupts (seen moment.now).readings p life.now q }
{
    has_nothing(moment, life)
        && moment.outranked_on(life.space(), p).is_none()
        && q != p
        && moment.is_lowest(life.space(), q)
}
