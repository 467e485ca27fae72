// Runs where owned: the law of each record, on the moment before it, and of the moment after an event.
ghost use Rattle.std.specs.Prelude.{◌≡◌, ◌↔◌, List, map, IsTrue};
ghost use Rattle.sa_laws.specs.Readings.{space_of_life};
ghost use Rattle.sa_laws.specs.Upcalls.{RunsOn, NamesTheLife};
ghost use Rattle.sa_check_moment.specs.Seen.{seen};

use sa_base::{ActNo, ProcNo, Record, SpaceNo};
use sa_check_moment::Moment;

/// Runs where owned: a stop or block names the life that runs on the processor, and an up comes where none does.
pub fn names_the_life(moment: &Moment, p: ProcNo, what: &Record) -> bool
    ensures { (rest : List Record)
        → (IsTrue result ↔ NamesTheLife p (seen moment.now).readings what.now rest) }
{
    match *what {
        Record::Stop(s, _, a) | Record::Block(s, _, a, _) => runs_on(moment, p, s, a),
        Record::Up(..) => moment.running(p).is_none(),
        _ => true,
    }
}

// The life runs on the processor, in the space.
fn runs_on(moment: &Moment, p: ProcNo, s: SpaceNo, a: ActNo) -> bool
    ensures { IsTrue result ↔ RunsOn (seen moment.now).readings p s a }
{
    moment.running(p) == Some(a) && moment.space_of_life(Some(a)) == Some(s)
}

/// Runs where owned, after an event: each processor is owned by the space of its running life.
pub fn each_runs_for_its_owner(moment: &Moment) -> bool
    ensures { let r = (seen moment.now).readings in
        IsTrue result ↔ (r.state.owners ≡ map (space_of_life r) r.running) }
{
    own_their_lives(moment, moment.owners(), moment.all_running())
}

// The owners are the spaces of these lives, one by one.
fn own_their_lives(moment: &Moment, owners: &[Option<SpaceNo>], running: &[Option<ActNo>]) -> bool
    ensures { IsTrue result ↔ (owners.now ≡ map (space_of_life (seen moment.now).readings) running.now) }
{
    let mut left = running;
    for owner in owners {
        match left.split_first() {
            Some((act, rest)) if moment.space_of_life(*act) == *owner => left = rest,
            _ => return false,
        }
    }
    left.is_empty()
}
