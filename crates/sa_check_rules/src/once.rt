// Tells at most once: the law of each record of an event, on the moment before it.
ghost use Rattle.std.specs.Prelude.{◌↔◌, List, IsTrue};
ghost use Rattle.sa_laws.specs.Upcalls.{IsUntoldTo, TellsOnce};
ghost use Rattle.sa_check_moment.specs.Seen.{seen};

use sa_base::{Note, Record, SpaceNo};
use sa_check_moment::Moment;

/// Tells at most once: a told record, but for `told add`, tells what was untold to the space of the last up.
pub fn tells_once(moment: &Moment, what: &Record) -> bool
    ensures { (rest : List Record)
        → (IsTrue result ↔ TellsOnce (seen moment.now).readings what.now rest) }
{
    match *what {
        Record::Told(note) => is_untold_to(moment, moment.space_of_life(moment.upped()), note),
        _ => true,
    }
}

// The notice is an `add`, or untold to the space.
fn is_untold_to(moment: &Moment, s: Option<SpaceNo>, note: Note) -> bool
    ensures { IsTrue result ↔ IsUntoldTo (seen moment.now).readings s note }
{
    match (note, s) {
        (Note::Add(_), _) => true,
        (_, None) => false,
        (_, Some(s)) => moment.untold(s).contains(&note),
    }
}
