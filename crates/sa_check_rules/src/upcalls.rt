// An upcall tells all: the law of each record, on the moment before it. `rest` comes after it.
ghost use Rattle.std.specs.Prelude.{◌≡◌, ◌↔◌, ◌++◌, IsTrue};
ghost use Rattle.std.specs.Option.{option_to_list};
ghost use Rattle.sa_laws.specs.Readings.{untold_of};
ghost use Rattle.sa_laws.specs.Upcalls.{notes_due, IsTaken, TellsAllThen};
ghost use Rattle.sa_check_moment.specs.Seen.{seen};

use sa_base::{ActNo, Note, ProcNo, Record, SpaceNo};
use sa_check_moment::Moment;
use sa_check_shapes::{are_told, is_told};

/// An upcall tells all: after an up of a fresh number comes all that is due to its space, and that is something; and a
/// giveback names a life that was taken.
pub fn tells_all(moment: &Moment, p: ProcNo, what: &Record, rest: &[Record]) -> bool
    ensures { IsTrue result ↔ TellsAllThen p (seen moment.now).readings what.now rest.now }
{
    match *what {
        Record::Up(s, a) => {
            moment.life(a).is_none()
                && are_told(rest, note_of_move(moment, p, s), moment.untold(s))
                && is_told(rest)
        }
        Record::GiveBack(a) => is_taken(moment, a),
        _ => true,
    }
}

// The notice of the processor, where it moved to the space in the same event.
fn note_of_move(moment: &Moment, p: ProcNo, s: SpaceNo) -> Option<Note>
    ensures { let r = (seen moment.now).readings in
        option_to_list result ++ untold_of r s ≡ notes_due r p s }
{
    match moment.moved() {
        Some(to) if to.0 == s.0 => Some(Note::Add(p)),
        _ => None,
    }
}

// The number is that of a life that was taken and not given back.
fn is_taken(moment: &Moment, a: ActNo) -> bool
    ensures { IsTrue result ↔ IsTaken (seen moment.now).readings a }
{
    match moment.life(a) {
        None => false,
        Some(life) => moment.taken(life.space()).contains(&a),
    }
}
