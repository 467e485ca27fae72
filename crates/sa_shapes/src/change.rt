// What an item changes on a track.
ghost use Rattle.std.specs.Prelude.{◌≡◌};
ghost use Rattle.sa_shapes.specs.Change.{start, is_aimed, is_space, with_aim, look_change, demand_change, aimed_change, change};

use crate::look::Look;
use crate::shape::{MAX_LANES, Shown, Track};
use sa_base::{Item, ProcNo, Record, SpaceNo};

impl Track {
    /// What the track shows before the first item.
    pub(crate) fn start(self) -> Shown
        ensures { result ≡ start self }
    {
        match self {
            Track::Lane(_) => Shown::Look(Look::Unowned),
            Track::Demand(_) => Shown::Demand(0),
            Track::Aimed(_) => Shown::Aimed([false; MAX_LANES]),
        }
    }

    /// What the track shows from the item on, where that is another thing than before it.
    pub(crate) fn change(self, shown: Shown, item: &Item) -> Option<Shown>
        ensures { result ≡ change self shown item.now }
    {
        match (self, shown) {
            (Track::Lane(p), Shown::Look(look)) => {
                if item.proc.0 == p.0 {
                    look_change(look, look.after(&item.what))
                } else {
                    None
                }
            }
            (Track::Demand(s), Shown::Demand(n)) => demand_change(s, n, &item.what),
            (Track::Aimed(s), Shown::Aimed(aims)) => aimed_change(s, aims, &item.what),
            _ => None,
        }
    }
}

fn look_change(look: Look, next: Look) -> Option<Shown>
    ensures { result ≡ look_change look next }
{
    if look.is_same(next) {
        None
    } else {
        Some(Shown::Look(next))
    }
}

fn demand_change(s: SpaceNo, n: u16, what: &Record) -> Option<Shown>
    ensures { result ≡ demand_change s n what.now }
{
    match *what {
        Record::Want(u, m) => {
            if u.0 == s.0 && m != n {
                Some(Shown::Demand(m))
            } else {
                None
            }
        }
        _ => None,
    }
}

fn aimed_change(s: SpaceNo, aims: [bool; MAX_LANES], what: &Record) -> Option<Shown>
    ensures { result ≡ aimed_change s aims what.now }
{
    match *what {
        Record::Aim(p, u) => {
            let next = with_aim(aims, p, is_space(s, u));
            if is_aimed(&aims, p) == is_aimed(&next, p) {
                return None;
            }
            Some(Shown::Aimed(next))
        }
        _ => None,
    }
}

// The space is this one.
fn is_space(s: SpaceNo, u: Option<SpaceNo>) -> bool
    ensures { result ≡ is_space s u }
{
    match u {
        None => false,
        Some(u) => u.0 == s.0,
    }
}

// The processor is among those that are aimed.
fn is_aimed(aims: &[bool; MAX_LANES], p: ProcNo) -> bool
    ensures { result ≡ is_aimed aims.now p }
{
    let p = usize::from(p.0);
    if p < MAX_LANES { aims[p] } else { false }
}

// These, and the processor among them or not.
fn with_aim(mut aims: [bool; MAX_LANES], p: ProcNo, now: bool) -> [bool; MAX_LANES]
    ensures { result ≡ with_aim aims p now }
{
    let p = usize::from(p.0);
    if p < MAX_LANES {
        aims[p] = now;
    }
    aims
}
