// The records of one kind, beside those that are due.
ghost use Rattle.std.specs.Prelude.{◌≡◌, ◌≢◌, ◌↔◌, ◌++◌, [], IsTrue};
ghost use Rattle.std.specs.Option.{option_to_list};
ghost use Rattle.sa_laws.specs.Shape.{wants_in, lines_in, aims_in, told_run};
ghost use Rattle.sa_check_shapes.specs.Due.{changes_of};

use crate::parts::parted;
use sa_base::{Note, ProcNo, Record, SpaceNo};

/// An aim of a processor at a space.
#[derive(Clone, Copy)]
pub struct Aimed {
    pub proc: ProcNo,
    pub space: SpaceNo,
}

/// The wants among the records are those that are due.
pub fn are_wants(records: &[Record], due: &[Record]) -> bool
    ensures { IsTrue result ↔ (wants_in records.now ≡ due.now) }
{
    let mut left = due;
    for what in records {
        if let Record::Want(s, n) = *what {
            match parted(left) {
                Some((Record::Want(of, m), rest)) if of == s && m == n => left = rest,
                _ => return false,
            }
        }
    }
    left.is_empty()
}

/// The lines among the records are those that are due.
pub fn are_lines(records: &[Record], due: &[Record]) -> bool
    ensures { IsTrue result ↔ (lines_in records.now ≡ due.now) }
{
    let mut left = due;
    for what in records {
        if let Record::Line(p) = *what {
            match parted(left) {
                Some((Record::Line(of), rest)) if of == p => left = rest,
                _ => return false,
            }
        }
    }
    left.is_empty()
}

/// The aims at spaces among the records are those that are due.
pub fn are_aims(records: &[Record], due: &[Aimed]) -> bool
    ensures { IsTrue result ↔ (aims_in records.now ≡ changes_of due.now) }
{
    let mut left = due;
    for what in records {
        if let Record::Aim(proc, Some(space)) = *what {
            match parted(left) {
                Some((next, rest)) if next.proc == proc && next.space == space => left = rest,
                _ => return false,
            }
        }
    }
    left.is_empty()
}

/// An aim at a space is among the records.
pub fn has_aims(records: &[Record]) -> bool
    ensures { IsTrue result ↔ (aims_in records.now ≢ []) }
{
    for what in records {
        if let Record::Aim(_, Some(_)) = *what {
            return true;
        }
    }
    false
}

/// The run of told records with which the list begins tells `first`, if there is one, and `others`, in order.
pub fn are_told(records: &[Record], first: Option<Note>, others: &[Note]) -> bool
    ensures { IsTrue result ↔ (told_run records.now ≡ option_to_list first ++ others.now) }
{
    match first {
        None => tells(records, others),
        Some(note) => match parted(records) {
            Some((Record::Told(told), behind)) => told == note && tells(behind, others),
            _ => false,
        },
    }
}

// The run of told records with which the list begins tells these notices, in order.
fn tells(records: &[Record], notes: &[Note]) -> bool
    ensures { IsTrue result ↔ (told_run records.now ≡ notes.now) }
{
    let mut left = notes;
    for what in records {
        let Record::Told(note) = *what else {
            break;
        };
        match parted(left) {
            Some((next, rest)) if next == note => left = rest,
            _ => return false,
        }
    }
    left.is_empty()
}

/// The list begins with a told record.
pub fn is_told(records: &[Record]) -> bool
    ensures { IsTrue result ↔ (told_run records.now ≢ []) }
{
    match parted(records) {
        Some((Record::Told(_), _)) => true,
        _ => false,
    }
}
