// What comes after a stop or a block: where the processor goes on.
ghost use Rattle.std.specs.Prelude.{◌≡◌, ◌∷◌, ◌↔◌, None, IsTrue};
ghost use Rattle.sa_base.specs.declared.record.Record.TheVariants.{Aim};
ghost use Rattle.sa_laws.specs.Readings.{Readings};
ghost use Rattle.sa_laws.specs.Shape.{BeginsWithUp, leave_run};
ghost use Rattle.sa_laws.specs.Upcalls.{BeginsAsInterrupt, BeginsWithLine, UpOrLeave, GoesToAim, StopsAndGoes, fetch_records, leave_records};
ghost use Rattle.sa_check_shapes.specs.Page.{IsSeen};

use crate::parts::{leave_run, parted};
use sa_base::{ProcNo, Record, SpaceNo};

/// The upcall page of a space.
#[derive(Clone, Copy)]
pub struct UpcallPage {
    pub resident: bool,
    pub fetching: bool,
}

/// The list begins with an up of this space.
pub fn begins_with_up(s: SpaceNo, records: &[Record]) -> bool
    ensures { IsTrue result ↔ BeginsWithUp s records.now }
{
    match parted(records) {
        Some((Record::Up(of, _), _)) => of == s,
        _ => false,
    }
}

/// The list begins with the line of this processor.
pub fn begins_with_line(p: ProcNo, records: &[Record]) -> bool
    ensures { IsTrue result ↔ BeginsWithLine p records.now }
{
    match parted(records) {
        Some((Record::Line(of), _)) => of == p,
        _ => false,
    }
}

/// The list begins as that of an interrupt does: with a stop, a move or an up.
pub fn begins_as_interrupt(records: &[Record]) -> bool
    ensures { IsTrue result ↔ BeginsAsInterrupt records.now }
{
    match parted(records) {
        Some((Record::Stop(..) | Record::Move(..) | Record::Up(..), _)) => true,
        _ => false,
    }
}

/// The list begins with the leave of a processor from its owner, where the upcall page of the space is absent.
pub fn is_leave(
    p: ProcNo,
    owner: Option<SpaceNo>,
    s: SpaceNo,
    fetching: bool,
    records: &[Record],
) -> bool
    ensures { IsTrue result ↔ (leave_run records.now ≡ leave_records p owner s fetching) }
{
    match parted(leave_run(records)) {
        Some((Record::Move(old, None), others)) => {
            old == owner && is_aim_and_fetch(p, s, fetching, others)
        }
        _ => false,
    }
}

// The aim of the processor at none, and after it the fetch that is due.
fn is_aim_and_fetch(p: ProcNo, s: SpaceNo, fetching: bool, records: &[Record]) -> bool
    ensures { IsTrue result ↔ (records.now ≡ Aim p None ∷ fetch_records s fetching) }
{
    match parted(records) {
        Some((Record::Aim(q, None), fetch)) => q == p && is_fetch_unless(s, fetching, fetch),
        _ => false,
    }
}

// A fetch for the space, or nothing where it is being fetched.
fn is_fetch_unless(s: SpaceNo, fetching: bool, records: &[Record]) -> bool
    ensures { IsTrue result ↔ (records.now ≡ fetch_records s fetching) }
{
    if fetching {
        return records.is_empty();
    }
    match parted(records) {
        Some((Record::Fetch(of), others)) => of == s && others.is_empty(),
        _ => false,
    }
}

/// What follows a block on a processor of this space: an up of it, or the leave where its upcall page is absent.
pub fn follows_block(p: ProcNo, s: SpaceNo, page: UpcallPage, records: &[Record]) -> bool
    ensures { (r : Readings) → IsSeen r s page
        → (IsTrue result ↔ UpOrLeave page.resident p r s records.now) }
{
    if page.resident {
        begins_with_up(s, records)
    } else {
        is_leave(p, Some(s), s, page.fetching, records)
    }
}

/// An interrupt's processor goes on in the space of its aim, or leaves where that one's upcall page is absent.
pub fn goes_to(
    p: ProcNo,
    owner: Option<SpaceNo>,
    aim: SpaceNo,
    page: UpcallPage,
    records: &[Record],
) -> bool
    ensures { (r : Readings) → IsSeen r aim page
        → (IsTrue result ↔ GoesToAim p r owner (Some aim) records.now) }
{
    if !page.resident {
        return is_leave(p, owner, aim, page.fetching, records);
    }
    if owner == Some(aim) {
        return begins_with_up(aim, records);
    }
    match parted(records) {
        Some((Record::Move(old, new), others)) => {
            old == owner && new == Some(aim) && begins_with_up(aim, others)
        }
        _ => false,
    }
}

/// An interrupt of a processor with this owner and aim: the stop of the owner's life, if there is an owner, and after it
/// where the processor goes on.
pub fn stops_and_goes(
    p: ProcNo,
    owner: Option<SpaceNo>,
    aim: SpaceNo,
    page: UpcallPage,
    records: &[Record],
) -> bool
    ensures { (r : Readings) → IsSeen r aim page
        → (IsTrue result ↔ StopsAndGoes p r owner (Some aim) records.now) }
{
    let Some(space) = owner else {
        return goes_to(p, owner, aim, page, records);
    };
    match parted(records) {
        Some((Record::Stop(of, _, _), others)) => {
            of == space && goes_to(p, owner, aim, page, others)
        }
        _ => false,
    }
}
