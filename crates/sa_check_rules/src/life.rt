// What a rule asks of a life.
ghost use Rattle.std.specs.Prelude.{◌≡◌, ◌↔◌, [], false, IsTrue};
ghost use Rattle.sa_laws.specs.State.{space_def};
ghost use Rattle.sa_laws.specs.Readings.{HasNothing, IsLocked, carried_by};
ghost use Rattle.sa_laws.specs.Turns.{FindsNone};
ghost use Rattle.sa_check_moment.specs.Seen.{seen};

use sa_base::{ProcNo, SpaceNo, ThreadNo};
use sa_check_lives::KeptLife;
use sa_check_moment::Moment;

/// No lock, no cont without its back, and an empty hand.
pub(crate) fn has_nothing(moment: &Moment, life: &KeptLife) -> bool
    ensures { IsTrue result ↔ HasNothing (seen moment.now).readings life.now }
{
    has_no_lock(life) && !moment.has_hand(life)
}

/// No lock, and no cont without its back.
pub(crate) fn has_no_lock(life: &KeptLife) -> bool
    ensures { IsTrue result ↔ ((life.now.locks ≡ []) × (life.now.cont ≡ false)) }
{
    life.locks().is_empty() && !life.cont()
}

/// The list is one of the life's space, and nobody locks it.
pub(crate) fn is_unlocked(moment: &Moment, life: &KeptLife, s: SpaceNo, l: ProcNo) -> bool
    ensures { IsTrue result ↔ ((s ≡ life.now.space) × (IsLocked (seen moment.now).readings s l → ⊥)) }
{
    s == life.space() && !moment.is_locked(s, l)
}

/// The thread that the life carries.
pub(crate) fn carried_by(moment: &Moment, life: &KeptLife) -> Option<ThreadNo>
    ensures { result ≡ carried_by (seen moment.now).readings life.now }
{
    moment.carried(life.proc())
}

/// The life has no thread to run, and finds none.
#[inline(always)]
pub(crate) fn finds_none(moment: &Moment, life: &KeptLife) -> bool
    ensures { IsTrue result ↔ FindsNone (seen moment.now).readings life.now }
{
    carried_by(moment, life).is_none() && moment.none_is_open(life.space())
}

/// The patience of a space; one that the workload does not have has none.
pub(crate) fn patience(moment: &Moment, s: SpaceNo) -> u16
    ensures { result ≡ (space_def (seen moment.now).workload s).patience }
{
    match moment.workload().spaces().get(usize::from(s.0)) {
        Some(space) => space.patience(),
        None => 0,
    }
}
