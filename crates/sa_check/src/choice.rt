// Which processors are aimed anew until each space has its share of aims.
ghost use Rattle.std.specs.Prelude.{◌≡◌, ◌≤◌, ◌<◌, [], ◌∷◌, length, IfOk, OnOk};
ghost use Rattle.sa_assign.specs.Aims.{Change, missing, changes_for, changes};
ghost use Rattle.sa_check_shapes.specs.Due.{changes_of};
ghost use Rattle.sa_check.specs.Reaimed.{carried, reaimed};

use arrayvec::ArrayVec;
use sa_assign::{aimed, choice};
use sa_base::{MAX_PROCESSORS, MAX_SPACES, ProcNo, SpaceNo};
use sa_check_shapes::Aimed;
use std::alloc::{AllocError, Global};

// How many processors there are at most, as a length.
pub(crate) const PLACES: usize = MAX_PROCESSORS as usize;

// The aims as they become, and how they were changed.
#[derive(Drop)]
struct Reaimed {
    aims: ArrayVec<Option<SpaceNo>, PLACES>,
    due: Vec<Aimed>,
}

// The aims that are missed by this many spaces with these shares, in the order of the spaces' numbers.
pub(crate) fn changes(
    alloc: Global,
    spaces: u16,
    shares: &[u16; MAX_SPACES],
    marks: &[bool],
    aims: &[Option<SpaceNo>],
) -> Result<Vec<Aimed>, AllocError>
    requires spaces { spaces ≤ MAX_SPACES }
    requires few { length aims.now ≤ MAX_PROCESSORS }
    ensures { IfOk result (λ due. changes_of due.items ≡ changes spaces shares.now marks.now aims.now) }
{
    let mut reaimed = Reaimed {
        aims: copy_of(aims),
        due: Vec::new(alloc),
    };
    for s in 0..spaces {
        fill(&mut reaimed, shares, marks, SpaceNo(s))?;
    }
    Ok(reaimed.due)
}

// Aims as many processors at the space as it misses.
fn fill(
    now: &mut Reaimed,
    shares: &[u16; MAX_SPACES],
    marks: &[bool],
    s: SpaceNo,
) -> Result<(), AllocError>
    requires space { s.0 < MAX_SPACES }
    requires few { length now.old.aims.items ≤ MAX_PROCESSORS }
    ensures carried { OnOk result (reaimed now.new
        ≡ carried (changes_for (missing shares.now now.old.aims.items s.0) shares.now marks.now s.0 now.old.aims.items)
        (reaimed now.old)) }
    ensures few { length now.new.aims.items ≤ MAX_PROCESSORS }
{
    let missing = usize::from(shares[usize::from(s.0)]).saturating_sub(aimed(&now.aims, s));
    for _ in 0..missing {
        let Some(p) = choice(shares, marks, &now.aims) else {
            return Ok(());
        };
        aim(now, p, s)?;
    }
    Ok(())
}

// The processor is aimed at the space.
fn aim(now: &mut Reaimed, p: u16, s: SpaceNo) -> Result<(), AllocError>
    requires { p < length now.old.aims.items }
    ensures carried { let c : Change = record { proc = p; space = s.0 } in
        OnOk result (reaimed now.new ≡ carried (c ∷ []) (reaimed now.old)) }
    ensures few { length now.new.aims.items ≡ length now.old.aims.items }
{
    now.aims[usize::from(p)] = Some(s);
    now.due.push(Aimed {
        proc: ProcNo(p),
        space: s,
    })?;
    Ok(())
}

// The same aims.
fn copy_of(aims: &[Option<SpaceNo>]) -> ArrayVec<Option<SpaceNo>, PLACES>
    requires { length aims.now ≤ MAX_PROCESSORS }
    ensures { result.items ≡ aims.now }
{
    let mut copy = ArrayVec::new();
    for aim in aims {
        copy.push(*aim);
    }
    copy
}
