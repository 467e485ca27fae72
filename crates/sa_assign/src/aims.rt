// Which processor is chosen for a space that misses one: over slices, for the kernel and for who checks it.
ghost use Rattle.std.specs.Prelude.{◌≡◌, ℕ, ◌-◌, ◌≤◌, ◌<◌, ◌↔◌, false, length, slice_index_or, if◌then◌else◌, EachIndex, IfSome, IsTrue};
ghost use Rattle.sa_share.specs.Share.{share_at};
ghost use Rattle.sa_assign.specs.Aims.{aimed, is_aim, has_no_aim, can_be_spared, is_idle_and_spared, least_below, greatest_below, choice};

use sa_base::SpaceNo;
use sa_share::{MAX_PROCESSORS, MAX_SPACES};

/// The processor for a space that misses one, among these shares, idle marks and aims: the lowest-numbered one without an
/// aim, else the lowest-numbered idle one of a space with more than its share, else the highest-numbered one of such a space.
pub fn choice(shares: &[u16; MAX_SPACES], marks: &[bool], aims: &[Option<SpaceNo>]) -> Option<u16>
    requires { length aims.now ≤ MAX_PROCESSORS }
    ensures choice { result ≡ choice shares.now marks.now aims.now }
    ensures within { IfSome result (λ p. p < length aims.now) }
{
    if let Some(p) = first_without_aim(aims) {
        return Some(p);
    }
    if let Some(p) = first_idle(shares, marks, aims) {
        return Some(p);
    }
    last_to_spare(shares, aims)
}

// The lowest-numbered processor without an aim.
fn first_without_aim(aims: &[Option<SpaceNo>]) -> Option<u16>
    requires { length aims.now ≤ MAX_PROCESSORS }
    ensures { result ≡ least_below (length aims.now) (has_no_aim aims.now) }
{
    for p in 0..aims.len() {
        if aims[p].is_none() {
            return Some(p as u16);
        }
    }
    None
}

// The lowest-numbered processor that is marked idle and aimed at a space with more than its share.
fn first_idle(shares: &[u16; MAX_SPACES], marks: &[bool], aims: &[Option<SpaceNo>]) -> Option<u16>
    requires { length aims.now ≤ MAX_PROCESSORS }
    ensures { result ≡ least_below (length aims.now) (is_idle_and_spared shares.now marks.now aims.now) }
{
    for p in 0..aims.len() {
        if is_idle(marks, p) && can_be_spared(shares, aims, p) {
            return Some(p as u16);
        }
    }
    None
}

// The highest-numbered processor aimed at a space with more than its share.
fn last_to_spare(shares: &[u16; MAX_SPACES], aims: &[Option<SpaceNo>]) -> Option<u16>
    requires { length aims.now ≤ MAX_PROCESSORS }
    ensures { result ≡ greatest_below (length aims.now) (can_be_spared shares.now aims.now) }
{
    for p in (0..aims.len()).rev() {
        if can_be_spared(shares, aims, p) {
            return Some(p as u16);
        }
    }
    None
}

// The processor is marked idle.
fn is_idle(marks: &[bool], p: usize) -> bool
    ensures { result ≡ slice_index_or marks.now p false }
{
    marks.get(p).copied().unwrap_or(false)
}

// The processor is aimed at a space with more than its share.
fn can_be_spared(shares: &[u16; MAX_SPACES], aims: &[Option<SpaceNo>], p: usize) -> bool
    requires { p < length aims.now }
    ensures { result ≡ can_be_spared shares.now aims.now p }
{
    match aims[p] {
        None => false,
        Some(s) => {
            let share = shares.get(usize::from(s.0)).copied().unwrap_or(0);
            usize::from(share) < aimed(aims, s)
        }
    }
}

/// How many processors are aimed at the space.
pub fn aimed(aims: &[Option<SpaceNo>], s: SpaceNo) -> usize
    ensures { result ≡ aimed s.0 aims.now }
{
    aims.iter().filter(|aim| **aim == Some(s)).count()
}

/// Each space has at least its share of the aims. They are counted for all spaces at once.
pub fn have_shares(shares: &[u16; MAX_SPACES], aims: &[Option<SpaceNo>]) -> bool
    ensures { IsTrue result ↔ ((s : ℕ) → share_at shares.now s ≤ aimed s aims.now) }
{
    let mut missing = *shares;
    for p in 0..aims.len() {
        take_off(&mut missing, aims[p]);
    }
    are_zero(&missing)
}

// No space misses any.
fn are_zero(missing: &[u16; MAX_SPACES]) -> bool
    ensures { IsTrue result ↔ EachIndex missing.now (λ s. share_at missing.now s ≡ 0) }
{
    missing.iter().all(|places| *places == 0)
}

// The space that is aimed at misses one less, if it misses some.
fn take_off(missing: &mut [u16; MAX_SPACES], aim: Option<SpaceNo>)
    ensures { (s : ℕ) → share_at missing.new s
        ≡ share_at missing.old s - (if is_aim s aim then 1 else 0) }
{
    let Some(s) = aim else {
        return;
    };
    let place = usize::from(s.0);
    if place < MAX_SPACES && missing[place] > 0 {
        missing[place] -= 1;
    }
}
