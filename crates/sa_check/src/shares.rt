// The shares of the spaces at a moment.
ghost use Rattle.std.specs.Prelude.{◌≡◌, ◌≤◌, ◌<◌, ◌↔◌, ℕ, length, IsTrue};
ghost use Rattle.sa_share.specs.Share.{share_at};
ghost use Rattle.sa_assign.specs.Aims.{aimed};
ghost use Rattle.sa_laws.specs.Closing.{claim_of, claims_of, first_space, shares_at};
ghost use Rattle.sa_check_moment.specs.Seen.{seen};

use arrayvec::ArrayVec;
use sa_assign::{aimed, have_shares};
use sa_base::{MAX_SPACES, SpaceNo};
use sa_check_moment::Moment;
use sa_share::{Claim, shares};
use sa_spaces::Workload;

/// How many processors each space gets at this event: place `s` has the share of space `s`, and 0 past the spaces.
pub(crate) fn shares_at(moment: &Moment, event: u64) -> [u16; MAX_SPACES]
    ensures { result ≡ shares_at (seen moment.now).workload event (seen moment.now).readings }
{
    let workload = moment.workload();
    let claims = claims(moment);
    shares(workload.processors(), first_space(workload, event), &claims)
}

/// Each space has at least its share of aims, at this event.
pub(crate) fn covers_shares(moment: &Moment, event: u64) -> bool
    ensures { IsTrue result ↔ ((s : ℕ)
        → share_at (shares_at (seen moment.now).workload event (seen moment.now).readings) s
        ≤ aimed s (seen moment.now).readings.aims) }
{
    have_shares(&shares_at(moment, event), moment.aims())
}

/// The space whose turn it is to be served first at this event.
pub(crate) fn first_space(workload: &Workload, event: u64) -> u16
    ensures is { result ≡ first_space workload.now event }
    ensures within { result < length workload.now.spaces }
{
    let spaces = workload.spaces().len();
    let slice = workload.slice();
    if slice == 0 {
        return 0;
    }
    (event / u64::from(slice) % spaces as u64) as u16
}

// What each space claims.
fn claims(moment: &Moment) -> ArrayVec<Claim, MAX_SPACES>
    ensures { result.items ≡ claims_of (seen moment.now).workload (seen moment.now).readings }
{
    let mut claims = ArrayVec::new();
    for s in 0..moment.workload().spaces().len() {
        claims.push(claim(moment, SpaceNo(s as u16)));
    }
    claims
}

// What the space claims.
fn claim(moment: &Moment, s: SpaceNo) -> Claim
    requires { s.0 < length (seen moment.now).workload.spaces }
    ensures { result ≡ claim_of (seen moment.now).workload (seen moment.now).readings s }
{
    let demand = moment.demand(s);
    Claim {
        priority: moment.workload().spaces()[usize::from(s.0)].priority(),
        want: if moment.is_fetching(s) {
            usize::from(demand).min(aimed(moment.aims(), s)) as u16
        } else {
            demand
        },
    }
}
