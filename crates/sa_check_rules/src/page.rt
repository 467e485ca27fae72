// The upcall page of a space.
ghost use Rattle.sa_check_shapes.specs.Page.{IsSeen};
ghost use Rattle.sa_check_moment.specs.Seen.{seen};

use sa_base::{SpaceNo, UPCALL_PAGE};
use sa_check_moment::Moment;
use sa_check_shapes::UpcallPage;

/// What is read of it.
pub(crate) fn upcall_page(moment: &Moment, s: SpaceNo) -> UpcallPage
    ensures { IsSeen (seen moment.now).readings s result }
{
    UpcallPage {
        resident: moment.is_resident(s, UPCALL_PAGE),
        fetching: moment.is_fetching(s),
    }
}
