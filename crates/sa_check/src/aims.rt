// The aims that are due.
ghost use Rattle.std.specs.Prelude.{◌≡◌, IfOk};
ghost use Rattle.sa_laws.specs.Closing.{aims_due};
ghost use Rattle.sa_check_shapes.specs.Due.{changes_of};
ghost use Rattle.sa_check_moment.specs.Seen.{seen};

use crate::choice::changes;
use crate::shares::shares_at;
use sa_check_moment::Moment;
use sa_check_shapes::Aimed;
use std::alloc::{AllocError, Global};

/// The aims that are due at this event: for each space in the order of their numbers, as many as it misses of its share.
///
/// Fails only where memory runs out.
pub(crate) fn aims_due(alloc: Global, moment: &Moment, event: u64) -> Result<Vec<Aimed>, AllocError>
    ensures { IfOk result (λ due. changes_of due.items
        ≡ aims_due (seen moment.now).workload event (seen moment.now).readings) }
{
    moment.ranges();
    moment.workload().ranges();
    let spaces = moment.workload().spaces().len() as u16;
    let shares = shares_at(moment, event);
    changes(alloc, spaces, &shares, moment.marks(), moment.aims())
}
