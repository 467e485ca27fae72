// The wants that are due.
ghost use Rattle.std.specs.Prelude.{◌≡◌, ◌↔◌, IfOk, IsTrue};
ghost use Rattle.sa_laws.specs.Closing.{wants_due};
ghost use Rattle.sa_laws.specs.Shape.{wants_in};
ghost use Rattle.sa_check_moment.specs.Seen.{seen};
ghost use Rattle.sa_check.specs.Each.{want_for};

use crate::closing_records::add;
use sa_base::{Record, SpaceNo};
use sa_check_moment::Moment;
use sa_check_shapes::are_wants;
use std::alloc::{AllocError, Global};

/// The wants among the records are those that are due: a space that wants no processor and must be told something wants
/// one. Fails only where memory runs out.
pub(crate) fn are_wants_due(
    alloc: Global,
    moment: &Moment,
    records: &[Record],
) -> Result<bool, AllocError>
    ensures { IfOk result (λ held. IsTrue held ↔ (wants_in records.now
        ≡ wants_due (seen moment.now).workload (seen moment.now).readings)) }
{
    let mut due = Vec::new(alloc);
    for s in 0..moment.workload().spaces().len() {
        add(&mut due, want_for(moment, SpaceNo(s as u16)))?;
    }
    Ok(are_wants(records, due.as_slice()))
}

// The want that is due of the space.
fn want_for(moment: &Moment, s: SpaceNo) -> Option<Record>
    ensures { result ≡ want_for (seen moment.now).readings s }
{
    if moment.must_want(s) {
        Some(Record::Want(s, 1))
    } else {
        None
    }
}
