// Lists of records.
ghost use Rattle.std.specs.Prelude.{◌≡◌, ◌++◌, ◌↔◌, true, IsTrue, OnOk};
ghost use Rattle.std.specs.List.{list_all};
ghost use Rattle.std.specs.Option.{option_to_list};
ghost use Rattle.sa_laws.specs.Shape.{is_of_closing};

use sa_base::Record;
use sa_check_shapes::parted;
use std::alloc::AllocError;

// Adds the record, if there is one.
pub(crate) fn add(records: &mut Vec<Record>, what: Option<Record>) -> Result<(), AllocError>
    ensures { OnOk result (records.new.items ≡ records.old.items ++ option_to_list what) }
{
    if let Some(what) = what {
        records.push(what)?;
    }
    Ok(())
}

// The record is this other one, which is of a closing.
fn is_same(what: Record, other: Record) -> bool
    requires { is_of_closing other ≡ true }
    ensures { IsTrue result ↔ (what ≡ other) }
{
    match (other, what) {
        (Record::Want(s, n), Record::Want(of, m)) => s == of && n == m,
        (Record::Aim(p, Some(s)), Record::Aim(q, Some(of))) => p == q && s == of,
        (Record::Line(p), Record::Line(q)) => p == q,
        _ => false,
    }
}

// The records are these others, which are all of a closing.
pub(crate) fn are_same(records: &[Record], others: &[Record]) -> bool
    requires { list_all is_of_closing others.now ≡ true }
    ensures { IsTrue result ↔ (records.now ≡ others.now) }
{
    let mut left = others;
    for what in records {
        match parted(left) {
            Some((next, rest)) if is_same(*what, next) => left = rest,
            _ => return false,
        }
    }
    left.is_empty()
}
