// The numbers of a line, read one after another.
ghost use Rattle.std.specs.Prelude.{◌≡◌, ◌≤◌, length, map, MatchResult, Ok, None, Some};
ghost use Rattle.sa_base.specs.Cause.{cause_number};
ghost use Rattle.sa_workload.specs.declared.field.TheConstants.{MAX_FIELDS};
ghost use Rattle.sa_workload.specs.Fields.{and_then, with_rest, field_at, fields_at, at_end};
ghost use Rattle.sa_workload.specs.Stage.{field_of};

use crate::field::{Field, Numbers};
use sa_base::Cause;
use sa_text::Pieces;

/// A number for each of these fields.
pub fn read_numbers(fields: &[Field], words: &mut Pieces) -> Result<Numbers, Cause>
    requires { length fields.now ≤ MAX_FIELDS }
    ensures { and_then (with_rest result words.new) (λ read. Ok (read.0.items, read.1))
        ≡ fields_at (map field_of fields.now) words.old }
{
    let mut numbers = Numbers::new();
    for field in fields {
        let n = read_number(*field, words)?;
        numbers.push(n);
    }
    Ok(numbers)
}

// The next word as a number of this field.
fn read_number(field: Field, words: &mut Pieces) -> Result<u64, Cause>
    ensures { with_rest result words.new ≡ field_at (field_of field) words.old }
{
    match words.next() {
        Some(word) => field.read(word),
        None => Err(Cause::Missing),
    }
}

/// No word is left.
pub fn read_end(words: &mut Pieces) -> Result<(), Cause>
    ensures { MatchResult result (λ _. at_end words.old ≡ None)
        (λ cause. at_end words.old ≡ Some (cause_number cause)) }
{
    match words.next() {
        None => Ok(()),
        Some(_) => Err(Cause::BadWord),
    }
}
