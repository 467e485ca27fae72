// Pieces of texts.
ghost use Rattle.std.specs.Prelude.{◌≡◌, ◌++◌, decimal, OnOk};

use sa_text::print_number;
use std::alloc::AllocError;

/// Appends a number between two words.
pub(crate) fn push_between(
    out: &mut Vec<u8>,
    before: &[u8],
    n: u64,
    after: &[u8],
) -> Result<(), AllocError>
    ensures { OnOk result (out.new.items ≡ out.old.items ++ (before.now ++ (decimal n ++ after.now))) }
{
    out.extend_from_slice(before)?;
    print_number(n, out)?;
    out.extend_from_slice(after)
}
