// Lines of a source, and what they are made of.
ghost use Rattle.std.specs.Prelude.{◌≡◌, ◌++◌, OnOk, codes, decimal};
ghost use Rattle.std.specs.List.{flat_map};
ghost use Rattle.toga_source.specs.Show.{name_line, names_line, number_line, spaced, unusual_line};

use crate::names::Name;
use sa_text::print_number;
use std::alloc::AllocError;

/// Appends a line with one number.
pub(crate) fn push_number_line(out: &mut Vec<u8>, begins: &[u8], n: u64) -> Result<(), AllocError>
    ensures { OnOk result (out.new.items ≡ out.old.items ++ number_line begins.now n) }
{
    out.extend_from_slice(begins)?;
    push_number(out, n)?;
    out.extend_from_slice(b"\n")
}

/// Appends a line with one number, unless that is the usual one.
#[tactic(auto, unfolding(crate::specs::Show::unusual_line))]
pub(crate) fn push_unusual_line(
    out: &mut Vec<u8>,
    begins: &[u8],
    usual: u64,
    n: u64,
) -> Result<(), AllocError>
    ensures { OnOk result (out.new.items ≡ out.old.items ++ unusual_line begins.now usual n) }
{
    if n == usual {
        return Ok(());
    }
    push_number_line(out, begins, n)
}

/// Appends a number after a space.
pub(crate) fn push_number(out: &mut Vec<u8>, n: u64) -> Result<(), AllocError>
    ensures { OnOk result (out.new.items ≡ out.old.items ++ codes " " ++ decimal n) }
{
    out.extend_from_slice(b" ")?;
    print_number(n, out)
}

/// Appends a word after a space.
pub(crate) fn push_word(out: &mut Vec<u8>, word: &[u8]) -> Result<(), AllocError>
    ensures { OnOk result (out.new.items ≡ out.old.items ++ (codes " " ++ word.now)) }
{
    out.extend_from_slice(b" ")?;
    out.extend_from_slice(word)
}

/// Appends a line with one name.
pub(crate) fn push_name_line(
    out: &mut Vec<u8>,
    begins: &[u8],
    name: &[u8],
) -> Result<(), AllocError>
    ensures { OnOk result (out.new.items ≡ out.old.items ++ name_line begins.now name.now) }
{
    out.extend_from_slice(begins)?;
    out.extend_from_slice(b" ")?;
    out.extend_from_slice(name)?;
    out.extend_from_slice(b"\n")
}

/// Appends a line with all names, where there are any.
#[tactic(auto, unfolding(crate::specs::Show::names_line))]
pub(crate) fn push_names_line(
    out: &mut Vec<u8>,
    begins: &[u8],
    names: &[Name],
) -> Result<(), AllocError>
    ensures { OnOk result (out.new.items ≡ out.old.items ++ names_line begins.now names.now) }
{
    if names.len() == 0 {
        return Ok(());
    }
    out.extend_from_slice(begins)?;
    push_names(out, names)?;
    out.extend_from_slice(b"\n")
}

// Appends each name after a space.
fn push_names(out: &mut Vec<u8>, names: &[Name]) -> Result<(), AllocError>
    ensures { OnOk result (out.new.items ≡ out.old.items ++ spaced names.now) }
{
    for name in names {
        push_word(out, name.bytes())?;
    }
    Ok(())
}
