// Words in quotes, and lists of names.
ghost use Rattle.std.specs.Prelude.{◌≡◌, ◌++◌, OnOk, take};
ghost use Rattle.toga_source.specs.Show.{with_numbers};
ghost use Rattle.toga_diagnostic.specs.Listed.{around, between, counted, cut, listed, listed_name, quoted};

use sa_text::print_number;
use std::alloc::AllocError;
use toga_source::Name;

/// The bytes of a quoted word at most.
const MAX_QUOTED: usize = 32;

/// The names that are listed at most.
const MAX_LISTED: usize = 8;

/// Appends a word in quotes.
#[tactic(auto, unfolding(crate::specs::Listed::quoted))]
pub(crate) fn push_quoted(out: &mut Vec<u8>, word: &[u8]) -> Result<(), AllocError>
    ensures { OnOk result (out.new.items ≡ out.old.items ++ quoted word.now) }
{
    out.extend_from_slice(b"`")?;
    push_cut(out, word)?;
    out.extend_from_slice(b"`")
}

/// Appends a word, cut if it is long.
#[tactic(auto, unfolding(crate::specs::Listed::cut))]
pub(crate) fn push_cut(out: &mut Vec<u8>, word: &[u8]) -> Result<(), AllocError>
    ensures { OnOk result (out.new.items ≡ out.old.items ++ cut word.now) }
{
    if word.len() <= MAX_QUOTED {
        return out.extend_from_slice(word);
    }
    let front = &word[..MAX_QUOTED];
    out.extend_from_slice(front)?;
    out.extend_from_slice(b"..")
}

/// Appends bytes between others.
#[tactic(auto, unfolding(crate::specs::Listed::between))]
pub(crate) fn push_between(
    out: &mut Vec<u8>,
    before: &[u8],
    middle: &[u8],
    after: &[u8],
) -> Result<(), AllocError>
    ensures { OnOk result (out.new.items ≡ out.old.items ++ between before.now middle.now after.now) }
{
    out.extend_from_slice(before)?;
    out.extend_from_slice(middle)?;
    out.extend_from_slice(after)
}

/// Appends a word in quotes between other words.
#[tactic(auto, unfolding(crate::specs::Listed::between))]
pub(crate) fn push_around(
    out: &mut Vec<u8>,
    before: &[u8],
    word: &[u8],
    after: &[u8],
) -> Result<(), AllocError>
    ensures { OnOk result (out.new.items ≡ out.old.items ++ around before.now word.now after.now) }
{
    out.extend_from_slice(before)?;
    push_quoted(out, word)?;
    out.extend_from_slice(after)
}

/// Appends a number between other words.
#[tactic(auto, unfolding(crate::specs::Listed::between))]
pub(crate) fn push_counted(
    out: &mut Vec<u8>,
    before: &[u8],
    n: u64,
    after: &[u8],
) -> Result<(), AllocError>
    ensures { OnOk result (out.new.items ≡ out.old.items ++ counted before.now n after.now) }
{
    out.extend_from_slice(before)?;
    print_number(n, out)?;
    out.extend_from_slice(after)
}

/// Appends names in quotes: the first eight, and how many more there are.
#[tactic(auto, unfolding(crate::specs::Listed::listed))]
pub(crate) fn push_listed(out: &mut Vec<u8>, names: &[Name]) -> Result<(), AllocError>
    ensures { OnOk result (out.new.items ≡ out.old.items ++ listed names.now) }
{
    if names.len() <= MAX_LISTED {
        return push_names(out, names);
    }
    let first = &names[..MAX_LISTED];
    push_names(out, first)?;
    push_counted(out, b" and ", (names.len() - MAX_LISTED) as u64, b" more")
}

// Appends each name in quotes, with a comma between each two.
fn push_names(out: &mut Vec<u8>, names: &[Name]) -> Result<(), AllocError>
    ensures { OnOk result (out.new.items ≡ out.old.items ++ with_numbers listed_name names.now) }
{
    for (number, name) in names.iter().enumerate() {
        push_name(out, number, name)?;
    }
    Ok(())
}

// Appends the name of this number in the list.
fn push_name(out: &mut Vec<u8>, number: usize, name: &Name) -> Result<(), AllocError>
    ensures { OnOk result (out.new.items ≡ out.old.items ++ listed_name number name.now) }
{
    if number > 0 {
        out.extend_from_slice(b", ")?;
    }
    push_quoted(out, name.bytes())
}
