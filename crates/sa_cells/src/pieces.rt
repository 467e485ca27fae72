// Pieces of texts.
ghost use Rattle.std.specs.Prelude.{◌≡◌, ◌++◌, OnOk};
ghost use Rattle.sa_cells.specs.Pieces.{numbered, one, two, three, space_if, act_if, a_space, a_thread, and_thread};

use sa_base::{ActNo, SpaceNo, ThreadNo};
use sa_text::print_number;
use std::alloc::AllocError;

/// Appends words.
pub(crate) fn push_piece(out: &mut Vec<u8>, words: &[u8]) -> Result<(), AllocError>
    ensures { OnOk result (out.new.items ≡ out.old.items ++ words.now) }
{
    out.extend_from_slice(words)
}

/// Appends words and a number.
pub(crate) fn push_numbered(out: &mut Vec<u8>, word: &[u8], n: u64) -> Result<(), AllocError>
    ensures { OnOk result (out.new.items ≡ out.old.items ++ numbered word.now n) }
{
    out.extend_from_slice(word)?;
    print_number(n, out)
}

/// Appends a number between words.
#[tactic(auto, unfolding(crate::specs::Pieces::one))]
pub(crate) fn push_one(
    out: &mut Vec<u8>,
    before: &[u8],
    n: u64,
    behind: &[u8],
) -> Result<(), AllocError>
    ensures { OnOk result (out.new.items ≡ out.old.items ++ one before.now n behind.now) }
{
    out.extend_from_slice(before)?;
    print_number(n, out)?;
    out.extend_from_slice(behind)
}

/// Appends two numbers between words.
#[tactic(auto, unfolding(crate::specs::Pieces::two))]
pub(crate) fn push_two(
    out: &mut Vec<u8>,
    before: &[u8],
    n: u64,
    between: &[u8],
    m: u64,
    behind: &[u8],
) -> Result<(), AllocError>
    ensures { OnOk result (out.new.items
        ≡ out.old.items ++ two before.now n between.now m behind.now) }
{
    push_one(out, before, n, between)?;
    print_number(m, out)?;
    out.extend_from_slice(behind)
}

/// Appends three numbers between words.
#[tactic(auto, unfolding(crate::specs::Pieces::three))]
pub(crate) fn push_three(
    out: &mut Vec<u8>,
    before: &[u8],
    n: u64,
    between: &[u8],
    m: u64,
    middle: &[u8],
    k: u64,
    behind: &[u8],
) -> Result<(), AllocError>
    ensures { OnOk result (out.new.items
        ≡ out.old.items ++ three before.now n between.now m middle.now k behind.now) }
{
    push_two(out, before, n, between, m, middle)?;
    print_number(k, out)?;
    out.extend_from_slice(behind)
}

/// Appends the number of a space that may be absent.
pub(crate) fn push_space_if(out: &mut Vec<u8>, s: Option<SpaceNo>) -> Result<(), AllocError>
    ensures { OnOk result (out.new.items ≡ out.old.items ++ space_if s) }
{
    match s {
        None => out.extend_from_slice(b"-"),
        Some(s) => print_number(u64::from(s.0), out),
    }
}

/// Appends the number of an activation that may be absent.
pub(crate) fn push_act_if(out: &mut Vec<u8>, a: Option<ActNo>) -> Result<(), AllocError>
    ensures { OnOk result (out.new.items ≡ out.old.items ++ act_if a) }
{
    match a {
        None => out.extend_from_slice(b"-"),
        Some(a) => print_number(a.0, out),
    }
}

/// Appends a space that may be absent, in words.
#[tactic(auto, unfolding(crate::specs::Pieces::a_space))]
pub(crate) fn push_a_space(out: &mut Vec<u8>, s: Option<SpaceNo>) -> Result<(), AllocError>
    ensures { OnOk result (out.new.items ≡ out.old.items ++ a_space s) }
{
    match s {
        None => out.extend_from_slice(b"no space"),
        Some(s) => push_numbered(out, b"space ", u64::from(s.0)),
    }
}

/// Appends a thread that may be absent, in words.
#[tactic(auto, unfolding(crate::specs::Pieces::a_thread))]
pub(crate) fn push_a_thread(out: &mut Vec<u8>, t: Option<ThreadNo>) -> Result<(), AllocError>
    ensures { OnOk result (out.new.items ≡ out.old.items ++ a_thread t) }
{
    match t {
        None => out.extend_from_slice(b"no thread"),
        Some(t) => push_numbered(out, b"thread ", u64::from(t.0)),
    }
}

/// Appends a thread behind other words, where there is one.
#[tactic(auto, unfolding(crate::specs::Pieces::and_thread))]
pub(crate) fn push_and_thread(out: &mut Vec<u8>, t: Option<ThreadNo>) -> Result<(), AllocError>
    ensures { OnOk result (out.new.items ≡ out.old.items ++ and_thread t) }
{
    match t {
        None => Ok(()),
        Some(t) => push_numbered(out, b", thread ", u64::from(t.0)),
    }
}
