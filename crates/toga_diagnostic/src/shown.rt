// The line of an error as it is shown, and the carets below it.
ghost use Rattle.std.specs.Prelude.{◌≡◌, ◌++◌, ◌+◌, ◌≤◌, ◌<◌, ◌^◌, IfOk, OnOk, drop, length, map, replicate, take};
ghost use Rattle.toga_diagnostic.specs.Shown.{carets_text, first_shown, length_said, longer, margin, shown, shown_byte, shown_line};

use sa_text::print_number;
use std::alloc::{AllocError, Global};

/// How many bytes of a line are shown.
const SHOWN: usize = 80;

/// Appends the line of this number, of which the byte of this column has to be seen.
#[tactic(auto, unfolding(crate::specs::Shown::shown_line))]
pub(crate) fn push_line(
    out: &mut Vec<u8>,
    alloc: Global,
    number: u64,
    column: usize,
    line: &[u8],
) -> Result<(), AllocError>
    ensures { OnOk result (out.new.items ≡ out.old.items ++ shown_line number column line.now) }
{
    push_margin(out, alloc, number)?;
    push_shown(out, part_of(line, first_shown(column)))?;
    out.extend_from_slice(b"\n")
}

// How many bytes before the first that is shown.
fn first_shown(column: usize) -> usize
    ensures { result ≡ first_shown column }
{
    if column <= SHOWN {
        return 0;
    }
    column - 41
}

// The bytes that are shown, from a place on: without blanks at the end of the line.
fn part_of(line: &[u8], first: usize) -> &[u8]
    ensures { result.now ≡ shown line.now first }
{
    let said = &line[..length_said(line)];
    at_most(without_first(said, first), SHOWN)
}

// The bytes without so many at the front.
fn without_first(bytes: &[u8], count: usize) -> &[u8]
    ensures { result.now ≡ drop count bytes.now }
{
    if count >= bytes.len() {
        return &[];
    }
    &bytes[count..]
}

// So many bytes at the front, or all.
fn at_most(bytes: &[u8], count: usize) -> &[u8]
    ensures { result.now ≡ take count bytes.now }
{
    if count >= bytes.len() {
        return bytes;
    }
    &bytes[..count]
}

// How many bytes a line has without the blanks at its end.
fn length_said(line: &[u8]) -> usize
    ensures said { result ≡ length_said line.now }
    ensures within { result ≤ length line.now }
{
    let mut said = 0;
    for (number, byte) in line.iter().enumerate() {
        let next = longer(said, number, *byte);
        said = next;
    }
    said
}

// How many bytes a line has at least, with this one.
fn longer(said: usize, number: usize, byte: u8) -> usize
    requires few { number < 2 ^ 63 }
    requires known { said ≤ number }
    ensures value { result ≡ longer said number byte }
    ensures within { result ≤ number + 1 }
{
    if byte == b' ' || byte == b'\t' || byte == b'\r' {
        return said;
    }
    number + 1
}

// Appends bytes as they are shown.
fn push_shown(out: &mut Vec<u8>, bytes: &[u8]) -> Result<(), AllocError>
    ensures { OnOk result (out.new.items ≡ out.old.items ++ map shown_byte bytes.now) }
{
    for byte in bytes {
        out.push(shown_byte(*byte))?;
    }
    Ok(())
}

// A byte as it is shown: a tab as a space, and any other that is not printed as `?`.
fn shown_byte(byte: u8) -> u8
    ensures { result ≡ shown_byte byte }
{
    if byte == b'\t' {
        return b' ';
    }
    if byte < b' ' || byte > b'~' {
        return b'?';
    }
    byte
}

// Appends the number of a line in five columns or more, and a bar.
#[tactic(auto, unfolding(crate::specs::Shown::margin))]
fn push_margin(out: &mut Vec<u8>, alloc: Global, number: u64) -> Result<(), AllocError>
    ensures { OnOk result (out.new.items ≡ out.old.items ++ margin number) }
{
    let mut digits = Vec::new(alloc);
    print_number(number, &mut digits)?;
    push_times(out, b' ', 5usize.saturating_sub(digits.len()))?;
    out.extend_from_slice(&digits)?;
    out.extend_from_slice(b" | ")
}

/// Appends the carets below what is wrong.
#[tactic(auto, unfolding(crate::specs::Shown::carets_text))]
pub(crate) fn push_carets(out: &mut Vec<u8>, column: usize, width: usize) -> Result<(), AllocError>
    ensures { OnOk result (out.new.items ≡ out.old.items ++ carets_text column width) }
{
    let before = column.saturating_sub(1).saturating_sub(first_shown(column));
    let room = SHOWN.saturating_sub(before);
    out.extend_from_slice(b"      | ")?;
    push_times(out, b' ', before)?;
    push_times(out, b'^', width.min(room).max(1))?;
    out.extend_from_slice(b"\n")
}

// Appends a byte so many times.
fn push_times(out: &mut Vec<u8>, byte: u8, times: usize) -> Result<(), AllocError>
    ensures { OnOk result (out.new.items ≡ out.old.items ++ replicate times byte) }
{
    for count in 0..times {
        let _ = count;
        out.push(byte)?;
    }
    Ok(())
}
