// The lines of a trace around an event, each with its words.
ghost use Rattle.std.specs.Prelude.{◌≡◌, ◌++◌, OnOk};
ghost use Rattle.toga_verdict.specs.Verdict.{mark, gap, marked, item_line, is_near, near_line, near_lines, lines_near};

use crate::source::Source;
use crate::words::{instr_of, push_words};
use sa_base::Item;
use sa_programs::Programs;
use sa_trace::append_item;
use std::alloc::{AllocError, Global};

// What stands between a line and its words, at most.
const BLANKS: &[u8] = b"                              ";

/// Appends the lines of the event of this number and of the two before it, each with its words.
pub(crate) fn push_lines_near(
    out: &mut Vec<u8>,
    alloc: Global,
    source: &Source,
    event: u64,
    items: &[Item],
) -> Result<(), AllocError>
    ensures { OnOk result (out.new.items ≡ out.old.items ++ lines_near source.now event items.now) }
{
    source.workload.ranges();
    let mut programs = Programs::new(alloc, source.workload.spaces().len() as u16)?;
    push_from(out, alloc, source, &mut programs, event, items)
}

// The same of items that come after the threads of these programs.
fn push_from(
    out: &mut Vec<u8>,
    alloc: Global,
    source: &Source,
    programs: &mut Programs,
    event: u64,
    items: &[Item],
) -> Result<(), AllocError>
    ensures { OnOk result (out.new.items ≡ out.old.items ++ near_lines source.now programs.old event items.now) }
{
    for item in items {
        push_near(out, alloc, source, programs, event, item)?;
        let instr = instr_of(source, programs, &item.what);
        programs.read(&item.what, instr)?;
    }
    Ok(())
}

// Appends the line of an item with its words, if it is of the event or of one of the two before it.
fn push_near(
    out: &mut Vec<u8>,
    alloc: Global,
    source: &Source,
    programs: &Programs,
    event: u64,
    item: &Item,
) -> Result<(), AllocError>
    ensures { OnOk result (out.new.items ≡ out.old.items ++ near_line source.now programs.now event item.now) }
{
    if is_near(event, item.event) {
        return push_item(out, alloc, source, programs, event, item);
    }
    Ok(())
}

// The number is that of the event, or of one of the two before it.
fn is_near(event: u64, number: u64) -> bool
    ensures { result ≡ is_near event number }
{
    number <= event && event - number <= 2
}

// Appends the line of an item with its words.
#[tactic(auto, unfolding(crate::specs::Verdict::item_line))]
fn push_item(
    out: &mut Vec<u8>,
    alloc: Global,
    source: &Source,
    programs: &Programs,
    event: u64,
    item: &Item,
) -> Result<(), AllocError>
    ensures { OnOk result (out.new.items ≡ out.old.items ++ item_line source.now programs.now event item.now) }
{
    push_marked(out, alloc, event, item)?;
    push_words(out, source, programs, item.what)?;
    out.extend_from_slice(b"\n")
}

// Appends the line of an item, marked if it is of the event, up to its words.
#[tactic(auto, unfolding(crate::specs::Verdict::marked))]
fn push_marked(out: &mut Vec<u8>, alloc: Global, event: u64, item: &Item) -> Result<(), AllocError>
    ensures { OnOk result (out.new.items ≡ out.old.items ++ marked event item.now) }
{
    let mut text = Vec::new(alloc);
    append_item(&mut text, item)?;
    out.extend_from_slice(mark(event, item.event))?;
    out.extend_from_slice(&text)?;
    out.extend_from_slice(gap(text.len()))
}

// The mark of a line.
fn mark(event: u64, number: u64) -> &'static [u8]
    ensures { result.now ≡ mark event number }
{
    if number == event { b"> " } else { b"  " }
}

// What stands between a line of this length and its words.
fn gap(len: usize) -> &'static [u8]
    ensures { result.now ≡ gap len }
{
    let count = 30usize.saturating_sub(len).max(2);
    &BLANKS[..count]
}
