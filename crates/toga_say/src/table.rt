// The table of the turns of each processor, by their kinds.
ghost use Rattle.std.specs.Prelude.{◌≡◌, ◌++◌, decimal, replicate, IfOk, OnOk};
ghost use Rattle.std.specs.List.{flat_map, range_with_len};
ghost use Rattle.toga_say.specs.Table.{cell, first_text, head_cell, head_of, head_text, left, number_of, numbers_text, right, row_text, table_text, widest};

use sa_base::ProcNo;
use sa_text::print_number;
use std::alloc::{AllocError, Global};
use toga_kinds::{Kind, Turn, count, events_on};

/// A column of the table.
#[derive(Clone, Copy)]
pub(crate) enum Column {
    /// All turns of a processor.
    Events,
    /// Those of a kind.
    Instructions,
    Package,
    Kernel,
    Idle,
    Spinning,
    Unowned,
}

// The columns, from the left.
const COLUMNS: &[Column] = &[
    Column::Events,
    Column::Instructions,
    Column::Package,
    Column::Kernel,
    Column::Idle,
    Column::Spinning,
    Column::Unowned,
];

// The columns of the word `processor`.
const FIRST: usize = 9;

/// Appends the table of so many processors.
#[tactic(auto, unfolding(crate::specs::Table::table_text))]
pub(crate) fn push_table(
    out: &mut Vec<u8>,
    alloc: Global,
    turns: &[Turn],
    processors: u16,
) -> Result<(), AllocError>
    ensures { OnOk result (out.new.items ≡ out.old.items ++ table_text turns.now processors) }
{
    push_head(out, alloc, turns, processors)?;
    push_rows(out, alloc, turns, processors)
}

#[tactic(auto, unfolding(crate::specs::Table::head_text))]
fn push_head(
    out: &mut Vec<u8>,
    alloc: Global,
    turns: &[Turn],
    processors: u16,
) -> Result<(), AllocError>
    ensures { OnOk result (out.new.items ≡ out.old.items ++ head_text turns.now processors) }
{
    out.extend_from_slice(b"  processor")?;
    push_heads(out, alloc, turns, processors, COLUMNS)?;
    out.extend_from_slice(b"\n")
}

// Appends the heads of the columns.
fn push_heads(
    out: &mut Vec<u8>,
    alloc: Global,
    turns: &[Turn],
    processors: u16,
    columns: &[Column],
) -> Result<(), AllocError>
    ensures { OnOk result (out.new.items ≡ out.old.items ++ flat_map (head_cell turns.now processors) columns.now) }
{
    for column in columns {
        push_head_cell(out, alloc, turns, processors, *column)?;
    }
    Ok(())
}

fn push_head_cell(
    out: &mut Vec<u8>,
    alloc: Global,
    turns: &[Turn],
    processors: u16,
    column: Column,
) -> Result<(), AllocError>
    ensures { OnOk result (out.new.items ≡ out.old.items ++ head_cell turns.now processors column) }
{
    let width = widest(alloc, turns, column, processors)?;
    out.extend_from_slice(b"  ")?;
    push_right(out, width, head_of(column))
}

// Appends a row for each processor.
fn push_rows(
    out: &mut Vec<u8>,
    alloc: Global,
    turns: &[Turn],
    processors: u16,
) -> Result<(), AllocError>
    ensures { OnOk result (out.new.items ≡ out.old.items
        ++ flat_map (row_text turns.now processors) (range_with_len 0 processors)) }
{
    for p in 0..processors {
        push_row(out, alloc, turns, processors, p)?;
    }
    Ok(())
}

#[tactic(auto, unfolding(crate::specs::Table::row_text))]
fn push_row(
    out: &mut Vec<u8>,
    alloc: Global,
    turns: &[Turn],
    processors: u16,
    p: u16,
) -> Result<(), AllocError>
    ensures { OnOk result (out.new.items ≡ out.old.items ++ row_text turns.now processors p) }
{
    out.extend_from_slice(b"  ")?;
    push_first(out, alloc, p)?;
    push_numbers(out, alloc, turns, processors, p)?;
    out.extend_from_slice(b"\n")
}

// Appends the number of a processor, in the first column.
#[tactic(auto, unfolding(crate::specs::Table::first_text))]
fn push_first(out: &mut Vec<u8>, alloc: Global, p: u16) -> Result<(), AllocError>
    ensures { OnOk result (out.new.items ≡ out.old.items ++ first_text p) }
{
    let number = digits(alloc, u64::from(p))?;
    push_left(out, FIRST, &number)
}

// Appends the numbers of a processor.
#[tactic(auto, unfolding(crate::specs::Table::numbers_text))]
fn push_numbers(
    out: &mut Vec<u8>,
    alloc: Global,
    turns: &[Turn],
    processors: u16,
    p: u16,
) -> Result<(), AllocError>
    ensures { OnOk result (out.new.items ≡ out.old.items ++ numbers_text turns.now processors p) }
{
    push_cells(out, alloc, turns, processors, ProcNo(p), COLUMNS)
}

// Appends the cells of a processor.
fn push_cells(
    out: &mut Vec<u8>,
    alloc: Global,
    turns: &[Turn],
    processors: u16,
    p: ProcNo,
    columns: &[Column],
) -> Result<(), AllocError>
    ensures { OnOk result (out.new.items ≡ out.old.items ++ flat_map (cell turns.now processors p) columns.now) }
{
    for column in columns {
        push_cell(out, alloc, turns, processors, p, *column)?;
    }
    Ok(())
}

fn push_cell(
    out: &mut Vec<u8>,
    alloc: Global,
    turns: &[Turn],
    processors: u16,
    p: ProcNo,
    column: Column,
) -> Result<(), AllocError>
    ensures { OnOk result (out.new.items ≡ out.old.items ++ cell turns.now processors p column) }
{
    let width = widest(alloc, turns, column, processors)?;
    let number = digits(alloc, number_of(turns, p, column))?;
    out.extend_from_slice(b"  ")?;
    push_right(out, width, &number)
}

// The width of a column: that of its head, or of its widest number.
fn widest(
    alloc: Global,
    turns: &[Turn],
    column: Column,
    processors: u16,
) -> Result<usize, AllocError>
    ensures { IfOk result (λ width. width ≡ widest turns.now column processors) }
{
    let mut width = head_of(column).len();
    for p in 0..processors {
        let number = digits(alloc, number_of(turns, ProcNo(p), column))?;
        width = width.max(number.len());
    }
    Ok(width)
}

// The head of a column.
fn head_of(column: Column) -> &'static [u8]
    ensures { result.now ≡ head_of column }
{
    match column {
        Column::Events => b"events",
        Column::Instructions => b"instructions",
        Column::Package => b"package",
        Column::Kernel => b"kernel",
        Column::Idle => b"idle",
        Column::Spinning => b"spinning",
        Column::Unowned => b"unowned",
    }
}

// The number in a column of a processor.
fn number_of(turns: &[Turn], p: ProcNo, column: Column) -> u64
    ensures { result ≡ number_of turns.now p column }
{
    match column {
        Column::Events => events_on(turns, p),
        Column::Instructions => count(turns, p, Kind::Instructions),
        Column::Package => count(turns, p, Kind::Package),
        Column::Kernel => count(turns, p, Kind::Kernel),
        Column::Idle => count(turns, p, Kind::Idle),
        Column::Spinning => count(turns, p, Kind::Spinning),
        Column::Unowned => count(turns, p, Kind::Unowned),
    }
}

// A number in decimal.
fn digits(alloc: Global, n: u64) -> Result<Vec<u8>, AllocError>
    ensures { IfOk result (λ digits. digits.items ≡ decimal n) }
{
    let mut digits = Vec::new(alloc);
    print_number(n, &mut digits)?;
    Ok(digits)
}

// Appends a word at the right of so many columns.
fn push_right(out: &mut Vec<u8>, width: usize, word: &[u8]) -> Result<(), AllocError>
    ensures { OnOk result (out.new.items ≡ out.old.items ++ right width word.now) }
{
    push_blanks(out, width.saturating_sub(word.len()))?;
    out.extend_from_slice(word)
}

// Appends a word at the left of so many columns.
fn push_left(out: &mut Vec<u8>, width: usize, word: &[u8]) -> Result<(), AllocError>
    ensures { OnOk result (out.new.items ≡ out.old.items ++ left width word.now) }
{
    out.extend_from_slice(word)?;
    push_blanks(out, width.saturating_sub(word.len()))
}

fn push_blanks(out: &mut Vec<u8>, count: usize) -> Result<(), AllocError>
    ensures { OnOk result (out.new.items ≡ out.old.items ++ replicate count 32) }
{
    for _place in 0..count {
        out.extend_from_slice(b" ")?;
    }
    Ok(())
}
