// What is written of cells.
ghost use Rattle.std.specs.Prelude.{◌≡◌, ◌<◌, ◌+◌, ◌++◌, length, OnOk, IfOk};
ghost use Rattle.std.specs.List.{flat_map};
ghost use Rattle.sa_laws.specs.State.{space_at};
ghost use Rattle.sa_check_moment.specs.Seen.{seen};
ghost use Rattle.sa_cells.specs.declared.cell.Cell.TheVariants.{Thread};
ghost use Rattle.sa_cells.specs.Name.{name_of};
ghost use Rattle.sa_cells.specs.Stays.{Follows, are_calm, next_reached};
ghost use Rattle.sa_cells.specs.Cells.{up_to, processor_cells, act_cells, space_cells, own_cells, sync_cells, thread_cells, cells_of_space};
ghost use Rattle.sa_cells.specs.Change.{cell_line, opening_line, opening_lines, changed_line, change_line, change_lines};

use crate::cell::{Cell, push_name};
use crate::cells::{acts_of, cells_of, push_own, push_sync};
use crate::reach::{are_calm, are_quiet, next_reached};
use crate::stays::{has_no_instr, is_kept};
use crate::text::push_text;
use crate::view::View;
use sa_base::{ActNo, ProcNo, Record, SpaceNo, ThreadNo};
use sa_text::print_number;
use std::alloc::{AllocError, Global};

// What most texts of cells have room in, in bytes.
const ROOM: usize = 64;

/// Appends the line of each cell before any event.
#[tactic(auto, unfolding(crate::specs::Change::opening_lines))]
pub fn push_opening(out: &mut Vec<u8>, alloc: Global, view: &View) -> Result<(), AllocError>
    ensures { OnOk result (out.new.items ≡ out.old.items ++ opening_lines (seen view.now.moment)) }
{
    let cells = cells_of(alloc, &view.moment, &view.moment, &[])?;
    push_opening_cells(out, alloc, view, &cells)
}

fn push_opening_cells(
    out: &mut Vec<u8>,
    alloc: Global,
    view: &View,
    cells: &[Cell],
) -> Result<(), AllocError>
    ensures { OnOk result (out.new.items
        ≡ out.old.items ++ flat_map (opening_line (seen view.now.moment)) cells.now) }
{
    for cell in cells {
        push_opening_cell(out, alloc, view, *cell)?;
    }
    Ok(())
}

fn push_opening_cell(
    out: &mut Vec<u8>,
    alloc: Global,
    view: &View,
    cell: Cell,
) -> Result<(), AllocError>
    ensures { OnOk result (out.new.items ≡ out.old.items ++ opening_line (seen view.now.moment) cell) }
{
    let mut text = Vec::new(alloc);
    push_text(&mut text, alloc, &[], view, cell)?;
    push_cell_line(out, b"-", cell, &text)
}

/// Appends the line of each cell whose text changed in the event of this number and processor with these records, before which
/// this was seen, and after which this is seen, and these were all ups. Only the cells that the event may touch are written out and compared.
#[tactic(auto, using(crate::proofs::Skipped::three_mapped), unfolding(crate::specs::Change::change_lines, crate::specs::Cells::cells_of))]
pub fn push_changes(
    out: &mut Vec<u8>,
    alloc: Global,
    event: u64,
    p: ProcNo,
    ups: &[ActNo],
    before: &View,
    view: &View,
    records: &[Record],
) -> Result<(), AllocError>
    requires { Follows (seen before.now.moment) (seen view.now.moment) event p records.now }
    ensures { OnOk result (out.new.items ≡ out.old.items
        ++ change_lines event ups.now (seen before.now.moment) (seen view.now.moment) records.now) }
{
    let acts = acts_of(alloc, &before.moment, records)?;
    push_changed_processors(out, alloc, event, p, ups, before, view, records)?;
    push_changed_spaces(out, alloc, event, p, ups, before, view, records)?;
    push_changed_acts(out, alloc, event, p, ups, before, view, records, &acts)
}

// Appends the lines of the cells of all processors.
fn push_changed_processors(
    out: &mut Vec<u8>,
    alloc: Global,
    event: u64,
    p: ProcNo,
    ups: &[ActNo],
    before: &View,
    view: &View,
    records: &[Record],
) -> Result<(), AllocError>
    requires { Follows (seen before.now.moment) (seen view.now.moment) event p records.now }
    ensures { OnOk result (out.new.items ≡ out.old.items
        ++ flat_map (change_line event ups.now (seen before.now.moment) (seen view.now.moment))
        (up_to processor_cells (seen view.now.moment).workload.processors)) }
{
    for n in 0..view.moment.workload().processors() {
        push_changed_processor(out, alloc, event, p, ups, before, view, records, ProcNo(n))?;
    }
    Ok(())
}

// Appends the lines of the cells of a processor.
fn push_changed_processor(
    out: &mut Vec<u8>,
    alloc: Global,
    event: u64,
    p: ProcNo,
    ups: &[ActNo],
    before: &View,
    view: &View,
    records: &[Record],
    q: ProcNo,
) -> Result<(), AllocError>
    requires { Follows (seen before.now.moment) (seen view.now.moment) event p records.now }
    ensures { OnOk result (out.new.items ≡ out.old.items
        ++ flat_map (change_line event ups.now (seen before.now.moment) (seen view.now.moment))
        (processor_cells q.0)) }
{
    if are_quiet(records) {
        let cells = [Cell::Line(q), Cell::Runs(q)];
        return push_changed_cells(out, alloc, event, p, ups, before, view, records, &cells);
    }
    let cells = [
        Cell::Owner(q),
        Cell::Aim(q),
        Cell::Line(q),
        Cell::Activation(q),
        Cell::Runs(q),
    ];
    push_changed_cells(out, alloc, event, p, ups, before, view, records, &cells)
}

// Appends the lines of the cells of these activations.
fn push_changed_acts(
    out: &mut Vec<u8>,
    alloc: Global,
    event: u64,
    p: ProcNo,
    ups: &[ActNo],
    before: &View,
    view: &View,
    records: &[Record],
    acts: &[ActNo],
) -> Result<(), AllocError>
    requires { Follows (seen before.now.moment) (seen view.now.moment) event p records.now }
    ensures { OnOk result (out.new.items ≡ out.old.items
        ++ flat_map (change_line event ups.now (seen before.now.moment) (seen view.now.moment))
        (flat_map act_cells acts.now)) }
{
    for a in acts {
        push_changed_act(out, alloc, event, p, ups, before, view, records, *a)?;
    }
    Ok(())
}

// Appends the lines of the cells of an activation.
fn push_changed_act(
    out: &mut Vec<u8>,
    alloc: Global,
    event: u64,
    p: ProcNo,
    ups: &[ActNo],
    before: &View,
    view: &View,
    records: &[Record],
    a: ActNo,
) -> Result<(), AllocError>
    requires { Follows (seen before.now.moment) (seen view.now.moment) event p records.now }
    ensures { OnOk result (out.new.items ≡ out.old.items
        ++ flat_map (change_line event ups.now (seen before.now.moment) (seen view.now.moment))
        (act_cells a)) }
{
    if are_quiet(records) {
        let cells = [Cell::Hand(a)];
        return push_changed_cells(out, alloc, event, p, ups, before, view, records, &cells);
    }
    let cells = [Cell::Where(a), Cell::Locks(a), Cell::Hand(a)];
    push_changed_cells(out, alloc, event, p, ups, before, view, records, &cells)
}

// Appends the lines of the cells of all spaces.
fn push_changed_spaces(
    out: &mut Vec<u8>,
    alloc: Global,
    event: u64,
    p: ProcNo,
    ups: &[ActNo],
    before: &View,
    view: &View,
    records: &[Record],
) -> Result<(), AllocError>
    requires { Follows (seen before.now.moment) (seen view.now.moment) event p records.now }
    ensures { OnOk result (out.new.items ≡ out.old.items
        ++ flat_map (change_line event ups.now (seen before.now.moment) (seen view.now.moment))
        (up_to (space_cells (seen view.now.moment)) (length (seen view.now.moment).workload.spaces))) }
{
    let calm = are_calm(&before.moment, records);
    view.moment.workload().ranges();
    let spaces = view.moment.workload().spaces().len() as u16;
    for n in 0..spaces {
        let s = SpaceNo(n);
        push_changed_space(out, alloc, event, p, ups, before, view, records, calm, s)?;
    }
    Ok(())
}

// Appends the lines of the cells of a space; the records are calm or not.
#[tactic(auto, using(crate::proofs::Skipped::three_mapped), unfolding(crate::specs::Cells::cells_of_space))]
fn push_changed_space(
    out: &mut Vec<u8>,
    alloc: Global,
    event: u64,
    p: ProcNo,
    ups: &[ActNo],
    before: &View,
    view: &View,
    records: &[Record],
    calm: bool,
    s: SpaceNo,
) -> Result<(), AllocError>
    requires within { s.0 < length (seen view.now.moment).workload.spaces }
    requires calm { calm ≡ are_calm (seen before.now.moment).workload (seen before.now.moment).readings.state records.now }
    requires follows { Follows (seen before.now.moment) (seen view.now.moment) event p records.now }
    ensures { OnOk result (out.new.items ≡ out.old.items
        ++ flat_map (change_line event ups.now (seen before.now.moment) (seen view.now.moment))
        (cells_of_space (seen view.now.moment) s)) }
{
    push_changed_own(out, alloc, event, p, ups, before, view, records, s)?;
    let made = view.moment.made(s);
    push_changed_threads(
        out, alloc, event, p, ups, before, view, records, calm, s, made,
    )?;
    push_changed_sync(out, alloc, event, p, ups, before, view, records, s)
}

// Appends the lines of the cells of a space itself and of its lists, unless the event keeps them for certain.
fn push_changed_own(
    out: &mut Vec<u8>,
    alloc: Global,
    event: u64,
    p: ProcNo,
    ups: &[ActNo],
    before: &View,
    view: &View,
    records: &[Record],
    s: SpaceNo,
) -> Result<(), AllocError>
    requires { Follows (seen before.now.moment) (seen view.now.moment) event p records.now }
    ensures { OnOk result (out.new.items ≡ out.old.items
        ++ flat_map (change_line event ups.now (seen before.now.moment) (seen view.now.moment))
        (own_cells (seen view.now.moment) s)) }
{
    if are_quiet(records) {
        return Ok(());
    }
    let mut cells = Vec::with_capacity(alloc, 1)?;
    push_own(&mut cells, &view.moment, s)?;
    push_changed_cells(out, alloc, event, p, ups, before, view, records, &cells)
}

// Appends the lines of what the threads of a space wait on and share, unless the event keeps it for certain.
fn push_changed_sync(
    out: &mut Vec<u8>,
    alloc: Global,
    event: u64,
    p: ProcNo,
    ups: &[ActNo],
    before: &View,
    view: &View,
    records: &[Record],
    s: SpaceNo,
) -> Result<(), AllocError>
    requires within { s.0 < length (seen view.now.moment).workload.spaces }
    requires follows { Follows (seen before.now.moment) (seen view.now.moment) event p records.now }
    ensures { OnOk result (out.new.items ≡ out.old.items
        ++ flat_map (change_line event ups.now (seen before.now.moment) (seen view.now.moment))
        (sync_cells (seen view.now.moment) s)) }
{
    if has_no_instr(s, records) {
        return Ok(());
    }
    let mut cells = Vec::new(alloc);
    push_sync(&mut cells, &view.moment, s)?;
    push_changed_cells(out, alloc, event, p, ups, before, view, records, &cells)
}

// Appends the lines of the threads of a space, so many, of which only those are looked at that the event reaches.
fn push_changed_threads(
    out: &mut Vec<u8>,
    alloc: Global,
    event: u64,
    p: ProcNo,
    ups: &[ActNo],
    before: &View,
    view: &View,
    records: &[Record],
    calm: bool,
    s: SpaceNo,
    made: u16,
) -> Result<(), AllocError>
    requires made { made ≡ length (space_at (seen view.now.moment).readings.state s).threads }
    requires calm { calm ≡ are_calm (seen before.now.moment).workload (seen before.now.moment).readings.state records.now }
    requires follows { Follows (seen before.now.moment) (seen view.now.moment) event p records.now }
    ensures { OnOk result (out.new.items ≡ out.old.items
        ++ flat_map (change_line event ups.now (seen before.now.moment) (seen view.now.moment))
        (thread_cells (seen view.now.moment) s)) }
{
    let mut next = next_reached(records, calm, s, 0, made);
    while next < made {
        next = push_next_thread(
            out, alloc, event, p, ups, before, view, records, calm, s, next, made,
        )?;
    }
    Ok(())
}

// Appends the line of a thread, and says which is the next below the end that the event reaches.
fn push_next_thread(
    out: &mut Vec<u8>,
    alloc: Global,
    event: u64,
    p: ProcNo,
    ups: &[ActNo],
    before: &View,
    view: &View,
    records: &[Record],
    calm: bool,
    s: SpaceNo,
    t: u16,
    end: u16,
) -> Result<u16, AllocError>
    requires below { t < end }
    requires follows { Follows (seen before.now.moment) (seen view.now.moment) event p records.now }
    ensures next { IfOk result (λ next. next ≡ next_reached calm s (t + 1) end records.now) }
    ensures line { OnOk result (out.new.items ≡ out.old.items
        ++ change_line event ups.now (seen before.now.moment) (seen view.now.moment) (Thread s (record { 0 = t }))) }
{
    let cell = Cell::Thread(s, ThreadNo(t));
    push_touched_cell(out, alloc, event, p, ups, before, view, records, cell)?;
    Ok(next_reached(records, calm, s, t + 1, end))
}

fn push_changed_cells(
    out: &mut Vec<u8>,
    alloc: Global,
    event: u64,
    p: ProcNo,
    ups: &[ActNo],
    before: &View,
    view: &View,
    records: &[Record],
    cells: &[Cell],
) -> Result<(), AllocError>
    requires { Follows (seen before.now.moment) (seen view.now.moment) event p records.now }
    ensures { OnOk result (out.new.items ≡ out.old.items
        ++ flat_map (change_line event ups.now (seen before.now.moment) (seen view.now.moment)) cells.now) }
{
    for cell in cells {
        push_touched_cell(out, alloc, event, p, ups, before, view, records, *cell)?;
    }
    Ok(())
}

// Appends the line of a cell, unless the event keeps it for certain.
fn push_touched_cell(
    out: &mut Vec<u8>,
    alloc: Global,
    event: u64,
    p: ProcNo,
    ups: &[ActNo],
    before: &View,
    view: &View,
    records: &[Record],
    cell: Cell,
) -> Result<(), AllocError>
    requires { Follows (seen before.now.moment) (seen view.now.moment) event p records.now }
    ensures { OnOk result (out.new.items ≡ out.old.items
        ++ change_line event ups.now (seen before.now.moment) (seen view.now.moment) cell) }
{
    if is_kept(before, view, event, p, records, cell) {
        return Ok(());
    }
    push_changed_cell(out, alloc, event, ups, before, view, cell)
}

fn push_changed_cell(
    out: &mut Vec<u8>,
    alloc: Global,
    event: u64,
    ups: &[ActNo],
    before: &View,
    view: &View,
    cell: Cell,
) -> Result<(), AllocError>
    ensures { OnOk result (out.new.items ≡ out.old.items
        ++ change_line event ups.now (seen before.now.moment) (seen view.now.moment) cell) }
{
    let mut old = Vec::with_capacity(alloc, ROOM)?;
    push_text(&mut old, alloc, ups, before, cell)?;
    let mut new = Vec::with_capacity(alloc, ROOM)?;
    push_text(&mut new, alloc, ups, view, cell)?;
    push_changed(out, alloc, event, cell, &old, &new)
}

// Appends the line of a cell, where its text is another one than before.
fn push_changed(
    out: &mut Vec<u8>,
    alloc: Global,
    event: u64,
    cell: Cell,
    old: &[u8],
    new: &[u8],
) -> Result<(), AllocError>
    ensures { OnOk result (out.new.items
        ≡ out.old.items ++ changed_line event (name_of cell) old.now new.now) }
{
    if old == new {
        return Ok(());
    }
    let mut time = Vec::with_capacity(alloc, 20)?;
    print_number(event, &mut time)?;
    push_cell_line(out, &time, cell, new)
}

#[tactic(auto, unfolding(crate::specs::Change::cell_line))]
fn push_cell_line(out: &mut Vec<u8>, time: &[u8], cell: Cell, text: &[u8]) -> Result<(), AllocError>
    ensures { OnOk result (out.new.items ≡ out.old.items ++ cell_line time.now (name_of cell) text.now) }
{
    out.extend_from_slice(time)?;
    out.extend_from_slice(b" ")?;
    push_name(out, cell)?;
    out.extend_from_slice(b" ")?;
    out.extend_from_slice(text)?;
    out.extend_from_slice(b"\n")
}
