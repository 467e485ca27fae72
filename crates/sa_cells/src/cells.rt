// Which cells there are.
ghost use Rattle.std.specs.Prelude.{◌≡◌, ◌++◌, ◌<◌, [], length, OnOk, IfOk};
ghost use Rattle.std.specs.List.{flat_map};
ghost use Rattle.sa_check_moment.specs.Seen.{seen};
ghost use Rattle.sa_cells.specs.Space.{act_if};
ghost use Rattle.sa_cells.specs.Cells.{processor_cells, list_cells, thread_cell, mutex_cell, semaphore_cell, shared_cell, up_to, own_cells, sync_cells, cells_of_space, space_cells, act_cells, acts_in, has_act, with_act, each_once, acts_of, up_in, ups_in, cells_of};

use crate::cell::Cell;
use crate::space::{act_of_note, push_act, push_running};
use sa_base::{ActNo, ProcNo, Record, SpaceNo, ThreadNo};
use sa_check_moment::Moment;
use std::alloc::{AllocError, Global};

/// The cells of a moment behind an event with these records, and the moment before it.
#[tactic(auto, unfolding(crate::specs::Cells::cells_of))]
pub(crate) fn cells_of(
    alloc: Global,
    before: &Moment,
    moment: &Moment,
    records: &[Record],
) -> Result<Vec<Cell>, AllocError>
    ensures { IfOk result (λ cells. cells.items
        ≡ cells_of (seen before.now) (seen moment.now) records.now) }
{
    let acts = acts_of(alloc, before, records)?;
    let mut cells = Vec::new(alloc);
    push_processors(&mut cells, moment.workload().processors())?;
    push_spaces(&mut cells, moment)?;
    push_acts(&mut cells, &acts)?;
    Ok(cells)
}

/// Appends the cells of the processors.
pub(crate) fn push_processors(cells: &mut Vec<Cell>, processors: u16) -> Result<(), AllocError>
    ensures { OnOk result (cells.new.items ≡ cells.old.items ++ up_to processor_cells processors) }
{
    for n in 0..processors {
        let p = ProcNo(n);
        cells.extend_from_slice(&[
            Cell::Owner(p),
            Cell::Aim(p),
            Cell::Line(p),
            Cell::Activation(p),
            Cell::Runs(p),
        ])?;
    }
    Ok(())
}

fn push_spaces(cells: &mut Vec<Cell>, moment: &Moment) -> Result<(), AllocError>
    ensures { OnOk result (cells.new.items ≡ cells.old.items
        ++ up_to (space_cells (seen moment.now)) (length (seen moment.now).workload.spaces)) }
{
    moment.workload().ranges();
    let spaces = moment.workload().spaces().len() as u16;
    for n in 0..spaces {
        push_space(cells, moment, SpaceNo(n))?;
    }
    Ok(())
}

#[tactic(auto, unfolding(crate::specs::Cells::cells_of_space))]
fn push_space(cells: &mut Vec<Cell>, moment: &Moment, s: SpaceNo) -> Result<(), AllocError>
    requires { s.0 < length (seen moment.now).workload.spaces }
    ensures { OnOk result (cells.new.items ≡ cells.old.items ++ cells_of_space (seen moment.now) s) }
{
    push_own(cells, moment, s)?;
    push_threads(cells, s, moment.made(s))?;
    push_sync(cells, moment, s)
}

/// Appends the cells of a space itself, and of its lists.
#[tactic(auto, unfolding(crate::specs::Cells::own_cells))]
pub(crate) fn push_own(cells: &mut Vec<Cell>, moment: &Moment, s: SpaceNo) -> Result<(), AllocError>
    ensures { OnOk result (cells.new.items ≡ cells.old.items ++ own_cells (seen moment.now) s) }
{
    cells.extend_from_slice(&[Cell::Demand(s), Cell::Untold(s)])?;
    push_lists(cells, s, moment.workload().processors())
}

/// Appends the cells of what the threads of a space wait on and share.
#[tactic(auto, unfolding(crate::specs::Cells::sync_cells))]
pub(crate) fn push_sync(
    cells: &mut Vec<Cell>,
    moment: &Moment,
    s: SpaceNo,
) -> Result<(), AllocError>
    requires { s.0 < length (seen moment.now).workload.spaces }
    ensures { OnOk result (cells.new.items ≡ cells.old.items ++ sync_cells (seen moment.now) s) }
{
    let def = &moment.workload().spaces()[usize::from(s.0)];
    push_mutexes(cells, s, def.mutexes())?;
    push_semaphores(cells, s, def.sems().len() as u16)?;
    push_shared(cells, s, def.cells())
}

fn push_lists(cells: &mut Vec<Cell>, s: SpaceNo, processors: u16) -> Result<(), AllocError>
    ensures { OnOk result (cells.new.items ≡ cells.old.items ++ up_to (list_cells s) processors) }
{
    for n in 0..processors {
        let l = ProcNo(n);
        cells.extend_from_slice(&[Cell::Holder(s, l), Cell::Listed(s, l)])?;
    }
    Ok(())
}

fn push_threads(cells: &mut Vec<Cell>, s: SpaceNo, made: u16) -> Result<(), AllocError>
    ensures { OnOk result (cells.new.items ≡ cells.old.items ++ up_to (thread_cell s) made) }
{
    for n in 0..made {
        cells.push(Cell::Thread(s, ThreadNo(n)))?;
    }
    Ok(())
}

fn push_mutexes(cells: &mut Vec<Cell>, s: SpaceNo, mutexes: u16) -> Result<(), AllocError>
    ensures { OnOk result (cells.new.items ≡ cells.old.items ++ up_to (mutex_cell s) mutexes) }
{
    for n in 0..mutexes {
        cells.push(Cell::Mutex(s, n))?;
    }
    Ok(())
}

fn push_semaphores(cells: &mut Vec<Cell>, s: SpaceNo, semaphores: u16) -> Result<(), AllocError>
    ensures { OnOk result (cells.new.items ≡ cells.old.items ++ up_to (semaphore_cell s) semaphores) }
{
    for n in 0..semaphores {
        cells.push(Cell::Semaphore(s, n))?;
    }
    Ok(())
}

fn push_shared(cells: &mut Vec<Cell>, s: SpaceNo, shared: u16) -> Result<(), AllocError>
    ensures { OnOk result (cells.new.items ≡ cells.old.items ++ up_to (shared_cell s) shared) }
{
    for n in 0..shared {
        cells.push(Cell::Shared(s, n))?;
    }
    Ok(())
}

/// Appends the cells of these activations.
pub(crate) fn push_acts(cells: &mut Vec<Cell>, acts: &[ActNo]) -> Result<(), AllocError>
    ensures { OnOk result (cells.new.items ≡ cells.old.items ++ flat_map act_cells acts.now) }
{
    for a in acts {
        let a = *a;
        cells.extend_from_slice(&[Cell::Where(a), Cell::Locks(a), Cell::Hand(a)])?;
    }
    Ok(())
}

/// The activations that an event with these records may change, each once.
pub(crate) fn acts_of(
    alloc: Global,
    before: &Moment,
    records: &[Record],
) -> Result<Vec<ActNo>, AllocError>
    ensures { IfOk result (λ acts. acts.items ≡ acts_of (seen before.now) records.now) }
{
    let mut all = Vec::new(alloc);
    push_running(&mut all, before.all_running())?;
    push_named(&mut all, records)?;
    each_once(alloc, &all)
}

fn push_named(acts: &mut Vec<ActNo>, records: &[Record]) -> Result<(), AllocError>
    ensures { OnOk result (acts.new.items ≡ acts.old.items ++ flat_map acts_in records.now) }
{
    for what in records {
        push_act(acts, act_in(what))?;
    }
    Ok(())
}

// The activation that a record names.
fn act_in(what: &Record) -> Option<ActNo>
    ensures { act_if result ≡ acts_in what.now }
{
    match *what {
        Record::Stop(_, _, a)
        | Record::Block(_, _, a, _)
        | Record::Unblock(_, _, a)
        | Record::Up(_, a)
        | Record::GiveBack(a) => Some(a),
        Record::Told(note) => act_of_note(note),
        _ => None,
    }
}

/// Appends the activations of the ups of these records.
pub fn push_ups(ups: &mut Vec<ActNo>, records: &[Record]) -> Result<(), AllocError>
    ensures { OnOk result (ups.new.items ≡ ups.old.items ++ ups_in records.now) }
{
    for what in records {
        push_up(ups, what)?;
    }
    Ok(())
}

fn push_up(ups: &mut Vec<ActNo>, what: &Record) -> Result<(), AllocError>
    ensures { OnOk result (ups.new.items ≡ ups.old.items ++ up_in what.now) }
{
    if let Record::Up(_, a) = *what {
        ups.push(a)?;
    }
    Ok(())
}

// The activations, each where it comes first.
fn each_once(alloc: Global, acts: &[ActNo]) -> Result<Vec<ActNo>, AllocError>
    ensures { IfOk result (λ once. once.items ≡ each_once [] acts.now) }
{
    let mut once = Vec::new(alloc);
    for a in acts {
        add_once(&mut once, *a)?;
    }
    Ok(once)
}

fn add_once(once: &mut Vec<ActNo>, a: ActNo) -> Result<(), AllocError>
    ensures { OnOk result (once.new.items ≡ with_act once.old.items a) }
{
    if !has_act(once, a) {
        once.push(a)?;
    }
    Ok(())
}

fn has_act(acts: &[ActNo], a: ActNo) -> bool
    ensures { result ≡ has_act acts.now a }
{
    acts.iter().any(|b| b.0 == a.0)
}
