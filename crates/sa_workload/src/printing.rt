// Printing a workload.
ghost use Rattle.std.specs.Prelude.{◌≡◌, ◌++◌, ◌==◌, IfOk, OnOk};
ghost use Rattle.std.specs.List.{flat_map};
ghost use Rattle.sa_workload.specs.Text.{text_of, line_text, version_of, machine_lines, slice_lines, closing_lines, space_lines, space_line, sem_line, absent_line, program_lines, evict_line, turn_line};

use crate::push::{push_instr, push_line};
use crate::table::are_impatient;
use sa_base::ProcNo;
use sa_instr::Program;
use sa_spaces::{Evict, SpaceDef, Workload};
use std::alloc::{AllocError, Global};

/// The one text of the workload: version 3 where some space has a patience other than 1, else version 2
/// where the slice is above 0, else version 1.
///
/// Fails only where memory runs out.
pub fn print(alloc: Global, w: &Workload) -> Result<Vec<u8>, AllocError>
    ensures { IfOk result (λ text. text.items ≡ text_of w.now) }
{
    let mut out = Vec::new(alloc);
    push_machine(&mut out, w)?;
    push_spaces(&mut out, version(w), w.spaces())?;
    push_closing(&mut out, w)?;
    Ok(out)
}

// The version that the workload is written in.
fn version(w: &Workload) -> u64
    ensures { result ≡ version_of w.now }
{
    if !are_impatient(w.spaces()) {
        3
    } else if w.slice() == 0 {
        1
    } else {
        2
    }
}

// Appends the lines before those of the spaces.
fn push_machine(out: &mut Vec<u8>, w: &Workload) -> Result<(), AllocError>
    ensures { OnOk result (out.new.items ≡ out.old.items
        ++ flat_map line_text (machine_lines w.now)) }
{
    let version = version(w);
    push_line(out, b"workload", &[version])?;
    push_line(out, b"processors", &[u64::from(w.processors())])?;
    push_line(out, b"fetch", &[u64::from(w.fetch())])?;
    push_slice(out, version, w.slice())?;
    push_line(out, b"spaces", &[w.spaces().len() as u64])
}

// Appends the line of the slice, which version 1 lacks.
fn push_slice(out: &mut Vec<u8>, version: u64, slice: u32) -> Result<(), AllocError>
    ensures { OnOk result (out.new.items ≡ out.old.items
        ++ flat_map line_text (slice_lines version slice)) }
{
    if version == 1 {
        return Ok(());
    }
    push_line(out, b"slice", &[u64::from(slice)])
}

// Appends the lines of the spaces.
fn push_spaces(out: &mut Vec<u8>, version: u64, spaces: &[SpaceDef]) -> Result<(), AllocError>
    ensures { OnOk result (out.new.items ≡ out.old.items
        ++ flat_map (λ s. flat_map line_text (space_lines version s)) spaces.now) }
{
    for space in spaces {
        push_space(out, version, space)?;
    }
    Ok(())
}

// Appends the lines of a space.
fn push_space(out: &mut Vec<u8>, version: u64, space: &SpaceDef) -> Result<(), AllocError>
    ensures { OnOk result (out.new.items ≡ out.old.items
        ++ flat_map line_text (space_lines version space.now)) }
{
    push_space_line(out, version, space)?;
    push_sems(out, space.sems())?;
    push_absent(out, space.absent())?;
    push_programs(out, space.programs())
}

// Appends the first line of a space.
fn push_space_line(out: &mut Vec<u8>, version: u64, space: &SpaceDef) -> Result<(), AllocError>
    ensures { OnOk result (out.new.items ≡ out.old.items
        ++ line_text (space_line version space.now)) }
{
    let priority = u64::from(space.priority());
    let mutexes = u64::from(space.mutexes());
    let sems = space.sems().len() as u64;
    let cells = u64::from(space.cells());
    let programs = space.programs().len() as u64;
    let patience = u64::from(space.patience());
    if version == 3 {
        let numbers = [priority, mutexes, sems, cells, programs, patience];
        push_line(out, b"space", &numbers)
    } else {
        let numbers = [priority, mutexes, sems, cells, programs];
        push_line(out, b"space", &numbers)
    }
}

// Appends a line for each semaphore.
fn push_sems(out: &mut Vec<u8>, sems: &[u32]) -> Result<(), AllocError>
    ensures { OnOk result (out.new.items ≡ out.old.items
        ++ flat_map (λ start. line_text (sem_line start)) sems.now) }
{
    for start in sems {
        push_line(out, b"sem", &[u64::from(*start)])?;
    }
    Ok(())
}

// Appends a line for each absent page.
fn push_absent(out: &mut Vec<u8>, pages: &[u16]) -> Result<(), AllocError>
    ensures { OnOk result (out.new.items ≡ out.old.items
        ++ flat_map (λ page. line_text (absent_line page)) pages.now) }
{
    for page in pages {
        push_line(out, b"absent", &[u64::from(*page)])?;
    }
    Ok(())
}

// Appends the lines of each program.
fn push_programs(out: &mut Vec<u8>, programs: &[Program]) -> Result<(), AllocError>
    ensures { OnOk result (out.new.items ≡ out.old.items
        ++ flat_map (λ p. flat_map line_text (program_lines p)) programs.now) }
{
    for program in programs {
        push_program(out, program)?;
    }
    Ok(())
}

// Appends the lines of a program.
fn push_program(out: &mut Vec<u8>, program: &Program) -> Result<(), AllocError>
    ensures { OnOk result (out.new.items ≡ out.old.items
        ++ flat_map line_text (program_lines program.now)) }
{
    let len = program.len();
    push_line(out, b"program", &[u64::from(len)])?;
    for pc in 0..len {
        push_instr(out, program.at(pc))?;
    }
    Ok(())
}

// Appends the lines after those of the spaces.
fn push_closing(out: &mut Vec<u8>, w: &Workload) -> Result<(), AllocError>
    ensures { OnOk result (out.new.items ≡ out.old.items
        ++ flat_map line_text (closing_lines w.now)) }
{
    push_evictions(out, w.evictions())?;
    push_turns(out, w.turns())?;
    push_line(out, b"close", &[])
}

// Appends a line for each eviction.
fn push_evictions(out: &mut Vec<u8>, evictions: &[Evict]) -> Result<(), AllocError>
    ensures { OnOk result (out.new.items ≡ out.old.items
        ++ flat_map (λ e. line_text (evict_line e)) evictions.now) }
{
    for evict in evictions {
        let numbers = [evict.event, u64::from(evict.space.0), u64::from(evict.page)];
        push_line(out, b"evict", &numbers)?;
    }
    Ok(())
}

// Appends a line for each turn.
fn push_turns(out: &mut Vec<u8>, turns: &[ProcNo]) -> Result<(), AllocError>
    ensures { OnOk result (out.new.items ≡ out.old.items
        ++ flat_map (λ p. line_text (turn_line p)) turns.now) }
{
    for proc in turns {
        push_line(out, b"turn", &[u64::from(proc.0)])?;
    }
    Ok(())
}
