// The lines of a space: what it declares, and its programs.
ghost use Rattle.std.specs.Prelude.{◌≡◌, ◌++◌, OnOk, codes, decimal};
ghost use Rattle.std.specs.List.{flat_map};
ghost use Rattle.toga_source.specs.Show.{absent_line, declarations_text, evict_line, kinds_text, nth_program_text, nth_space_text, semaphore_line, space_line, space_text, with_numbers};

use crate::names::{Name, SpaceNames};
use crate::program::push_program;
use crate::push::{push_name_line, push_names_line, push_number, push_unusual_line};
use sa_instr::Program;
use sa_spaces::{Evict, SpaceDef};
use sa_text::print_number;
use std::alloc::AllocError;

/// Appends the lines of the space of this number, where it has names.
pub(crate) fn push_nth_space(
    out: &mut Vec<u8>,
    evictions: &[Evict],
    names: &[SpaceNames],
    number: usize,
    space: &SpaceDef,
) -> Result<(), AllocError>
    ensures { OnOk result (out.new.items ≡ out.old.items ++ nth_space_text evictions.now names.now number space.now) }
{
    match names.get(number) {
        Some(own) => push_space(out, evictions, own, number, space),
        None => Ok(()),
    }
}

// Appends the lines of a space of these names.
#[tactic(auto, unfolding(crate::specs::Show::space_text))]
fn push_space(
    out: &mut Vec<u8>,
    evictions: &[Evict],
    names: &SpaceNames,
    number: usize,
    space: &SpaceDef,
) -> Result<(), AllocError>
    ensures { OnOk result (out.new.items ≡ out.old.items ++ space_text evictions.now names.now number space.now) }
{
    push_declarations(out, evictions, names, number, space)?;
    push_programs(out, names, space.programs())
}

// Appends the lines of a space before its programs.
#[tactic(auto, unfolding(crate::specs::Show::declarations_text))]
fn push_declarations(
    out: &mut Vec<u8>,
    evictions: &[Evict],
    names: &SpaceNames,
    number: usize,
    space: &SpaceDef,
) -> Result<(), AllocError>
    ensures { OnOk result (out.new.items ≡ out.old.items ++ declarations_text evictions.now names.now number space.now) }
{
    push_space_line(out, names, space)?;
    push_kinds(out, names, space)?;
    push_absent(out, space.absent())?;
    push_evictions(out, number, evictions)
}

// Appends the line of the space, and those of its priority and patience where they are not the usual ones.
#[tactic(auto, unfolding(crate::specs::Show::space_line))]
fn push_space_line(
    out: &mut Vec<u8>,
    names: &SpaceNames,
    space: &SpaceDef,
) -> Result<(), AllocError>
    ensures { OnOk result (out.new.items ≡ out.old.items ++ space_line names.now space.now) }
{
    out.extend_from_slice(b"\n")?;
    push_name_line(out, b"space", names.name())?;
    push_unusual_line(out, b"  priority", 0, u64::from(space.priority()))?;
    push_unusual_line(out, b"  patience", 1, u64::from(space.patience()))
}

// Appends the lines of the mutexes, semaphores and cells.
#[tactic(auto, unfolding(crate::specs::Show::kinds_text))]
fn push_kinds(out: &mut Vec<u8>, names: &SpaceNames, space: &SpaceDef) -> Result<(), AllocError>
    ensures { OnOk result (out.new.items ≡ out.old.items ++ kinds_text names.now space.now) }
{
    push_names_line(out, b"  mutex", names.mutexes())?;
    push_semaphores(out, names.semaphores(), space.sems())?;
    push_names_line(out, b"  cell", names.cells())
}

// Appends a line for each semaphore.
fn push_semaphores(out: &mut Vec<u8>, names: &[Name], starts: &[u32]) -> Result<(), AllocError>
    ensures { OnOk result (out.new.items ≡ out.old.items ++ with_numbers (semaphore_line names.now) starts.now) }
{
    for (number, start) in starts.iter().enumerate() {
        push_semaphore(out, names, number, *start)?;
    }
    Ok(())
}

// Appends the line of the semaphore of this number.
fn push_semaphore(
    out: &mut Vec<u8>,
    names: &[Name],
    number: usize,
    start: u32,
) -> Result<(), AllocError>
    ensures { OnOk result (out.new.items ≡ out.old.items ++ semaphore_line names.now number start) }
{
    out.extend_from_slice(b"  semaphore ")?;
    out.extend_from_slice(Name::at(names, number))?;
    push_number(out, u64::from(start))?;
    out.extend_from_slice(b"\n")
}

// Appends the line of the absent pages, where there are any.
#[tactic(auto, unfolding(crate::specs::Show::absent_line))]
fn push_absent(out: &mut Vec<u8>, pages: &[u16]) -> Result<(), AllocError>
    ensures { OnOk result (out.new.items ≡ out.old.items ++ absent_line pages.now) }
{
    if pages.len() == 0 {
        return Ok(());
    }
    out.extend_from_slice(b"  absent")?;
    push_pages(out, pages)?;
    out.extend_from_slice(b"\n")
}

// Appends each page after a space.
fn push_pages(out: &mut Vec<u8>, pages: &[u16]) -> Result<(), AllocError>
    ensures { OnOk result (out.new.items ≡ out.old.items ++ flat_map (λ page. codes " " ++ decimal page) pages.now) }
{
    for page in pages {
        push_number(out, u64::from(*page))?;
    }
    Ok(())
}

// Appends a line for each eviction of the space of this number.
fn push_evictions(out: &mut Vec<u8>, number: usize, evictions: &[Evict]) -> Result<(), AllocError>
    ensures { OnOk result (out.new.items ≡ out.old.items ++ flat_map (evict_line number) evictions.now) }
{
    for evict in evictions {
        push_eviction(out, number, evict)?;
    }
    Ok(())
}

// Appends the line of an eviction, where it is of the space of this number.
fn push_eviction(out: &mut Vec<u8>, number: usize, evict: &Evict) -> Result<(), AllocError>
    ensures { OnOk result (out.new.items ≡ out.old.items ++ evict_line number evict.now) }
{
    if usize::from(evict.space.0) != number {
        return Ok(());
    }
    out.extend_from_slice(b"  evict ")?;
    print_number(u64::from(evict.page), out)?;
    out.extend_from_slice(b" at ")?;
    print_number(evict.event, out)?;
    out.extend_from_slice(b"\n")
}

// Appends the lines of each program.
fn push_programs(
    out: &mut Vec<u8>,
    names: &SpaceNames,
    programs: &[Program],
) -> Result<(), AllocError>
    ensures { OnOk result (out.new.items ≡ out.old.items ++ with_numbers (nth_program_text names.now) programs.now) }
{
    for (number, program) in programs.iter().enumerate() {
        push_nth_program(out, names, number, program)?;
    }
    Ok(())
}

// Appends the lines of the program of this number, where it has names.
fn push_nth_program(
    out: &mut Vec<u8>,
    names: &SpaceNames,
    number: usize,
    program: &Program,
) -> Result<(), AllocError>
    ensures { OnOk result (out.new.items ≡ out.old.items ++ nth_program_text names.now number program.now) }
{
    match names.programs().get(number) {
        Some(own) => push_program(out, names, own, program),
        None => Ok(()),
    }
}
