// The names of a workload that has none.
ghost use Rattle.std.specs.Prelude.{◌≡◌, ◌++◌, map, IfOk, OnOk};
ghost use Rattle.std.specs.List.{list_any, enumerate_from};
ghost use Rattle.toga_source.specs.Plain.{jumps_to, numbered, numbered_names, plain_label, plain_labels, plain_names, plain_program, plain_space};

use crate::names::{Label, Name, ProgramNames, SpaceNames};
use sa_instr::{Instr, Program};
use sa_spaces::{SpaceDef, Workload};
use sa_text::print_number;
use std::alloc::{AllocError, Global};

/// The names of a workload that has none: each thing is named by its kind and its number, and the places that jumps name are labels.
///
/// Fails only where memory runs out.
pub fn plain_names(alloc: Global, w: &Workload) -> Result<Vec<SpaceNames>, AllocError>
    ensures { IfOk result (λ names. names.items ≡ plain_names w.now) }
{
    plain_spaces(alloc, w.spaces())
}

// The names of these spaces.
fn plain_spaces(alloc: Global, spaces: &[SpaceDef]) -> Result<Vec<SpaceNames>, AllocError>
    ensures { IfOk result (λ names. names.items ≡ map (λ s. plain_space s.0 s.1) (enumerate_from 0 spaces.now)) }
{
    let mut names = Vec::new(alloc);
    for (number, space) in spaces.iter().enumerate() {
        names.push(plain_space(alloc, number, space)?)?;
    }
    Ok(names)
}

// The names of the space of this number.
fn plain_space(alloc: Global, number: usize, space: &SpaceDef) -> Result<SpaceNames, AllocError>
    ensures { IfOk result (λ names. names ≡ plain_space number space.now) }
{
    let name = numbered(alloc, b"space", number)?;
    let mutexes = numbered_names(alloc, b"m", usize::from(space.mutexes()))?;
    let semaphores = numbered_names(alloc, b"sem", space.sems().len())?;
    let cells = numbered_names(alloc, b"c", usize::from(space.cells()))?;
    let programs = plain_programs(alloc, space.programs())?;
    Ok(SpaceNames::new(name, mutexes, semaphores, cells, programs))
}

// The name of a word and a number.
fn numbered(alloc: Global, word: &[u8], number: usize) -> Result<Name, AllocError>
    ensures { IfOk result (λ name. name ≡ numbered word.now number) }
{
    let mut bytes = Vec::from_slice(alloc, word)?;
    print_number(number as u64, &mut bytes)?;
    Ok(Name::new(bytes))
}

// The names of so many things of a kind.
fn numbered_names(alloc: Global, word: &[u8], count: usize) -> Result<Vec<Name>, AllocError>
    ensures { IfOk result (λ names. names.items ≡ numbered_names word.now count) }
{
    let mut names = Vec::new(alloc);
    for number in 0..count {
        names.push(numbered(alloc, word, number)?)?;
    }
    Ok(names)
}

// The names of the programs of a space.
fn plain_programs(alloc: Global, programs: &[Program]) -> Result<Vec<ProgramNames>, AllocError>
    ensures { IfOk result (λ names. names.items ≡ map (λ p. plain_program p.0 p.1) (enumerate_from 0 programs.now)) }
{
    let mut names = Vec::new(alloc);
    for (number, program) in programs.iter().enumerate() {
        names.push(plain_program(alloc, number, program)?)?;
    }
    Ok(names)
}

// The names of the program of this number.
fn plain_program(
    alloc: Global,
    number: usize,
    program: &Program,
) -> Result<ProgramNames, AllocError>
    ensures { IfOk result (λ names. names ≡ plain_program number program.now) }
{
    let name = numbered(alloc, b"prog", number)?;
    let labels = plain_labels(alloc, program)?;
    Ok(ProgramNames::new(name, labels))
}

// A label for each place that a jump of the program names.
fn plain_labels(alloc: Global, program: &Program) -> Result<Vec<Label>, AllocError>
    ensures { IfOk result (λ labels. labels.items ≡ plain_labels program.now) }
{
    let mut labels = Vec::new(alloc);
    for place in 0..program.len() {
        push_label(&mut labels, alloc, program, place)?;
    }
    Ok(labels)
}

// Appends the label of the place, where a jump of the program names it.
fn push_label(
    labels: &mut Vec<Label>,
    alloc: Global,
    program: &Program,
    place: u16,
) -> Result<(), AllocError>
    ensures { OnOk result (labels.new.items ≡ labels.old.items ++ plain_label program.now place) }
{
    if !is_target(program, place) {
        return Ok(());
    }
    let name = numbered(alloc, b"at", usize::from(place))?;
    labels.push(Label { place, name })?;
    Ok(())
}

// Whether a jump of the program names the place.
fn is_target(program: &Program, place: u16) -> bool
    ensures { result ≡ list_any (jumps_to place) program.now }
{
    for pc in 0..program.len() {
        if jumps_to(program.at(pc), place) {
            return true;
        }
    }
    false
}

// Whether the instruction may go on at the place.
fn jumps_to(instr: Instr, place: u16) -> bool
    ensures { result ≡ jumps_to place instr }
{
    match instr {
        Instr::Jnz(_, target) => target == place,
        _ => false,
    }
}
