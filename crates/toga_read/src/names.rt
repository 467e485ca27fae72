// The names of a draft, and its lines.
ghost use Rattle.std.specs.Prelude.{◌≡◌, ◌++◌, IfOk, OnOk, map};
ghost use Rattle.std.specs.List.{flat_map};
ghost use Rattle.toga_read.specs.Names.{label_of, program_lines, program_names, space_lines, space_names};

use crate::lookup::{copied, draft_names};
use std::alloc::{AllocError, Global};
use toga_draft::{InstrDraft, LabelDraft, ProgramDraft, SpaceDraft};
use toga_source::{Label, ProgramNames, SpaceNames};

/// The names of these spaces.
pub(crate) fn names_of(alloc: Global, spaces: &[SpaceDraft]) -> Result<Vec<SpaceNames>, AllocError>
    ensures { IfOk result (λ names. names.items ≡ map space_names spaces.now) }
{
    let mut names = Vec::new(alloc);
    for space in spaces {
        names.push(space_names(alloc, space)?)?;
    }
    Ok(names)
}

// The names of a space.
fn space_names(alloc: Global, space: &SpaceDraft) -> Result<SpaceNames, AllocError>
    ensures { IfOk result (λ names. names ≡ space_names space.now) }
{
    let name = copied(alloc, &space.name)?;
    let mutexes = draft_names(alloc, &space.mutexes)?;
    let semaphores = draft_names(alloc, &space.semaphores)?;
    let cells = draft_names(alloc, &space.cells)?;
    let programs = programs_names(alloc, &space.programs)?;
    Ok(SpaceNames::new(name, mutexes, semaphores, cells, programs))
}

// The names of the programs of a space.
fn programs_names(alloc: Global, programs: &[ProgramDraft]) -> Result<Vec<ProgramNames>, AllocError>
    ensures { IfOk result (λ names. names.items ≡ map program_names programs.now) }
{
    let mut names = Vec::new(alloc);
    for program in programs {
        names.push(program_names(alloc, program)?)?;
    }
    Ok(names)
}

// The names of a program.
fn program_names(alloc: Global, program: &ProgramDraft) -> Result<ProgramNames, AllocError>
    ensures { IfOk result (λ names. names ≡ program_names program.now) }
{
    let name = copied(alloc, &program.name.text)?;
    let labels = labels_of(alloc, &program.labels)?;
    Ok(ProgramNames::new(name, labels))
}

// The labels of a program.
fn labels_of(alloc: Global, drafts: &[LabelDraft]) -> Result<Vec<Label>, AllocError>
    ensures { IfOk result (λ labels. labels.items ≡ map label_of drafts.now) }
{
    let mut labels = Vec::new(alloc);
    for draft in drafts {
        let name = copied(alloc, &draft.name.text)?;
        labels.push(Label {
            place: draft.place,
            name,
        })?;
    }
    Ok(labels)
}

/// The line of each instruction of these spaces.
pub(crate) fn lines_of(alloc: Global, spaces: &[SpaceDraft]) -> Result<Vec<u64>, AllocError>
    ensures { IfOk result (λ lines. lines.items ≡ flat_map space_lines spaces.now) }
{
    let mut lines = Vec::new(alloc);
    for space in spaces {
        push_space_lines(&mut lines, &space.programs)?;
    }
    Ok(lines)
}

// Appends the line of each instruction of these programs.
fn push_space_lines(lines: &mut Vec<u64>, programs: &[ProgramDraft]) -> Result<(), AllocError>
    ensures { OnOk result (lines.new.items ≡ lines.old.items ++ flat_map program_lines programs.now) }
{
    for program in programs {
        push_program_lines(lines, &program.instrs)?;
    }
    Ok(())
}

// Appends the line of each of these instructions.
fn push_program_lines(lines: &mut Vec<u64>, instrs: &[InstrDraft]) -> Result<(), AllocError>
    ensures { OnOk result (lines.new.items ≡ lines.old.items ++ map (λ i. i.line) instrs.now) }
{
    for instr in instrs {
        lines.push(instr.line)?;
    }
    Ok(())
}
