// Spaces and the workload of a draft.
ghost use Rattle.std.specs.Prelude.{◌≡◌, IfOk, IfErr, Ok, All, length};
ghost use Rattle.toga_draft.specs.Whole.{IsDraft, IsSpaceDraft};
ghost use Rattle.toga_draft.specs.Reading.{Fails};
ghost use Rattle.toga_read.specs.Outcome.{each};
ghost use Rattle.toga_read.specs.Operands.{programs_of};
ghost use Rattle.toga_read.specs.Spaces.{space_of, space_with, workload_of, workload_with};

use crate::evictions::{evictions_of, pages_in};
use crate::operands::programs_of;
use sa_instr::Program;
use sa_spaces::{SpaceDef, Workload};
use std::alloc::{AllocError, Global};
use toga_draft::{Draft, Setting, SpaceDraft, Unread};

// A space, or the first fault of a name.
#[tactic(auto, unfolding(crate::specs::Spaces::space_of))]
fn space_of(alloc: Global, space: &SpaceDraft) -> Result<SpaceDef, Unread>
    requires { IsSpaceDraft space.now }
    ensures ok { IfOk result (λ made. space_of space.now ≡ Ok made) }
    ensures err { IfErr result (λ e. Fails e (space_of space.now)) }
{
    let programs = programs_of(alloc, space)?;
    Ok(space_with(alloc, space, programs)?)
}

// The space with these programs.
fn space_with(
    alloc: Global,
    space: &SpaceDraft,
    programs: Vec<Program>,
) -> Result<SpaceDef, AllocError>
    requires whole { IsSpaceDraft space.now }
    requires programs { programs_of space.now ≡ Ok programs.items }
    ensures { IfOk result (λ made. made ≡ space_with space.now programs.items) }
{
    let made = SpaceDef::new(
        Setting::value_or(space.priority, 0) as u8,
        space.mutexes.len() as u16,
        Vec::from_slice(alloc, &space.starts)?,
        space.cells.len() as u16,
        pages_in(alloc, &space.absent)?,
        programs,
    );
    let patience = Setting::value_or(space.patience, 1) as u16;
    Ok(made.unwrap().with_patience(patience).unwrap())
}

// The spaces of a draft, or the first fault of a name.
fn spaces_of(alloc: Global, drafts: &[SpaceDraft]) -> Result<Vec<SpaceDef>, Unread>
    requires { All IsSpaceDraft drafts.now }
    ensures ok { IfOk result (λ spaces. each space_of drafts.now ≡ Ok spaces.items) }
    ensures err { IfErr result (λ e. Fails e (each space_of drafts.now)) }
{
    let mut spaces = Vec::new(alloc);
    for draft in drafts {
        spaces.push(space_of(alloc, draft)?)?;
    }
    Ok(spaces)
}

/// The workload of a draft, or the first fault of a name.
#[tactic(auto, unfolding(crate::specs::Spaces::workload_of))]
pub(crate) fn workload_of(alloc: Global, draft: &Draft) -> Result<Workload, Unread>
    requires { IsDraft draft.now }
    ensures ok { IfOk result (λ workload. workload_of draft.now ≡ Ok workload) }
    ensures err { IfErr result (λ e. Fails e (workload_of draft.now)) }
{
    let spaces = spaces_of(alloc, &draft.spaces)?;
    Ok(workload_with(alloc, draft, spaces)?)
}

// The workload of these spaces.
fn workload_with(
    alloc: Global,
    draft: &Draft,
    spaces: Vec<SpaceDef>,
) -> Result<Workload, AllocError>
    requires whole { IsDraft draft.now }
    requires spaces { each space_of draft.now.spaces ≡ Ok spaces.items }
    ensures { IfOk result (λ workload. workload ≡ workload_with draft.now spaces.items) }
{
    let made = Workload::new(
        Setting::value_or(draft.processors, 2) as u16,
        Setting::value_or(draft.fetch, 10) as u32,
        spaces,
        evictions_of(alloc, &draft.spaces)?,
        Vec::from_slice(alloc, &draft.turns)?,
    );
    let slice = Setting::value_or(draft.slice, 0) as u32;
    Ok(made.unwrap().with_slice(slice).unwrap())
}
