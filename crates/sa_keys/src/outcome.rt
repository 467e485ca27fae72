// What a run that ended left.
#![tactic(auto, using(std::proofs::Common::append_assoc))]

ghost use Rattle.std.specs.Prelude.{◌≡◌, ◌<◌, ◌++◌, length, map, slice_get, Some, IfOk, OnOk};
ghost use Rattle.sa_core.specs.View.{machine};
ghost use Rattle.sa_package_keys.specs.Codes.{number, list};
ghost use Rattle.sa_keys.specs.Outcome.{outcome_of, outcome_at, end_key, outcome_key};

use crate::keyed::Keyed;
use crate::put_out::{put_all_outs, told_outs};
use sa_base::{End, SpaceNo};
use sa_core::Core;
use sa_outlook::{Put, Telling};
use sa_package_keys::{put_number, put_words};
use std::alloc::{AllocError, Global};

/// What a run that ended left.
#[derive(Drop)]
pub struct Outcome {
    /// How it ended.
    pub end: End,
    /// The cells of each space, in order.
    pub cells: Vec<Vec<u64>>,
    /// What each thread put out, as far as runs are told apart by it.
    pub outs: Vec<Put>,
}

/// What this run left, which ended so. Fails only where memory runs out.
pub fn left_by<U: Keyed>(
    alloc: Global,
    core: &Core<U>,
    tell: Telling,
    end: End,
) -> Result<Outcome, AllocError>
    ensures { IfOk result (λ outcome. outcome_of outcome ≡ outcome_at U.cells_of tell (machine core.now) end) }
{
    Ok(Outcome {
        end,
        cells: all_cells(alloc, core)?,
        outs: told_outs(alloc, core, tell)?,
    })
}

// The cells of each space. Fails only where memory runs out.
fn all_cells<U: Keyed>(alloc: Global, core: &Core<U>) -> Result<Vec<Vec<u64>>, AllocError>
    ensures { IfOk result (λ cells. map (λ c. c.items) cells.items ≡ map U.cells_of (machine core.now).users) }
{
    core.keeps();
    let mut cells = Vec::new(alloc);
    for s in 0..core.workload().spaces().len() {
        cells.push(Vec::from_slice(alloc, core.user(SpaceNo(s as u16)).cells())?)?;
    }
    Ok(cells)
}

/// The bytes of an outcome. Fails only where memory runs out.
pub fn outcome_key(alloc: Global, outcome: &Outcome) -> Result<Vec<u8>, AllocError>
    ensures { IfOk result (λ bytes. bytes.items ≡ outcome_key (outcome_of outcome.now)) }
{
    let mut key = Vec::new(alloc);
    put_end(outcome.end, &mut key)?;
    put_cells(&outcome.cells, &mut key)?;
    put_all_outs(&outcome.outs, &mut key)?;
    Ok(key)
}

// Adds the bytes of an end.
fn put_end(end: End, key: &mut Vec<u8>) -> Result<(), AllocError>
    ensures { OnOk result (key.new.items ≡ key.old.items ++ end_key end) }
{
    match end {
        End::AllDone => put_number(key, 0),
        End::Stuck => put_number(key, 1),
        End::Budget => put_number(key, 2),
    }
}

// Adds the bytes of the cells of each space.
fn put_cells(cells: &[Vec<u64>], key: &mut Vec<u8>) -> Result<(), AllocError>
    ensures { OnOk result (key.new.items
        ≡ key.old.items ++ list (list number) (map (λ c. c.items) cells.now)) }
{
    put_number(key, cells.len() as u64)?;
    for space in cells {
        put_words(space.as_slice(), key)?;
    }
    Ok(())
}
