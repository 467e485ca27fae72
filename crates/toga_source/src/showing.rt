// The whole text that shows a workload.
ghost use Rattle.std.specs.Prelude.{◌≡◌, ◌++◌, IfOk, OnOk};
ghost use Rattle.toga_source.specs.Show.{machine_text, nth_space_text, show_text, with_numbers};

use crate::names::SpaceNames;
use crate::push::{push_number_line, push_unusual_line};
use crate::space::push_nth_space;
use crate::turns::push_turns;
use sa_spaces::{Evict, SpaceDef, Workload};
use std::alloc::{AllocError, Global};

/// The text that shows a workload with these names. A space or a program that has no names is left out.
///
/// Fails only where memory runs out.
#[tactic(auto, unfolding(crate::specs::Show::show_text))]
pub fn show(alloc: Global, w: &Workload, names: &[SpaceNames]) -> Result<Vec<u8>, AllocError>
    ensures { IfOk result (λ text. text.items ≡ show_text w.now names.now) }
{
    let mut out = Vec::new(alloc);
    push_machine(&mut out, w)?;
    push_spaces(&mut out, w.evictions(), names, w.spaces())?;
    push_turns(&mut out, alloc, w.turns())?;
    Ok(out)
}

// Appends the lines before the spaces.
#[tactic(auto, unfolding(crate::specs::Show::machine_text))]
fn push_machine(out: &mut Vec<u8>, w: &Workload) -> Result<(), AllocError>
    ensures { OnOk result (out.new.items ≡ out.old.items ++ machine_text w.now) }
{
    push_number_line(out, b"processors", u64::from(w.processors()))?;
    push_unusual_line(out, b"fetch", 10, u64::from(w.fetch()))?;
    push_unusual_line(out, b"slice", 0, u64::from(w.slice()))
}

// Appends the lines of each space.
fn push_spaces(
    out: &mut Vec<u8>,
    evictions: &[Evict],
    names: &[SpaceNames],
    spaces: &[SpaceDef],
) -> Result<(), AllocError>
    ensures { OnOk result (out.new.items ≡ out.old.items ++ with_numbers (nth_space_text evictions.now names.now) spaces.now) }
{
    for (number, space) in spaces.iter().enumerate() {
        push_nth_space(out, evictions, names, number, space)?;
    }
    Ok(())
}
