// The turns of a history.
ghost use Rattle.std.specs.Prelude.{◌≡◌, ◌++◌, ◌∷◌, ◌≤◌, length, map, IfOk, OnOk};
ghost use Rattle.std.specs.List.{prefix_len};
ghost use Rattle.sa_check.specs.Items.{is_with, what_of};
ghost use Rattle.sa_check_moment.specs.Seen.{event};
ghost use Rattle.toga_kinds.specs.Kinds.{kind_of, turn_if, turns_of};

use crate::kind::{Kind, Turn, first_of, kind_of_record};
use sa_base::Item;
use sa_check::is_with;
use sa_check_shapes::parted;
use std::alloc::{AllocError, Global};

/// The turn of each event of a history but the opening, in order. Fails only if memory runs out.
pub fn turns(alloc: Global, items: &[Item]) -> Result<Vec<Turn>, AllocError>
    ensures { IfOk result (λ turns. turns.items ≡ turns_of items.now) }
{
    let mut turns = Vec::new(alloc);
    let mut rest = items;
    while let Some((first, others)) = parted(rest) {
        let len = with_first(&first, others);
        push_turn(&mut turns, &first, &others[..len])?;
        rest = &others[len..];
    }
    Ok(turns)
}

// How many of the items are of one event with the first.
fn with_first(first: &Item, items: &[Item]) -> usize
    ensures len { result ≡ prefix_len (is_with first.now) items.now }
    ensures within { result ≤ length items.now }
{
    for (i, item) in items.iter().enumerate() {
        if !is_with(first, item) {
            return i;
        }
    }
    items.len()
}

// Adds the turn of the event of these items, unless it is the opening.
fn push_turn(turns: &mut Vec<Turn>, first: &Item, others: &[Item]) -> Result<(), AllocError>
    ensures { OnOk result (turns.new.items ≡ turns.old.items
        ++ turn_if (event first.now.event first.now.proc (first.now.what ∷ map what_of others.now))) }
{
    let kind = kind_of(first, others);
    if first.event == 0 {
        return Ok(());
    }
    turns.push(Turn {
        proc: first.proc,
        kind,
    })?;
    Ok(())
}

// The kind of the event of these items.
fn kind_of(first: &Item, others: &[Item]) -> Kind
    ensures { result ≡ kind_of (first.now.what ∷ map what_of others.now) }
{
    let mut kind = first_of(Kind::Kernel, kind_of_record(&first.what));
    for item in others {
        kind = first_of(kind, kind_of_record(&item.what));
    }
    kind
}
