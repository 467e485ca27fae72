// The nodes of a new block: each a ring of its own.
ghost use Rattle.std.specs.Prelude.{◌≡◌, ℕ, ◌+◌, ◌<◌, length, IfOk};
ghost use Rattle.std.specs.Vec.{vec_ptr};
ghost use Rattle.sa_links.specs.Rings.{IsEdge};
ghost use Rattle.sa_links.specs.Wiring.{AreLinked, AreNumbered, IsRelinked, number_at, wires_of};

use crate::block::{Slot, begin_of};
use crate::node::{Node, join, slot_of};
use std::alloc::{AllocError, Global};

// The number that the node at `index` holds: the heads of lists, from `count` on, have none.
fn number_at(index: usize, count: u32) -> Option<u32>
    ensures { result ≡ number_at count index }
{
    if index < count as usize {
        Some(index as u32)
    } else {
        None
    }
}

/// `count` nodes and the heads of `lists` lists, whose links lead somewhere in the block.
pub(crate) fn numbered(alloc: Global, count: u32, lists: u32) -> Result<Vec<Node>, AllocError>
    ensures size { IfOk result (λ nodes. length nodes.items ≡ count + lists) }
    ensures numbered { IfOk result (λ nodes. AreNumbered count nodes.items) }
    ensures linked { IfOk result (λ nodes. AreLinked (vec_ptr nodes) nodes.items) }
{
    let size = count as usize + lists as usize;
    let mut nodes = Vec::with_capacity(alloc, size)?;
    let begin = begin_of(&mut nodes);
    for index in 0..size {
        nodes.push_reserved(Node {
            prev: begin,
            next: begin,
            number: number_at(index, count),
        });
    }
    Ok(nodes)
}

/// Closes each node in itself.
pub(crate) fn close(nodes: &mut Vec<Node>, begin: Slot<Node>)
    requires begin { begin.ptr ≡ vec_ptr nodes.old }
    requires linked { AreLinked (vec_ptr nodes.old) nodes.old.items }
    ensures relinked { IsRelinked (vec_ptr nodes.old) nodes.old.items
        (vec_ptr nodes.new) nodes.new.items }
    ensures closed { (k : ℕ) → k < length nodes.old.items
        → IsEdge (wires_of (vec_ptr nodes.new) nodes.new.items) k k }
{
    for index in 0..nodes.len() {
        let slot = slot_of(nodes, begin, index);
        join(nodes, slot, slot);
    }
}
