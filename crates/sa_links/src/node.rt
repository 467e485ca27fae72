// The nodes of a block, and how their links change.
ghost use Rattle.std.specs.Prelude.{◌≡◌, ◌<◌, length, slice_index};
ghost use Rattle.std.specs.Vec.{vec_ptr};
ghost use Rattle.sa_links.specs.Rings.{joined};
ghost use Rattle.sa_links.specs.Wiring.{AreLinked, IsNodeSlot, IsRelinked, node_index, wires_of};

use crate::block::{Slot, at, put, slot_at};

/// A node is in a ring of nodes. A ring of one node is closed in itself.
#[derive(Clone, Copy)]
pub(crate) struct Node {
    pub(crate) prev: Slot<Node>,
    pub(crate) next: Slot<Node>,
    // the node's number, or none at the head of a list
    pub(crate) number: Option<u32>,
}

/// The slot of the node at `index`, from where the nodes begin.
pub(crate) fn slot_of(nodes: &Vec<Node>, begin: Slot<Node>, index: usize) -> Slot<Node>
    requires begin { begin.ptr ≡ vec_ptr nodes.now }
    requires inside { index < length nodes.now.items }
    ensures slot { IsNodeSlot (vec_ptr nodes.now) (length nodes.now.items) result.ptr }
    ensures index { node_index (vec_ptr nodes.now) result.ptr ≡ index }
{
    slot_at(nodes, begin, index)
}

/// Lets the node at `back` follow the one at `front`.
pub(crate) fn join(nodes: &mut Vec<Node>, front: Slot<Node>, back: Slot<Node>)
    requires front { IsNodeSlot (vec_ptr nodes.old) (length nodes.old.items) front.ptr }
    requires back { IsNodeSlot (vec_ptr nodes.old) (length nodes.old.items) back.ptr }
    ensures wires { let base = vec_ptr nodes.old in
        wires_of (vec_ptr nodes.new) nodes.new.items
        ≡ joined (wires_of base nodes.old.items)
        (node_index base front.ptr) (node_index base back.ptr) }
    ensures relinked { IsRelinked (vec_ptr nodes.old) nodes.old.items
        (vec_ptr nodes.new) nodes.new.items }
{
    let node = *at(nodes, front);
    put(nodes, front, Node { next: back, ..node });
    let node = *at(nodes, back);
    put(
        nodes,
        back,
        Node {
            prev: front,
            ..node
        },
    );
}

/// Puts the node at `slot` after the one at `front`.
pub(crate) fn insert(nodes: &mut Vec<Node>, front: Slot<Node>, slot: Slot<Node>)
    requires front { IsNodeSlot (vec_ptr nodes.old) (length nodes.old.items) front.ptr }
    requires slot { IsNodeSlot (vec_ptr nodes.old) (length nodes.old.items) slot.ptr }
    requires linked { AreLinked (vec_ptr nodes.old) nodes.old.items }
    ensures wires { let base = vec_ptr nodes.old in
        let old = wires_of base nodes.old.items in
        let a = node_index base front.ptr in let x = node_index base slot.ptr in
        wires_of (vec_ptr nodes.new) nodes.new.items
        ≡ joined (joined old a x) x (slice_index old.next a) }
    ensures relinked { IsRelinked (vec_ptr nodes.old) nodes.old.items
        (vec_ptr nodes.new) nodes.new.items }
{
    let back = at(nodes, front).next;
    join(nodes, front, slot);
    join(nodes, slot, back);
}

/// Takes the node at `slot` out of its ring, and closes it in itself.
pub(crate) fn remove(nodes: &mut Vec<Node>, slot: Slot<Node>)
    requires slot { IsNodeSlot (vec_ptr nodes.old) (length nodes.old.items) slot.ptr }
    requires linked { AreLinked (vec_ptr nodes.old) nodes.old.items }
    ensures wires { let base = vec_ptr nodes.old in
        let old = wires_of base nodes.old.items in let x = node_index base slot.ptr in
        wires_of (vec_ptr nodes.new) nodes.new.items
        ≡ joined (joined old (slice_index old.prev x) (slice_index old.next x)) x x }
    ensures relinked { IsRelinked (vec_ptr nodes.old) nodes.old.items
        (vec_ptr nodes.new) nodes.new.items }
{
    let node = *at(nodes, slot);
    join(nodes, node.prev, node.next);
    join(nodes, slot, slot);
}
