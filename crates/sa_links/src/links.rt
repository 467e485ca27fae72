// Disjoint lists of node numbers, as callers see them.
ghost use Rattle.std.specs.Prelude.{◌≡◌, ◌≢◌, ◌-◌, ◌<◌, ◌↔◌, [], ◌∷◌, ◌++◌, length, take, drop, replicate, slice_get, IfOk, IfSome, IsTrue, OnOk};
ghost use Rattle.sa_links.specs.Lists.{HasSameCounts, IsApart, IsFree, IsIn, IsListed, IsNext, list_at, with_list, without};

use crate::block::{Slot, at, begin_of};
use crate::node::{Node, insert, join, remove, slot_of};
use crate::start::{close, numbered};
use std::alloc::{AllocError, Global};
use std::marker::Model;

/// Disjoint lists of node numbers, in one block of nodes that are linked in place.
///
/// Nodes and lists are numbered from 0, each below a count that `new` is given. A node is in at most one
/// list. Every call takes constant time, and none but `new` can fail for want of memory.
#[derive(Drop)]
pub struct Links {
    // the nodes, and after them the heads of the lists
    nodes: Vec<Node>,
    begin: Slot<Node>,
    count: u32,
}

impl Model for Links {
    ghost use Rattle.std.specs.Vec.{vec_ptr};
    ghost use Rattle.sa_links.specs.Lists.{Lists};
    ghost use Rattle.sa_links.specs.Rings.{lists_of};

    ghost Value = { Lists };

    ghost use Rattle.sa_links.specs.Wiring.{wires_of, IsLinks};

    ghost view = { λ l. lists_of (wires_of (vec_ptr l.nodes) l.nodes.items) l.count };

    ghost invariant = { λ l. IsLinks l.begin.ptr (vec_ptr l.nodes) l.nodes.items l.count };
}

impl Links {
    /// `lists` empty lists for `nodes` nodes, in one block. Fails only where memory runs out.
    pub fn new(alloc: Global, nodes: u32, lists: u32) -> Result<Links, AllocError>
        ensures { IfOk result
            (λ links. links ≡ record { nodes = nodes; lists = replicate lists [] }) }
    {
        let count = nodes;
        let mut nodes = numbered(alloc, count, lists)?;
        let begin = begin_of(&mut nodes);
        close(&mut nodes, begin);
        Ok(Links {
            nodes,
            begin,
            count,
        })
    }

    /// Puts a node that is in no list before the first of `list`.
    pub fn push_front(&mut self, list: u32, node: u32)
        requires list { list < length self.old.lists }
        requires node { node < self.old.nodes }
        requires free { IsFree self.old node }
        ensures { self.new ≡ with_list self.old list (node ∷ list_at self.old.lists list) }
    {
        let head = slot_of(&self.nodes, self.begin, self.count as usize + list as usize);
        let slot = slot_of(&self.nodes, self.begin, node as usize);
        insert(&mut self.nodes, head, slot);
    }

    /// Puts a node that is in no list at the end of `list`.
    pub fn push_back(&mut self, list: u32, node: u32)
        requires list { list < length self.old.lists }
        requires node { node < self.old.nodes }
        requires free { IsFree self.old node }
        ensures { self.new ≡ with_list self.old list (list_at self.old.lists list ++ node ∷ []) }
    {
        let head = slot_of(&self.nodes, self.begin, self.count as usize + list as usize);
        let slot = slot_of(&self.nodes, self.begin, node as usize);
        let last = at(&self.nodes, head).prev;
        insert(&mut self.nodes, last, slot);
    }

    /// Takes the first node out of `list`: `None` exactly where the list is empty.
    pub fn pop_front(&mut self, list: u32) -> Option<u32>
        requires { list < length self.old.lists }
        ensures first { result ≡ slice_get (list_at self.old.lists list) 0 }
        ensures lists { self.new ≡ with_list self.old list (drop 1 (list_at self.old.lists list)) }
        ensures node { IfSome result (λ node. node < self.new.nodes) }
        ensures free { IfSome result (λ node. IsFree self.new node) }
    {
        let head = slot_of(&self.nodes, self.begin, self.count as usize + list as usize);
        let first = at(&self.nodes, head).next;
        let number = at(&self.nodes, first).number?;
        remove(&mut self.nodes, first);
        Some(number)
    }

    /// Takes the last node out of `list`: `None` exactly where the list is empty.
    pub fn pop_back(&mut self, list: u32) -> Option<u32>
        requires { list < length self.old.lists }
        ensures last { let xs = list_at self.old.lists list in
            result ≡ slice_get xs (length xs - 1) }
        ensures lists { let xs = list_at self.old.lists list in
            self.new ≡ with_list self.old list (take (length xs - 1) xs) }
        ensures node { IfSome result (λ node. node < self.new.nodes) }
        ensures free { IfSome result (λ node. IsFree self.new node) }
    {
        let head = slot_of(&self.nodes, self.begin, self.count as usize + list as usize);
        let last = at(&self.nodes, head).prev;
        let number = at(&self.nodes, last).number?;
        remove(&mut self.nodes, last);
        Some(number)
    }

    /// Takes a node out of `list`, which it is in.
    pub fn unlink(&mut self, list: u32, node: u32)
        requires list { list < length self.old.lists }
        requires stands { IsIn node (list_at self.old.lists list) }
        ensures lists { let xs = list_at self.old.lists list in
            self.new ≡ with_list self.old list (without node xs) }
        ensures free { IsFree self.new node }
    {
        let _ = list;
        let slot = slot_of(&self.nodes, self.begin, node as usize);
        remove(&mut self.nodes, slot);
    }

    /// Moves all nodes of the list `from` to the end of `list`, in their order. A node that is in no
    /// list stays so.
    pub fn append(&mut self, list: u32, from: u32)
        requires list { list < length self.old.lists }
        requires from { from < length self.old.lists }
        requires differ { list ≢ from }
        ensures lists { let xs = list_at self.old.lists list ++ list_at self.old.lists from in
            self.new ≡ with_list (with_list self.old list xs) from [] }
        ensures counts { HasSameCounts self.old self.new }
    {
        let head = slot_of(&self.nodes, self.begin, self.count as usize + list as usize);
        let emptied = slot_of(&self.nodes, self.begin, self.count as usize + from as usize);
        let first = at(&self.nodes, emptied).next;
        if at(&self.nodes, first).number.is_none() {
            return;
        }
        let last = at(&self.nodes, emptied).prev;
        let end = at(&self.nodes, head).prev;
        join(&mut self.nodes, end, first);
        join(&mut self.nodes, last, head);
        join(&mut self.nodes, emptied, emptied);
    }

    /// The first node of `list`: `None` exactly where the list is empty.
    pub fn front(&self, list: u32) -> Option<u32>
        requires { list < length self.now.lists }
        ensures first { result ≡ slice_get (list_at self.now.lists list) 0 }
        ensures node { IfSome result (λ node. node < self.now.nodes) }
        ensures stands { IfSome result (λ node. IsIn node (list_at self.now.lists list)) }
        ensures listed { IfSome result (λ node. IsListed self.now node) }
    {
        let head = slot_of(&self.nodes, self.begin, self.count as usize + list as usize);
        at(&self.nodes, at(&self.nodes, head).next).number
    }

    /// Whether `list` has no node.
    pub fn is_empty(&self, list: u32) -> bool
        requires { list < length self.now.lists }
        ensures { IsTrue result ↔ (list_at self.now.lists list ≡ []) }
    {
        self.front(list).is_none()
    }

    /// The node after one that is in a list: `None` exactly where that is the last of its list.
    pub fn after(&self, node: u32) -> Option<u32>
        requires { IsListed self.now node }
        ensures next { IsNext self.now node result }
        ensures node { IfSome result (λ next. next < self.now.nodes) }
        ensures listed { IfSome result (λ next. IsListed self.now next) }
    {
        let here = slot_of(&self.nodes, self.begin, node as usize);
        at(&self.nodes, at(&self.nodes, here).next).number
    }

    /// Adds the nodes of `list`, in order, at the end of `out`. Fails only where memory runs out.
    pub fn copy_list(&self, list: u32, out: &mut Vec<u32>) -> Result<(), AllocError>
        requires { list < length self.now.lists }
        ensures { OnOk result (out.new.items ≡ out.old.items ++ list_at self.now.lists list) }
    {
        let mut next = self.front(list);
        while let Some(node) = next {
            out.push(node)?;
            next = self.after(node);
        }
        Ok(())
    }

    /// Whether a node is in no list.
    pub fn is_free(&self, node: u32) -> bool
        requires { node < self.now.nodes }
        ensures { IsTrue result ↔ IsFree self.now node }
    {
        let slot = slot_of(&self.nodes, self.begin, node as usize);
        at(&self.nodes, at(&self.nodes, slot).next).number == Some(node)
    }

    /// Says that the lists are apart: each has numbers of nodes alone, and no number is there more than once.
    pub fn are_apart(&self)
        ensures { IsApart self.now }
    {
        let _ = &self.nodes;
    }
}
