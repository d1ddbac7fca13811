//! The nodes of a block, side by side in one piece of memory: one for each slot, and one for the head of each list. Each
//! leads to the node before and behind it. Contracts see them by their numbers.
ghost use Rattle.std.specs.Prelude.{◌≡◌, ◌<◌, ◌≤◌, IfOk, Some, length, replicate, slice_get, get_or};
ghost use Rattle.std.specs.Borrow.{sem};
ghost use Rattle.am_block.specs.Links.{joined, inserted, closed};

use crate::{Descriptor, List};
use am_block_row::{Base, Deed, Row, Spot, allocate, deallocate};
use std::alloc::{AllocError, Global};
use std::marker::Model;

/// The way to a node: where it lies, and its number.
#[derive(Clone, Copy)]
pub(crate) struct Link {
    node: Spot,
    slot: usize,
}

/// A descriptor with its links and its list.
#[derive(Clone, Copy)]
pub(crate) struct Node {
    prev: Link,
    next: Link,
    list: List,
    descriptor: Descriptor,
}

/// The owner of the nodes' memory, which it frees.
pub(crate) struct Nodes {
    base: Base<Node>,
    row: Row<Node>,
    deed: Deed<Node, Global>,
    len: usize,
    alloc: Global,
}

impl Model for Nodes {
    ghost use Rattle.am_block.specs.Links.{Links};

    ghost Value = { Links };

    ghost use Rattle.am_block.specs.Places.{somes};
    ghost use Rattle.am_block.specs.Nodes.{IsNodes, links_of};

    ghost view = { λ n. links_of (somes n.row.places) };

    ghost invariant = { IsNodes };
}

impl Nodes {
    ghost use Rattle.am_block.specs.NodesLends.{LendsDescriptor};

    /// Memory for `len` nodes, whose links lead to the first.
    pub(crate) fn new(
        alloc: Global,
        len: u8,
        list: List,
        descriptor: Descriptor,
    ) -> Result<Nodes, AllocError>
        requires { 1 ≤ len }
        ensures { IfOk result (λ n. n ≡ record { next = replicate len 0; prev = replicate len 0; lists = replicate len list; descriptors = replicate len descriptor }) }
    {
        let len = len as usize;
        let (base, mut row, deed) = allocate(&alloc, len)?;
        let first = Link {
            node: row.pointer(base, 0),
            slot: 0,
        };
        let node = Node {
            prev: first,
            next: first,
            list,
            descriptor,
        };
        for slot in 0..len {
            row.write(base, slot, node);
        }
        Ok(Nodes {
            base,
            row,
            deed,
            len,
            alloc,
        })
    }

    /// The node behind this one.
    pub(crate) fn next(&self, slot: u8) -> u8
        requires { slot < length self.now.next }
        ensures { result ≡ get_or self.now.next slot 0 }
    {
        self.row.get(self.base, slot as usize).next.slot as u8
    }

    /// The list of a node.
    pub(crate) fn list(&self, slot: u8) -> List
        requires { slot < length self.now.next }
        ensures { slice_get self.now.lists slot ≡ Some result }
    {
        self.row.get(self.base, slot as usize).list
    }

    pub(crate) fn descriptor(&self, slot: u8) -> &Descriptor
        requires { slot < length self.now.next }
        ensures { slice_get self.now.descriptors slot ≡ Some result.now }
    {
        &self.row.get(self.base, slot as usize).descriptor
    }

    pub(crate) fn descriptor_mut(&mut self, slot: u8) -> &mut Descriptor
        requires { slot < length self.old.next }
        ensures* writes_back { sem 𝓛 (LendsDescriptor self.entry slot result) }
        ensures value { slice_get self.old.descriptors slot ≡ Some result.now }
    {
        let base = self.base;
        &mut self.row.get_mut(base, slot as usize).descriptor
    }

    /// Joins the nodes before and behind this one.
    pub(crate) fn take_out(&mut self, slot: u8)
        requires { slot < length self.old.next }
        ensures { self.new ≡ joined self.old slot }
    {
        let node = self.row.get(self.base, slot as usize);
        let prev = node.prev;
        let next = node.next;
        self.row.follow_mut(prev.node, prev.slot).next = next;
        self.row.follow_mut(next.node, next.slot).prev = prev;
    }

    /// Joins a node with itself, as the head of an empty list.
    pub(crate) fn close(&mut self, head: u8, list: List)
        requires { head < length self.old.next }
        ensures { self.new ≡ closed self.old head list }
    {
        let base = self.base;
        let here = Link {
            node: self.row.pointer(base, head as usize),
            slot: head as usize,
        };
        let node = self.row.get_mut(base, head as usize);
        node.prev = here;
        node.next = here;
        node.list = list;
    }

    /// Puts a node before the head of a list, which is the list's tail.
    pub(crate) fn append(&mut self, slot: u8, head: u8, list: List)
        requires { (slot < length self.old.next) × (head < length self.old.next) }
        ensures { self.new ≡ inserted self.old slot head list }
    {
        let base = self.base;
        let here = Link {
            node: self.row.pointer(base, slot as usize),
            slot: slot as usize,
        };
        let end = Link {
            node: self.row.pointer(base, head as usize),
            slot: head as usize,
        };
        let last = self.row.get(base, head as usize).prev;
        self.row.follow_mut(last.node, last.slot).next = here;
        let node = self.row.get_mut(base, slot as usize);
        node.prev = last;
        node.next = end;
        node.list = list;
        self.row.get_mut(base, head as usize).prev = here;
    }
}

impl Drop for Nodes {
    fn drop(self) {
        let Nodes {
            base,
            mut row,
            deed,
            len,
            alloc,
        } = self;
        for slot in 0..len {
            row.read(base, slot);
        }
        deallocate(&alloc, base, len, row, deed);
    }
}
