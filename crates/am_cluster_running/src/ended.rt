//! What is left of a node's crew when its phase is over.

use am_iface::Interface;
use am_names::{NodeId, Packet};
use am_swap::MemorySwap;
use am_wire::{LinkIn, LinkOut};
use am_workers_laws::books::EndBook;

/// A node when its phase is over, but for its links.
#[derive(Drop)]
pub struct NodeEnded {
    pub node: NodeId,
    /// Its endpoints, in ascending order of their numbers.
    pub books: Vec<EndBook>,
    pub interface: Interface,
    pub swap: MemorySwap,
    /// A packet that its interface took out of the link from a node, and didn't receive.
    pub hand: Option<(NodeId, Packet)>,
}

/// A node when its phase is over, with its links.
#[derive(Drop)]
pub struct Ended {
    pub node: NodeEnded,
    pub outs: Vec<LinkOut>,
    pub ins: Vec<LinkIn>,
}

/// All nodes when their phase is over.
#[derive(Drop)]
pub struct AllEnded {
    pub nodes: Vec<NodeEnded>,
    /// For each node, the ends of the links from it.
    pub outs: Vec<Vec<LinkOut>>,
    /// For each node, the ends of the links to it.
    pub ins: Vec<Vec<LinkIn>>,
}
