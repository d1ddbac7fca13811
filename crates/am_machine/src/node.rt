//! What each node of a cluster has, and how the endpoints, interfaces and disks of a cluster are dealt out to its nodes and
//! gathered again.

mod assembling;
mod dealing;
mod gathering;
mod journals;
mod shells;
mod taking;

pub use crate::node::assembling::assemble;
pub use crate::node::dealing::deal;
pub use crate::node::gathering::gather;
pub use crate::node::journals::{index_of, journal_of};
pub use crate::node::shells::{Shell, open_shells};
pub use crate::node::taking::{TakenParts, room_for, take_apart};
use am_endpoint::Endpoint;
use am_iface::Interface;
use am_names::{NodeId, Packet};
pub use am_office_entries::NoMemory;
use am_swap_device::MemorySwap;

/// What one node of the packet network has.
#[derive(Drop)]
pub struct NodePart {
    pub node: NodeId,
    /// Its endpoints, in ascending order of their numbers.
    pub ends: Vec<Endpoint>,
    pub iface: Interface,
    pub swap: MemorySwap,
    /// For each node, by its number, the packets that this one emitted to it, in order.
    pub emitted: Vec<Vec<Packet>>,
    /// For each node, by its number, how many packets from it this one received.
    pub received: Vec<u32>,
}
