//! What the workers of a node begin with.

use am_driver_moves::choice::View;
use am_iface::{IfaceSettings, Interface};
use am_names::NodeId;
use am_places::{Places, Seat};
use am_swap::MemorySwap;
use am_workers_laws::books::EndBook;

/// What the workers of a node begin with.
#[derive(Drop)]
pub struct Opening {
    pub node: NodeId,
    /// The node's endpoints, in ascending order of their numbers.
    pub places: Places<EndBook>,
    /// A seat for each of its threads, in order, then one for its interface, and last one for its driver.
    pub seats: Vec<Seat<EndBook>>,
    /// The numbers of its threads, in order.
    pub threads: Vec<u8>,
    pub interface: Interface,
    /// The settings of the interface.
    pub set: IfaceSettings,
    pub swap: MemorySwap,
    /// What the driver sees of the endpoints.
    pub view: View,
}
