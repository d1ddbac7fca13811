//! What a node's crew has.

use am_names::NodeId;
use am_places::Places;
use am_workers::{DriverWorker, InterfaceWorker, ThreadWorker};
use am_workers_laws::books::EndBook;

/// The workers of a node, around its places.
#[derive(Drop)]
pub struct NodeCrew {
    pub node: NodeId,
    /// The number of its first worker, among the workers of all nodes: its threads come first, then its interface, then its driver.
    pub first: u32,
    /// The node's endpoints, in ascending order of their numbers.
    pub places: Places<EndBook>,
    /// Its threads, by their numbers.
    pub threads: Vec<ThreadWorker>,
    pub interface: InterfaceWorker,
    pub driver: DriverWorker,
}
