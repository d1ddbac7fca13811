//! What the workers of each node of a scenario begin with: the node's endpoints in their places, the seats, the interface, the disk, and
//! what the driver sees of the endpoints.

mod ends;
mod nodes;
mod opening;
mod threads;

pub use crate::node::nodes::open_nodes;
pub use crate::node::opening::Opening;
pub use crate::node::threads::calls_of;
pub use am_names::NoMemory;
