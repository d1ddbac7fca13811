//! Links between threads: the packets that are emitted at one end come out at the other as the link's plan releases them, in order.
//! Each end can be moved to a thread of its own. A link is a relay (`am_wire_relay`) whose items are packets and whose faults are the
//! plan's.
#![tactic(auto)]

pub mod all_links;
mod closing;
mod receiving;
mod sending;
mod stamps;

pub use closing::{LinkRecord, close, make_link};
pub use receiving::LinkIn;
pub use sending::LinkOut;
