//! The two ends of a channel, by which a node hands messages to a peer one at a time: each message is sent until it is
//! answered, or until its tries are used up. Both are plain values, and nothing here takes memory.
#![tactic(auto)]

mod ends;
pub mod laws;
mod receiving;
mod sending;

pub use crate::ends::Ends;
pub use crate::receiving::{Arrival, RecvEnd};
pub use crate::sending::{Bound, SendEnd, Sent, Settled, TimedOut};
pub use am_block::Slot;
