//! Relays: links between threads for items of any kind. What is emitted at one end comes out at the other as the relay's faults
//! release it, in order. Each end can be moved to a thread of its own.
//!
//! An item bears a stamp (`Stamping` says how), and leaves with the stamp of the emission that releases it. What the emissions release is
//! their `shape`. No end waits for the other: what the ring between them doesn't take stays at the end that emits.
#![tactic(auto)]

mod closing;
mod receiving;
mod sending;
mod stamping;

pub use closing::{RelayRecord, close_relay, make_relay};
pub use receiving::RelayIn;
pub use sending::RelayOut;
pub use stamping::Stamping;
