//! The disk of a node as a device that is handed in: it holds bytes for each endpoint, and counts its calls and faults.
#![tactic(auto)]

mod kept;
mod memory_swap;
mod swap;

pub use memory_swap::MemorySwap;
pub use swap::{Look, Swap, SwapFault};
