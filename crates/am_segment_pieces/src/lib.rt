//! Blocks that travel in requests: the pieces that they are cut into, and the segments that the pieces are written to.
#![tactic(auto)]

mod bytes;
mod decode;
pub mod laws;
mod parts;
mod ran;
mod segment;
mod transfer;

pub use bytes::{are_zero, bytes_in, padded, word_at};
pub use decode::piece;
pub use parts::Piece;
pub use ran::{TransferRan, transfers_ran};
pub use segment::{SegmentLine, segment_bytes};
pub use transfer::Transfer;
