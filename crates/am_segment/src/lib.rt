//! Segments of endpoints, and the blocks that are written to them: the scenario's text that a text with segments stands for, and what
//! is printed of its run.
#![tactic(auto)]

mod expansion;
mod hex;
mod laws;
mod own;
mod print;
mod reading;
mod saying;
mod scenario;
mod texts;

pub use am_segment_pieces::{
    Piece, SegmentLine, Transfer, TransferRan, piece, segment_bytes, transfers_ran,
};
pub use expansion::Expanded;
pub use laws::expansions_are_lawful;
pub use print::segments_text;
pub use reading::expand;
pub use scenario::{SegmentScenario, read_segments};
