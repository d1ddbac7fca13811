//! The command `segments`: the run of a scenario with segments, and what is printed of it.
mod laws;
mod segments;

pub use crate::segments::laws::segments_have_one_answer;
pub use crate::segments::segments::segments_output;
