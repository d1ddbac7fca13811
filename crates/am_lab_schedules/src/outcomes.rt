//! What many runs of one scenario came to: a line for each, with its fates that differ from those of the first, and how many
//! distinct journals there were.

mod fates;
mod lines;
mod runs;
mod telling;

pub use crate::outcomes::runs::SeedRun;
pub use crate::outcomes::telling::Telling;
