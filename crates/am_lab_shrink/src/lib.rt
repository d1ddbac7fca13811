//! What `am2_lab shrink` prints: some lines of a scenario's text, whose report still has a line that begins with some words, and of which
//! none can be left out.
#![tactic(auto)]

mod lines;
mod parts;
mod reports;
mod shrinks;

pub use crate::reports::Making;
pub use crate::shrinks::shrink_output;
