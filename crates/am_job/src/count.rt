//! The words of a text are counted round by round: each round's scenario is run, and what its journal tells is counted.

mod counting;
mod print;
mod runner;

pub use counting::{CountStop, count};
pub use runner::{RunStop, Runner};
