//! The commands `run`, `make`, `segments` and `count`: the runs of a scenario, with its threads or without, and what is printed of them.
#![tactic(auto)]

pub mod counts;
mod laws;
mod makes;
mod runs;
pub mod segments;

pub use crate::laws::have_one_answer;
pub use crate::makes::make_output;
pub use crate::runs::{cut_run_text, ended_output, run_output, run_text};
