//! The program `am2_lab` behind its words: what is told of a scenario and its report.
#![tactic(auto)]

mod answers;
mod charts;
mod cuts;
mod explains;
mod fronts;
mod laws;
mod requests;
mod top;

pub use crate::laws::answers_say;
pub use crate::top::{answer, answer_no_memory};
