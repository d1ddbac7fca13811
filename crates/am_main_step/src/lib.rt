//! The commands `step` and `check`: the events of a script, one after the other, with what is printed of them; and what is printed of a report.
#![tactic(auto)]

mod checks;
mod faults;
mod outputs;
mod steps;

pub use crate::checks::check_output;
pub use crate::faults::StepFault;
pub use crate::outputs::{step_has_one_answer, step_output};
pub use crate::steps::step_text;
