//! The program over any source and sink: the words of its commands, its statuses and its texts.
#![tactic(auto)]

mod answers;
mod commands;
mod jobs;
mod laws;
mod top;

pub use crate::commands::{Command, command_of};
pub use crate::laws::answers_say;
pub use crate::top::{Status, am2, answer_no_memory};
pub use am_main_run::counts::counts_have_one_answer;
pub use am_main_run::have_one_answer;
pub use am_main_run::segments::segments_have_one_answer;
pub use am_main_step::{StepFault, step_has_one_answer, step_text};
