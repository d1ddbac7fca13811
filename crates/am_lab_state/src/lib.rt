//! The command `state`: the state of the machine behind a line of a report, and how two of them differ, line by line; and what each
//! entry of a report changes.
#![tactic(auto)]

mod accepted;
mod answers;
mod asked;
mod changes;
mod channels;
mod differences;
mod ends;
mod flights;
mod fronts;
mod laws;
mod links;
mod messages;
mod named;
mod nodes;
mod readings;
mod states;
mod tables;
mod threads;
mod unreceived;

pub use crate::answers::state_output;
pub use crate::asked::StateLines;
pub use crate::changes::changes_text;
pub use crate::laws::changes_are_told;
