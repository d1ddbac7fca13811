//! The commands `scenario` and `replay`: a scenario in one form, and a run's journal as a step script.

mod replays;
mod scenarios;

pub use crate::texts::replays::replay_output;
pub use crate::texts::scenarios::scenario_output;
