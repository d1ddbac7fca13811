//! A scenario as a text, in one form and without comments; what is read of it is the scenario again.

mod lines;
mod replay;
mod texts;

pub use replay::{replay_text, replays_are_read};
pub use texts::{printed_scenarios_are_read, scenario_text};
