//! The command `chart`: the picture of a report, or of one of its messages, drawn; with `--front` that of what stands in front of a
//! fault.
#![tactic(auto)]

mod charts;
mod fronts;
mod messages;
pub mod view;

pub use crate::charts::chart_output;
pub use crate::fronts::chart_front_output;
pub use crate::messages::message_chart;
