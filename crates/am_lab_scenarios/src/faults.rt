//! Plans that a seed draws: which of a scenario's packets are lost, repeated or late.
mod laws;
mod plans;

pub use crate::faults::laws::drawn_plans_by_packets;
pub use crate::faults::plans::draw_plan;
