//! What a link does with the packets that are emitted on it: its plan, and the shape of what it releases.
#![tactic(auto)]

mod plan;
mod shape_of;

pub use plan::{LinkFault, PlanLine};
pub use shape_of::{one_packet_more, shape};
