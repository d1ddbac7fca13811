//! How a link releases what is emitted on it: the plan of one link, found by place, and the stage that each emission
//! goes through. The stage is over items of any kind: the packets themselves, or their numbers.
#![tactic(auto)]

mod faults;
mod laws;
mod stage;

pub use faults::LinkFaults;
pub use laws::stages_release_the_shape;
pub use stage::{LateItem, Stage};
