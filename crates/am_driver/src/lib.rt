//! A node's driver: what it does next with its endpoints, its frames and its disk, which it passes on, and its turn, in which
//! it looks at each endpoint of the node and makes at most one move.
#![tactic(auto)]

mod driver;
mod looks;
mod moves;
mod settling;
mod turns;

pub use crate::driver::driver_turn;
pub use crate::looks::line_of;
pub use crate::turns::{DriverFault, DriverTurn};
pub use am_driver_moves::choice::{EndView, Move, View, next_move};
