//! What a move of a node's driver does: to the endpoint that it moves, and to the disk of its node.
#![tactic(auto)]

pub mod choice;
mod moves;
mod pages;

pub use crate::moves::{make_move, make_move_on};
