//! The journal of a whole machine: what is read off its entries as they are made, and the one journal that the logs of its parts merge into.
#![tactic(auto)]

pub mod index;
pub mod merge;
