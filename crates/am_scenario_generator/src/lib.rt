//! Scenarios made of random words: a large run of eight threads on four nodes over links that lose packets.
#![tactic(auto)]

mod calls;
mod make;
mod plan;

pub use make::generate;
