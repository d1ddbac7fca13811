//! Scenarios that the lab prints: read ones, also with plans that a seed draws, replays of runs as step scripts, and those behind made runs, segments and counted words.
#![tactic(auto)]

pub mod derived;
pub mod derived_laws;
pub mod faults;
pub mod replays;
pub mod spelling;
pub mod texts;
