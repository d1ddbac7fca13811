//! Counting the words of a text over a cluster: the scenarios whose messages carry the words, and the counts of what ran.
#![tactic(auto)]

pub mod count;
mod counting;
mod drafting;
mod laws;
pub mod run_laws;
mod scenario;
mod script;
pub mod words;

// A word with how often it ran and how often it is left: what `counts` gives for each word.
pub use crate::words::WordCount;
pub use counting::{ask_script, counts};
pub use laws::jobs_send_words;
pub use scenario::{Job, round, round_count, round_size, rounds};
