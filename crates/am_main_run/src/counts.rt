//! The command `count`: the words of a text, counted by messages over the cluster, and what is printed of them.
pub mod cluster;
mod counts;
mod laws;

pub use crate::counts::counts::count_output;
pub use crate::counts::laws::counts_have_one_answer;
