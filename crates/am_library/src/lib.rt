//! What a library over the layer is made of: a scenario made in code, what runs it, what is seen of a run, and the laws of delivery in
//! a library's words.
#![tactic(auto)]

mod faults;
pub mod laws;
mod rounds;
mod runner;

pub use am_library_drafts::{Draft, DraftFault, Setting, calls, lines};
pub use am_library_views::{
    Account, Ending, RoundSum, Run, first_word_at, runs_at, runs_with_replies, sum_at,
};
pub use faults::RoundFault;
pub use rounds::RunDraft;
pub use runner::{AtOnce, BySeed, DrainAlone, Finished, RunFault, RunJournal, Runner};
