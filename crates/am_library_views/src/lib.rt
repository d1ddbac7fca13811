//! What a library sees of the journal of a run: what ran where and was replied, the sums of endpoints, and what became of each request.
#![tactic(auto)]

mod account;
mod endings;
mod entries;
mod round_sum;
mod runs;
mod sums;

pub use account::Account;
pub use endings::Ending;
pub use entries::{HandlerRun, handler_run_of, words_in, words_run_of};
pub use round_sum::RoundSum;
pub use runs::{Run, first_word_at, runs_at, runs_with_replies};
pub use sums::sum_at;
