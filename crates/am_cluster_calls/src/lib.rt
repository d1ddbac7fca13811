//! The threads of a run as its drain sees them: what each is still to call, and which of them made the fewest calls.
#![tactic(auto)]

mod lows;
mod threads;

pub use crate::lows::{LowMark, fewest_from, low_after, no_low};
pub use crate::threads::{
    ThreadScript, all_scripts, count_event, next_call, scripts_after, tell_made,
};
