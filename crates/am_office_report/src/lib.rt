//! The report of a journal: its lines, what ran at each endpoint, the fate of each message, and the totals;
//! and its summary of two lines.
#![tactic(auto)]

mod heard;
mod known;
mod laws;
mod messages;
mod reports;
mod runs;
mod sources;
mod totals;

pub use laws::{messages_are_in_order, summary_is_of_report};
pub use messages::MessageFate;
pub use reports::{fates, journal_lines, put_fate, put_total_words, report, summary};
