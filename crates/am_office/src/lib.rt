//! Journals for whoever reads or prints them: their entries, what an entry does, the fates of messages, the line of an
//! entry, and the report. The crates that make journals name the parts that this crate passes on.
#![tactic(auto)]

pub use am_office_entries::logged::LoggedJournal;
pub use am_office_entries::{
    Actor, Call, Condition, Entry, Event, Fate, HandlerKind, Journal, Mask, NoMemory, Outcome,
    Part, Place, Received, Refusal, accepted_of, fate, given_up_of, node_touched, return_of,
    run_of, unknown_of,
};
pub use am_office_report::{MessageFate, fates, journal_lines, report, summary};
pub use am_office_text::entry_lines::{entry_line, mask_word};
