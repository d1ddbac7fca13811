//! The journal of a report in the form that ShiViz reads: for each entry a line with its node and a vector clock, and one with
//! the entry itself.
#![tactic(auto)]

mod command;
mod entries;
mod knowledge;
mod laws;
mod texts;

pub use crate::command::shiviz_output;
pub use crate::entries::happenings;
pub use crate::knowledge::{Clock, Happening, clocks};
pub use crate::laws::{
    clocks_count_their_node, each_entry_has_its_lines, each_happening_has_its_clock,
    receipts_know_what_was_sent, what_a_node_knew_is_known,
};
pub use crate::texts::shiviz_text;
