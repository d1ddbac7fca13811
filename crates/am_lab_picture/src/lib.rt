//! What a space-time picture of a journal shows, as plain data: a row for each entry, an arrow for each receipt of a
//! packet, a cross for each packet that none receives, and for each endpoint where it lies and how much it holds, from
//! line to line; of some lines of the journal, or of those that touch one message. The unit is the line of the report, of
//! which the journal's first is the third.
#![tactic(auto)]

mod abouts;
mod data;
mod entries;
mod fates;
mod journals;
mod lanes;
mod laws;
pub mod layout;
mod messages;
mod packets;
mod placed;
mod residencies;
mod spans;
mod tables;
mod ways;

pub use data::{
    Arrow, Cross, Lane, Lines, Named, Picture, PlacedRow, Residency, Row, Span, Standing,
};
pub use entries::{placed_rows, rows};
pub use journals::IndexedJournal;
pub use lanes::LaneTrack;
pub use laws::{
    arrows_join_emissions_to_receipts, crosses_are_of_the_unreceived, rows_are_entries,
    rows_stand_in_their_lines, spans_are_values,
};
pub use messages::message_picture;
pub use packets::{arrows, crosses};
pub use residencies::residency_of;
pub use spans::Track;
