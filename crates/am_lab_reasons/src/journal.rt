//! The journal of a report, made again from its lines.

mod plays;
mod reaches;

pub use reaches::{journal_in, journal_of, reach, reach_end};
