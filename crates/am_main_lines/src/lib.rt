//! The lines that the commands print, and the report of a journal with the endpoints of its scenario.
#![tactic(auto)]

mod outputs;
mod reports;
mod words;

pub use crate::outputs::{Output, fault_output, full_output};
pub use crate::reports::{cut_text, ids_of, report_of};
pub use crate::words::{condition_word, full_line, refused_line};
