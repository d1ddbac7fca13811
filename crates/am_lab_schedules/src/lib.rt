//! What `am2_lab schedule` and `am2_lab find` print: of one seed its report, of many a line for the run of each and how many distinct journals
//! there were, or the report of the least that is looked for. Each seed may draw a plan too.
#![tactic(auto)]

pub mod beginnings;
pub mod distinct;
mod finds;
pub mod one_seed;
pub mod outcomes;
mod schedules;
mod trials;

pub use crate::finds::{Wanted, find_output};
pub use crate::schedules::schedules_output;
