//! One answer of a program: what it was asked for, the text that is read for it, and the answer that is offered.
#![tactic(auto)]

mod offers;
mod questions;
mod replies;
mod top;

pub use crate::offers::offer_line;
pub use crate::questions::Question;
pub use crate::top::{answer_no_memory, answer_to};
