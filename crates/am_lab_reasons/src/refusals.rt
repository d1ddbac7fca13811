//! What is told of a text that spells no scenario: its line with the first fault, a mark under the place of it, which words might
//! stand there, and what the text may be instead. And the line of a step that can't happen.

mod cuts;
mod faults;
mod places;
mod refusals;
mod words;

pub(crate) use crate::refusals::cuts::line_at;
pub use crate::refusals::refusals::{put_refusal, put_source};
