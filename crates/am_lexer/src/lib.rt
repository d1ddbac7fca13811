//! Lines, words and numbers of a text, read from the left.
#![tactic(auto)]

mod fields;
mod lines;
mod number;
mod short;
mod what;
mod words;

pub use fields::{take_byte, take_end, take_number, take_u32, take_word};
pub use lines::{is_text, lines_are_text, next_line};
pub use number::parse_number;
pub use what::What;
pub use words::{first_dot, first_space, next_word};
