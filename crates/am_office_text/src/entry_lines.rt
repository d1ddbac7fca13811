//! The line of an entry in a printed journal, and the words in it that other texts have too.

mod lines;

pub use lines::{entry_line, mask_word};
