//! The words of a text, the four words in which a request carries each, and how often words were sent and ran.

mod codes;
mod rows;
mod spelled;
mod tally;
mod texts;

pub use codes::CodedWord;
pub use rows::WordCount;
pub use spelled::{Spelled, word_in};
pub use tally::{Count, Tally};
pub use texts::{TextWords, split};
