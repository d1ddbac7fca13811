//! The words and lines of the printed texts.
#![tactic(auto)]

pub mod entry_lines;
mod pieces;
mod words;

pub use pieces::{
    LinePiece, count, put_bytes, put_end, put_line, put_numbered, put_numbers, put_spaced,
    put_word, small,
};
pub use words::{cause_word, kind_word, verdict_word, why_word};
