//! A word in the four words of a request.

ghost use Rattle.std.specs.Prelude.{◌≡◌, ◌≤◌, length, sum};
ghost use Rattle.am_job.specs.Words.Codes.{Fits, code, coded};

use am_names::Words;
use am_segment_pieces::{padded, word_at};

/// A word of a text, as a request carries it.
#[derive(Clone, Copy, PartialEq, Eq)]
pub struct CodedWord {
    /// Its length, 0 to 24, and its bytes with zeros after them, eight in each word, the first the greatest.
    pub words: Words,
    /// The sum of its bytes, which tells its owner.
    pub sum: u16,
}

// The four words that carry a word.
#[tactic(auto, unfolding(crate::specs::Words::Codes::code))]
fn code(word: &[u8]) -> Words
    requires { length word.now ≤ 24 }
    ensures exact { result ≡ code word.now }
    ensures fit { Fits (record { words = result; sum = 0 }) }
{
    let bytes = padded(word);
    Words {
        a: word.len() as u64,
        b: word_at(&bytes, 0),
        c: word_at(&bytes, 8),
        d: word_at(&bytes, 16),
    }
}

// The sum of a word's bytes.
fn sum_of(word: &[u8]) -> u16
    requires { length word.now ≤ 24 }
    ensures { result ≡ sum word.now }
{
    word.iter().map(|byte| u16::from(*byte)).sum()
}

/// A word of at most 24 bytes, as a request carries it.
pub fn coded(word: &[u8]) -> CodedWord
    requires { length word.now ≤ 24 }
    ensures exact { result ≡ coded word.now }
    ensures fit { Fits result }
{
    CodedWord {
        words: code(word),
        sum: sum_of(word),
    }
}
