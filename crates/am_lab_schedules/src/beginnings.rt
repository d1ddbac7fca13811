//! The lines of a report that begin with some words.

ghost use Rattle.am_lab_schedules.specs.Beginnings.{begins_with_words, has_line_with, is_like};
ghost use Rattle.std.specs.Prelude.{◌≡◌};

use am_lexer::{next_line, next_word};

/// Whether a word is the given one, or begins with what stands before the star with which the given one ends.
#[tactic(auto, unfolding(crate::specs::Beginnings::is_like))]
fn is_like(given: &[u8], word: &[u8]) -> bool
    ensures { result ≡ is_like given.now word.now }
{
    match given.split_last() {
        Some((b'*', front)) => word.starts_with(front),
        _ => given == word,
    }
}

/// Whether a line begins with these words: whole words, whatever number of spaces stands between them. A given word that ends with a star
/// stands for each word that begins with what stands before the star. Each line begins with no words at all.
pub fn begins_with_words(given: &[u8], line: &[u8]) -> bool
    ensures { result ≡ begins_with_words given.now line.now }
{
    let mut wanted = given;
    let mut rest = line;
    while let Some((first, others)) = next_word(wanted) {
        let Some((word, behind)) = next_word(rest) else {
            return false;
        };
        if !is_like(first, word) {
            return false;
        }
        wanted = others;
        rest = behind;
    }
    true
}

/// Whether a line of a text begins with these words.
pub fn has_line_with(given: &[u8], text: &[u8]) -> bool
    ensures { result ≡ has_line_with given.now text.now }
{
    let mut rest = text;
    while let Some((line, behind)) = next_line(rest) {
        if begins_with_words(given, line) {
            return true;
        }
        rest = behind;
    }
    false
}
