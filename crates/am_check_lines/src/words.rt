//! The words of a line, between single spaces.

ghost use Rattle.std.specs.Prelude.{◌≡◌, [], ◌∷◌, MatchOption};
ghost use Rattle.std.specs.Str.{bytes_eq};
ghost use Rattle.am_check_lines.specs.Reading.{words_behind, words_in};

use am_lexer::first_space;
use am_names::NodeId;

/// Who acts.
#[derive(Clone, Copy)]
pub enum Head {
    Outside,
    OfThread(u8),
    OfInterface(NodeId),
    OfDriver(NodeId),
}

/// Whether a word is a keyword.
#[inline(always)]
pub fn is_word(word: &[u8], keyword: &[u8]) -> bool
    ensures { result ≡ bytes_eq word.now keyword.now }
{
    word == keyword
}

/// The first word of a text, which may be empty, and what stands behind it: nothing, or a space and more.
pub fn split_word(text: &[u8]) -> (&[u8], &[u8])
    ensures { words_in text.now ≡ result.0.now ∷ words_behind result.1.now }
{
    match first_space(text) {
        Some(end) => (&text[..end], &text[end..]),
        None => (text, &[]),
    }
}

/// The next word behind a word, and what stands behind it.
#[tactic(auto, unfolding(crate::specs::Reading::words_behind))]
pub fn take_word(rest: &[u8]) -> Option<(&[u8], &[u8])>
    ensures { MatchOption result (words_behind rest.now ≡ []) (λ found. words_behind rest.now ≡ found.0.now ∷ words_behind found.1.now) }
{
    match rest {
        [] => None,
        [_, text @ ..] => Some(split_word(text)),
    }
}
