//! The words that a line of a report is to begin with.

ghost use Rattle.am_lab_words.specs.Words.{are_line_words, is_line_word, line_words, option_words, words_before};
ghost use Rattle.std.specs.List.{list_all};
ghost use Rattle.std.specs.Prelude.{◌≡◌, drop, map, string_bytes};

use crate::Asked;

#[tactic(auto, unfolding(crate::specs::Words::is_line_word))]
fn is_line_word(word: &str) -> bool
    ensures { result ≡ is_line_word word.now }
{
    !word.is_empty() && !word.starts_with("--")
}

fn all_are_line_words(words: &[String]) -> bool
    ensures { result ≡ list_all is_line_word (map string_bytes words.now) }
{
    for word in words {
        if !is_line_word(word.as_str()) {
            return false;
        }
    }
    true
}

/// Whether a line may be asked for by these words.
#[tactic(auto, unfolding(crate::specs::Words::are_line_words))]
pub(crate) fn are_line_words(words: &[String]) -> bool
    ensures { result ≡ are_line_words (map string_bytes words.now) }
{
    match words {
        [] => false,
        _ => all_are_line_words(words),
    }
}

// How many words `--faults PERCENT` has, where it stands there.
fn option_words(faults: Option<u8>) -> usize
    ensures { result ≡ option_words faults }
{
    match faults {
        Some(_) => 2,
        None => 0,
    }
}

// How many words stand in front of those of the line.
fn words_before(asked: Asked) -> usize
    ensures { result ≡ words_before asked }
{
    match asked {
        Asked::Find(trials) => 2 + option_words(trials.faults),
        Asked::FindWithout(trials) => 3 + option_words(trials.faults),
        Asked::Shrink(_) => 2,
        Asked::ShrinkSeeded(_) => 4,
        _ => 0,
    }
}

/// Of the words behind the program's name, which ask for this, those that a line of a report is to begin with. They are of use for
/// `find` and `shrink` alone.
pub fn line_words(asked: Asked, words: &[String]) -> &[String]
    ensures { map string_bytes result.now ≡ line_words asked (map string_bytes words.now) }
{
    let before = words_before(asked);
    if before <= words.len() {
        &words[before..]
    } else {
        &[]
    }
}
