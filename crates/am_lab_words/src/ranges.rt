//! The seeds that a word of `schedule` or `find` names.

ghost use Rattle.am_lab_words.specs.Words.{is_closed, numbers_of, points_of, range_of, seeds_in, seeds_of};
ghost use Rattle.std.specs.Prelude.{◌≡◌};

use crate::numbers::printed_number;
use crate::{Seeds, Wrong};
use am_lexer::first_dot;

// The seeds from one number up to another.
#[tactic(auto, unfolding(crate::specs::Words::seeds_of))]
fn seeds_of(from: u64, to: u64) -> Result<Seeds, Wrong>
    ensures { result ≡ seeds_of from to }
{
    if to <= from {
        Err(Wrong::EmptyRange)
    } else if 100_000 < to - from {
        Err(Wrong::LongRange)
    } else {
        Ok(Seeds { from, to })
    }
}

// The seeds between what two words spell.
fn numbers_of(from: Option<u64>, to: Option<u64>) -> Result<Seeds, Wrong>
    ensures { result ≡ numbers_of from to }
{
    match (from, to) {
        (Some(from), Some(to)) => seeds_of(from, to),
        _ => Err(Wrong::RangeOfWords),
    }
}

fn is_closed(to: &[u8]) -> bool
    ensures { result ≡ is_closed to.now }
{
    matches!(to, [b'=', ..])
}

// The seeds of a range, by what stands before its two points and behind them.
#[tactic(auto, unfolding(crate::specs::Words::range_of))]
fn range_of(from: &[u8], to: &[u8]) -> Result<Seeds, Wrong>
    ensures { result ≡ range_of from.now to.now }
{
    match (from, to) {
        ([], _) => Err(Wrong::RangeWithoutStart),
        (_, []) => Err(Wrong::RangeWithoutEnd),
        _ => {
            if is_closed(to) {
                Err(Wrong::ClosedRange)
            } else {
                numbers_of(printed_number(from), printed_number(to))
            }
        }
    }
}

// The seeds of a range, by what stands before its first point and behind it.
#[tactic(auto, unfolding(crate::specs::Words::points_of))]
fn points_of(from: &[u8], rest: &[u8]) -> Result<Seeds, Wrong>
    ensures { result ≡ points_of from.now rest.now }
{
    match rest {
        [b'.', to @ ..] => range_of(from, to),
        _ => Err(Wrong::Seed),
    }
}

/// The seeds of a range that a word names.
#[tactic(auto, unfolding(crate::specs::Words::seeds_in))]
pub(crate) fn seeds_in(word: &[u8]) -> Result<Seeds, Wrong>
    ensures { result ≡ seeds_in word.now }
{
    match first_dot(word) {
        Some(at) => points_of(&word[..at], &word[at + 1..]),
        None => Err(Wrong::Seed),
    }
}
