//! The words of a line, read from the left.

ghost use Rattle.std.specs.Prelude.{[]};
ghost use Rattle.am_lexer.specs.Text.{words_of};
ghost use Rattle.am_lexer.specs.Fields.{Gives, word_at, number_at, within, ended};

use crate::number::parse_number;
use crate::short::short_number;
use crate::what::What;
use crate::words::next_word;

/// The next word.
#[tactic(auto, unfolding(crate::specs::Fields::word_at))]
pub fn take_word(rest: &[u8]) -> Result<(&[u8], &[u8]), What>
    ensures { Gives (λ found. (found.0.now, words_of found.1.now)) result (word_at (words_of rest.now)) }
{
    match next_word(rest) {
        Some(found) => Ok(found),
        None => Err(What::Missing),
    }
}

// The next word as a number, the word first and then its digits.
#[inline(never)]
#[tactic(auto, unfolding(crate::specs::Fields::number_at))]
fn number_word(rest: &[u8]) -> Result<(u64, &[u8]), What>
    ensures { Gives (λ found. (found.0, words_of found.1.now)) result (number_at (words_of rest.now)) }
{
    let (word, rest) = take_word(rest)?;
    match parse_number(word) {
        Some(number) => Ok((number, rest)),
        None => Err(What::BadNumber),
    }
}

/// The next word as a number.
#[inline(always)]
pub fn take_number(rest: &[u8]) -> Result<(u64, &[u8]), What>
    ensures { Gives (λ found. (found.0, words_of found.1.now)) result (number_at (words_of rest.now)) }
{
    match short_number(rest) {
        Some(found) => Ok(found),
        None => number_word(rest),
    }
}

/// The next word as a number from `low` to `high`.
#[inline(always)]
#[tactic(auto, unfolding(crate::specs::Fields::within))]
pub fn take_u32(low: u32, high: u32, rest: &[u8]) -> Result<(u32, &[u8]), What>
    ensures { Gives (λ found. (found.0, words_of found.1.now)) result (within low high (words_of rest.now)) }
{
    let (number, rest) = take_number(rest)?;
    if u64::from(low) <= number && number <= u64::from(high) {
        Ok((number as u32, rest))
    } else {
        Err(What::OutOfRange)
    }
}

/// The next word as a small number from `low` to `high`.
#[inline(always)]
#[tactic(auto, unfolding(crate::specs::Fields::within))]
pub fn take_byte(low: u8, high: u8, rest: &[u8]) -> Result<(u8, &[u8]), What>
    ensures { Gives (λ found. (found.0, words_of found.1.now)) result (within low high (words_of rest.now)) }
{
    let (number, rest) = take_number(rest)?;
    if u64::from(low) <= number && number <= u64::from(high) {
        Ok((number as u8, rest))
    } else {
        Err(What::OutOfRange)
    }
}

/// Nothing more stands in the line.
#[tactic(auto, unfolding(crate::specs::Fields::ended))]
pub fn take_end(rest: &[u8]) -> Result<(), What>
    ensures { Gives (λ _. []) result (ended (words_of rest.now)) }
{
    match next_word(rest) {
        Some(_) => Err(What::UnknownWord),
        None => Ok(()),
    }
}
