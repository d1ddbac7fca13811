//! Numbers, endpoints, nodes, tags and serials, as they are printed.

ghost use Rattle.std.specs.Prelude.{◌≡◌};
ghost use Rattle.am_check_lines.specs.Reading.{Gives, has_no_leading_zero, printed_number, number_up_to, byte_at, count_at, long_at, end_at, node_at, tag_of, tag_at, serial_of, serial_at, words_behind};

use crate::words::{is_word, take_word};
use am_lexer::{first_dot, parse_number};
use am_names::{EndpointId, NodeId, Serial, Tag};

fn has_no_leading_zero(word: &[u8]) -> bool
    ensures { result ≡ has_no_leading_zero word.now }
{
    !matches!(word, [b'0', _, ..])
}

/// The number that is printed as this word: one of decimal digits without leading zeros, below 2^64.
#[tactic(auto, unfolding(crate::specs::Reading::printed_number))]
pub fn printed_number(word: &[u8]) -> Option<u64>
    ensures { result ≡ printed_number word.now }
{
    if has_no_leading_zero(word) {
        parse_number(word)
    } else {
        None
    }
}

/// The number that a word prints, where it is at most 255.
#[tactic(auto, unfolding(crate::specs::Reading::number_up_to))]
pub fn byte_of(word: &[u8]) -> Option<u8>
    ensures { result ≡ number_up_to 255 word.now }
{
    let number = printed_number(word)?;
    if number <= 255 {
        Some(number as u8)
    } else {
        None
    }
}

#[tactic(auto, unfolding(crate::specs::Reading::number_up_to))]
fn count_of(word: &[u8]) -> Option<u32>
    ensures { result ≡ number_up_to 0xffff_ffff word.now }
{
    let number = printed_number(word)?;
    if number <= 0xffff_ffff {
        Some(number as u32)
    } else {
        None
    }
}

#[tactic(auto, unfolding(crate::specs::Reading::number_up_to))]
fn long_of(word: &[u8]) -> Option<u64>
    ensures { result ≡ number_up_to 0xffff_ffff_ffff_ffff word.now }
{
    printed_number(word)
}

/// A number up to 255, and what comes behind it. `None` where no such word comes next.
#[tactic(auto, unfolding(crate::specs::Reading::byte_at, crate::specs::Reading::number_at, crate::specs::Reading::word_at))]
pub fn take_byte(rest: &[u8]) -> Option<(u8, &[u8])>
    ensures { Gives (λ found. (found.0, words_behind found.1.now)) result (byte_at (words_behind rest.now)) }
{
    let (word, rest) = take_word(rest)?;
    Some((byte_of(word)?, rest))
}

/// A number of 32 bits, and what comes behind it. `None` where no such word comes next.
#[tactic(auto, unfolding(crate::specs::Reading::count_at, crate::specs::Reading::number_at, crate::specs::Reading::word_at))]
pub fn take_count(rest: &[u8]) -> Option<(u32, &[u8])>
    ensures { Gives (λ found. (found.0, words_behind found.1.now)) result (count_at (words_behind rest.now)) }
{
    let (word, rest) = take_word(rest)?;
    Some((count_of(word)?, rest))
}

/// A number of 64 bits, and what comes behind it. `None` where no such word comes next.
#[tactic(auto, unfolding(crate::specs::Reading::long_at, crate::specs::Reading::number_at, crate::specs::Reading::word_at))]
pub fn take_long(rest: &[u8]) -> Option<(u64, &[u8])>
    ensures { Gives (λ found. (found.0, words_behind found.1.now)) result (long_at (words_behind rest.now)) }
{
    let (word, rest) = take_word(rest)?;
    Some((long_of(word)?, rest))
}

/// An endpoint by its number, and what comes behind it. `None` where no such word comes next.
#[tactic(auto, unfolding(crate::specs::Reading::end_at))]
pub fn take_end(rest: &[u8]) -> Option<(EndpointId, &[u8])>
    ensures { Gives (λ found. (found.0, words_behind found.1.now)) result (end_at (words_behind rest.now)) }
{
    let (number, rest) = take_byte(rest)?;
    Some((EndpointId(number), rest))
}

/// A node by its number, and what comes behind it. `None` where no such word comes next.
#[tactic(auto, unfolding(crate::specs::Reading::node_at))]
pub fn take_node(rest: &[u8]) -> Option<(NodeId, &[u8])>
    ensures { Gives (λ found. (found.0, words_behind found.1.now)) result (node_at (words_behind rest.now)) }
{
    let (number, rest) = take_byte(rest)?;
    Some((NodeId(number), rest))
}

#[tactic(auto, unfolding(crate::specs::Reading::tag_of))]
fn tag_of(word: &[u8]) -> Option<Tag>
    ensures { result ≡ tag_of word.now }
{
    if is_word(word, b"none".as_slice()) {
        return Some(Tag(0));
    }
    if is_word(word, b"all".as_slice()) {
        return Some(Tag(u64::MAX));
    }
    let number = printed_number(word)?;
    if number == 0 || number == u64::MAX {
        None
    } else {
        Some(Tag(number))
    }
}

/// A tag, and what comes behind it. `None` where no such word comes next.
#[tactic(auto, unfolding(crate::specs::Reading::tag_at, crate::specs::Reading::word_at))]
pub fn take_tag(rest: &[u8]) -> Option<(Tag, &[u8])>
    ensures { Gives (λ found. (found.0, words_behind found.1.now)) result (tag_at (words_behind rest.now)) }
{
    let (word, rest) = take_word(rest)?;
    Some((tag_of(word)?, rest))
}

#[tactic(auto, unfolding(crate::specs::Reading::serial_of))]
fn serial_of(word: &[u8]) -> Option<Serial>
    ensures { result ≡ serial_of word.now }
{
    let dot = first_dot(word)?;
    let source = byte_of(&word[..dot])?;
    let count = count_of(&word[dot + 1..])?;
    Some(Serial {
        source: EndpointId(source),
        count,
    })
}

/// A serial, and what comes behind it. `None` where no such word comes next.
#[tactic(auto, unfolding(crate::specs::Reading::serial_at, crate::specs::Reading::word_at))]
pub fn take_serial(rest: &[u8]) -> Option<(Serial, &[u8])>
    ensures { Gives (λ found. (found.0, words_behind found.1.now)) result (serial_at (words_behind rest.now)) }
{
    let (word, rest) = take_word(rest)?;
    Some((serial_of(word)?, rest))
}
