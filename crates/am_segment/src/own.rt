//! The kinds of own lines, by their first words; and what the other lines say of endpoints and sections.

ghost use Rattle.std.specs.Prelude.{◌≡◌, Some, None, MatchOption};
ghost use Rattle.am_lexer.specs.Text.{words_of};
ghost use Rattle.am_segment.specs.Own.{declared_by, is_script, of_thread, own_of, thread_word};

use am_lexer::{next_word, parse_number};
use am_scenario::lines::{Head, head_of};

/// The kinds of lines that a text with segments has beyond those of a scenario.
#[derive(Clone, Copy)]
pub(crate) enum Own {
    /// `segment`: an endpoint has a segment.
    Segment,
    /// `tT xfer`: this thread sends a block.
    Transfer(u64),
    /// `tT serve`: this thread polls many times.
    Serve(u64),
}

#[tactic(auto, unfolding(crate::specs::Own::thread_word))]
fn thread_word(word: &[u8]) -> Option<u64>
    ensures { result ≡ thread_word word.now }
{
    match head_of(None, word) {
        Some(Head::OfThread(number)) => Some(number),
        _ => None,
    }
}

#[tactic(auto, unfolding(crate::specs::Own::of_thread))]
fn of_thread(thread: u64, rest: &[u8]) -> Option<(Own, &[u8])>
    ensures { MatchOption result (of_thread (Some thread) (words_of rest.now) ≡ None) (λ found. of_thread (Some thread) (words_of rest.now) ≡ Some (found.0, words_of found.1.now)) }
{
    let (verb, rest) = next_word(rest)?;
    if verb == b"xfer".as_slice() {
        Some((Own::Transfer(thread), rest))
    } else if verb == b"serve".as_slice() {
        Some((Own::Serve(thread), rest))
    } else {
        None
    }
}

/// The kind of an own line, and what stands behind the words that tell it.
#[tactic(auto, unfolding(crate::specs::Own::own_of, crate::specs::Own::of_thread))]
pub(crate) fn own_of(line: &[u8]) -> Option<(Own, &[u8])>
    ensures { MatchOption result (own_of (words_of line.now) ≡ None) (λ found. own_of (words_of line.now) ≡ Some (found.0, words_of found.1.now)) }
{
    let (first, rest) = next_word(line)?;
    if first == b"segment".as_slice() {
        return Some((Own::Segment, rest));
    }
    match thread_word(first) {
        Some(thread) => of_thread(thread, rest),
        None => None,
    }
}

/// The number that a line declares an endpoint with.
#[tactic(auto, unfolding(crate::specs::Own::declared_by))]
pub(crate) fn declared_by(line: &[u8]) -> Option<u64>
    ensures { result ≡ declared_by (words_of line.now) }
{
    let (first, rest) = next_word(line)?;
    let (number, _) = next_word(rest)?;
    if first == b"endpoint".as_slice() {
        parse_number(number)
    } else {
        None
    }
}

/// Whether a line is of section 4, by its first word.
#[tactic(auto, unfolding(crate::specs::Own::is_script))]
pub(crate) fn is_script(line: &[u8]) -> bool
    ensures { result ≡ is_script (words_of line.now) }
{
    let Some((first, _)) = next_word(line) else {
        return false;
    };
    match head_of(None, first) {
        Some(head) => head.section() == 4,
        None => false,
    }
}
