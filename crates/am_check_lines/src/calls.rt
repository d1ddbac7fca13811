//! The words of a call behind its verb.

ghost use Rattle.am_check_lines.specs.Reading.{Gives, words_behind, four_at, request_at, poll_at, set_tag_at, map_at, unmap_at, echo_at, add_at, kind_at, set_handler_at, give_up_at, close_at, mask_at, test_at, call_at};

use crate::numbers::{take_byte, take_end, take_long, take_serial, take_tag};
use crate::words::{is_word, take_word};
use am_names::{EndpointId, Words};
use am_office_entries::{Call, HandlerKind, Mask};

type Called<'a> = ((EndpointId, Call), &'a [u8]);

// The four words of a request.
#[tactic(auto, unfolding(crate::specs::Reading::four_at))]
fn take_four(rest: &[u8]) -> Option<(Words, &[u8])>
    ensures { Gives (λ found. (found.0, words_behind found.1.now)) result (four_at (words_behind rest.now)) }
{
    let (a, rest) = take_long(rest)?;
    let (b, rest) = take_long(rest)?;
    let (c, rest) = take_long(rest)?;
    let (d, rest) = take_long(rest)?;
    Some((Words { a, b, c, d }, rest))
}

#[tactic(auto, using(crate::proofs::Requests::by_four))]
fn take_request(rest: &[u8]) -> Option<Called<'_>>
    ensures { Gives (λ found. (found.0, words_behind found.1.now)) result (request_at (words_behind rest.now)) }
{
    let (end, rest) = take_end(rest)?;
    let (index, rest) = take_byte(rest)?;
    let (handler, rest) = take_byte(rest)?;
    let (words, rest) = take_four(rest)?;
    let call = Call::Request {
        index,
        handler,
        words,
    };
    Some(((end, call), rest))
}

#[tactic(auto, unfolding(crate::specs::Reading::poll_at))]
fn take_poll(rest: &[u8]) -> Option<Called<'_>>
    ensures { Gives (λ found. (found.0, words_behind found.1.now)) result (poll_at (words_behind rest.now)) }
{
    let (end, rest) = take_end(rest)?;
    Some(((end, Call::Poll), rest))
}

#[tactic(auto, unfolding(crate::specs::Reading::set_tag_at))]
fn take_set_tag(rest: &[u8]) -> Option<Called<'_>>
    ensures { Gives (λ found. (found.0, words_behind found.1.now)) result (set_tag_at (words_behind rest.now)) }
{
    let (end, rest) = take_end(rest)?;
    let (tag, rest) = take_tag(rest)?;
    Some(((end, Call::SetTag(tag)), rest))
}

#[tactic(auto, unfolding(crate::specs::Reading::map_at))]
fn take_map(rest: &[u8]) -> Option<Called<'_>>
    ensures { Gives (λ found. (found.0, words_behind found.1.now)) result (map_at (words_behind rest.now)) }
{
    let (end, rest) = take_end(rest)?;
    let (index, rest) = take_byte(rest)?;
    let (name, rest) = take_end(rest)?;
    let (tag, rest) = take_tag(rest)?;
    let (credits, rest) = take_byte(rest)?;
    let call = Call::Map {
        index,
        name,
        tag,
        credits,
    };
    Some(((end, call), rest))
}

#[tactic(auto, unfolding(crate::specs::Reading::unmap_at))]
fn take_unmap(rest: &[u8]) -> Option<Called<'_>>
    ensures { Gives (λ found. (found.0, words_behind found.1.now)) result (unmap_at (words_behind rest.now)) }
{
    let (end, rest) = take_end(rest)?;
    let (index, rest) = take_byte(rest)?;
    Some(((end, Call::Unmap(index)), rest))
}

#[tactic(auto, unfolding(crate::specs::Reading::echo_at))]
fn take_echo(rest: &[u8]) -> Option<(HandlerKind, &[u8])>
    ensures { Gives (λ found. (found.0, words_behind found.1.now)) result (echo_at (words_behind rest.now)) }
{
    let (reply, rest) = take_byte(rest)?;
    Some((HandlerKind::Echo(reply), rest))
}

#[tactic(auto, unfolding(crate::specs::Reading::add_at))]
fn take_add(rest: &[u8]) -> Option<(HandlerKind, &[u8])>
    ensures { Gives (λ found. (found.0, words_behind found.1.now)) result (add_at (words_behind rest.now)) }
{
    let (reply, rest) = take_byte(rest)?;
    Some((HandlerKind::Add(reply), rest))
}

#[tactic(auto, unfolding(crate::specs::Reading::kind_at, crate::specs::Reading::word_at))]
fn take_kind(rest: &[u8]) -> Option<(HandlerKind, &[u8])>
    ensures { Gives (λ found. (found.0, words_behind found.1.now)) result (kind_at (words_behind rest.now)) }
{
    let (word, rest) = take_word(rest)?;
    if is_word(word, b"note".as_slice()) {
        Some((HandlerKind::Note, rest))
    } else if is_word(word, b"echo".as_slice()) {
        take_echo(rest)
    } else if is_word(word, b"add".as_slice()) {
        take_add(rest)
    } else {
        None
    }
}

#[tactic(auto, unfolding(crate::specs::Reading::set_handler_at))]
fn take_set_handler(rest: &[u8]) -> Option<Called<'_>>
    ensures { Gives (λ found. (found.0, words_behind found.1.now)) result (set_handler_at (words_behind rest.now)) }
{
    let (end, rest) = take_end(rest)?;
    let (index, rest) = take_byte(rest)?;
    let (kind, rest) = take_kind(rest)?;
    Some(((end, Call::SetHandler { index, kind }), rest))
}

#[tactic(auto, unfolding(crate::specs::Reading::give_up_at))]
fn take_give_up(rest: &[u8]) -> Option<Called<'_>>
    ensures { Gives (λ found. (found.0, words_behind found.1.now)) result (give_up_at (words_behind rest.now)) }
{
    let (end, rest) = take_end(rest)?;
    let (serial, rest) = take_serial(rest)?;
    Some(((end, Call::GiveUp(serial)), rest))
}

#[tactic(auto, unfolding(crate::specs::Reading::close_at))]
fn take_close(rest: &[u8]) -> Option<Called<'_>>
    ensures { Gives (λ found. (found.0, words_behind found.1.now)) result (close_at (words_behind rest.now)) }
{
    let (end, rest) = take_end(rest)?;
    Some(((end, Call::Close), rest))
}

#[tactic(auto, unfolding(crate::specs::Reading::mask_at, crate::specs::Reading::word_at))]
fn take_mask(rest: &[u8]) -> Option<(Mask, &[u8])>
    ensures { Gives (λ found. (found.0, words_behind found.1.now)) result (mask_at (words_behind rest.now)) }
{
    let (word, rest) = take_word(rest)?;
    if is_word(word, b"noevents".as_slice()) {
        Some((Mask::NoEvents, rest))
    } else if is_word(word, b"notempty".as_slice()) {
        Some((Mask::NotEmpty, rest))
    } else {
        None
    }
}

#[tactic(auto, unfolding(crate::specs::Reading::test_at))]
fn take_test(rest: &[u8]) -> Option<Called<'_>>
    ensures { Gives (λ found. (found.0, words_behind found.1.now)) result (test_at (words_behind rest.now)) }
{
    let (end, rest) = take_end(rest)?;
    let (mask, rest) = take_mask(rest)?;
    Some(((end, Call::Test(mask)), rest))
}

/// A call by its verb and the words behind it, and its endpoint.
#[tactic(auto, unfolding(crate::specs::Reading::call_at))]
pub fn take_call<'a>(verb: &[u8], rest: &'a [u8]) -> Option<Called<'a>>
    ensures { Gives (λ found. (found.0, words_behind found.1.now)) result (call_at verb.now (words_behind rest.now)) }
{
    if is_word(verb, b"request".as_slice()) {
        take_request(rest)
    } else if is_word(verb, b"poll".as_slice()) {
        take_poll(rest)
    } else if is_word(verb, b"tag".as_slice()) {
        take_set_tag(rest)
    } else if is_word(verb, b"map".as_slice()) {
        take_map(rest)
    } else if is_word(verb, b"unmap".as_slice()) {
        take_unmap(rest)
    } else if is_word(verb, b"handler".as_slice()) {
        take_set_handler(rest)
    } else if is_word(verb, b"giveup".as_slice()) {
        take_give_up(rest)
    } else if is_word(verb, b"close".as_slice()) {
        take_close(rest)
    } else if is_word(verb, b"event".as_slice()) {
        take_test(rest)
    } else {
        None
    }
}
