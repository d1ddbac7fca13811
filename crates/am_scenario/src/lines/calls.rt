//! A call in a line of section 4.

ghost use Rattle.std.specs.Prelude.{◌≡◌, Option, codes, false};
ghost use Rattle.std.specs.Str.{bytes_eq};
ghost use Rattle.am_lexer.specs.Text.{words_of};
ghost use Rattle.am_lexer.specs.Fields.{Gives};
ghost use Rattle.am_scenario.specs.Drafts.Drafts.{said};
ghost use Rattle.am_scenario.specs.Lines.Calls.{least_share, four_at, request_at, poll_at, set_tag_at, map_at, unmap_at, kind_at, set_handler_at, give_up_at, close_at, test_at, call_at};

use crate::drafts::{Draft, Version};
use crate::lines::bundle::take_mask;
use crate::lines::keyword::is_word;
use crate::lines::places::{take_end_of, take_serial, take_tag};
use am_lexer::{What, take_byte, take_number, take_word};
use am_names::{EndpointId, NodeId, Words};
use am_office_entries::{Call, HandlerKind};

type Called<'a> = ((EndpointId, Call), &'a [u8]);

// The four words of a request.
#[inline(always)]
#[tactic(auto, unfolding(crate::specs::Lines::Calls::four_at))]
fn take_four(rest: &[u8]) -> Result<(Words, &[u8]), What>
    ensures { Gives (λ found. (found.0, words_of found.1.now)) result (four_at (words_of rest.now)) }
{
    let (a, rest) = take_number(rest)?;
    let (b, rest) = take_number(rest)?;
    let (c, rest) = take_number(rest)?;
    let (d, rest) = take_number(rest)?;
    Ok((Words { a, b, c, d }, rest))
}

#[tactic(auto, using(crate::proofs::Requests::by_four))]
fn take_request<'a>(
    draft: &Draft,
    wanted: Option<NodeId>,
    rest: &'a [u8],
) -> Result<Called<'a>, What>
    ensures { Gives (λ found. (found.0, words_of found.1.now)) result (request_at (said draft.now) wanted (words_of rest.now)) }
{
    let (end, rest) = take_end_of(draft, wanted, rest)?;
    let (index, rest) = take_byte(0, 255, rest)?;
    let (handler, rest) = take_byte(0, 255, rest)?;
    let (words, rest) = take_four(rest)?;
    let call = Call::Request {
        index,
        handler,
        words,
    };
    Ok(((end, call), rest))
}

#[tactic(auto, unfolding(crate::specs::Lines::Calls::poll_at))]
fn take_poll<'a>(draft: &Draft, wanted: Option<NodeId>, rest: &'a [u8]) -> Result<Called<'a>, What>
    ensures { Gives (λ found. (found.0, words_of found.1.now)) result (poll_at (said draft.now) wanted (words_of rest.now)) }
{
    let (end, rest) = take_end_of(draft, wanted, rest)?;
    Ok(((end, Call::Poll), rest))
}

#[tactic(auto, unfolding(crate::specs::Lines::Calls::set_tag_at))]
fn take_set_tag<'a>(
    draft: &Draft,
    wanted: Option<NodeId>,
    rest: &'a [u8],
) -> Result<Called<'a>, What>
    ensures { Gives (λ found. (found.0, words_of found.1.now)) result (set_tag_at (said draft.now) wanted (words_of rest.now)) }
{
    let (end, rest) = take_end_of(draft, wanted, rest)?;
    let (tag, rest) = take_tag(rest)?;
    Ok(((end, Call::SetTag(tag)), rest))
}

fn least_share(version: Option<Version>) -> u8
    ensures { result ≡ least_share version }
{
    match version {
        Some(Version::Two) => 0,
        _ => 1,
    }
}

#[tactic(auto, unfolding(crate::specs::Lines::Calls::map_at))]
fn take_map<'a>(draft: &Draft, wanted: Option<NodeId>, rest: &'a [u8]) -> Result<Called<'a>, What>
    ensures { Gives (λ found. (found.0, words_of found.1.now)) result (map_at (said draft.now) wanted (words_of rest.now)) }
{
    let (end, rest) = take_end_of(draft, wanted, rest)?;
    let (index, rest) = take_byte(0, 255, rest)?;
    let (name, rest) = take_end_of(draft, None, rest)?;
    let (tag, rest) = take_tag(rest)?;
    let (credits, rest) = take_byte(least_share(draft.version), 8, rest)?;
    let call = Call::Map {
        index,
        name,
        tag,
        credits,
    };
    Ok(((end, call), rest))
}

#[tactic(auto, unfolding(crate::specs::Lines::Calls::unmap_at))]
fn take_unmap<'a>(draft: &Draft, wanted: Option<NodeId>, rest: &'a [u8]) -> Result<Called<'a>, What>
    ensures { Gives (λ found. (found.0, words_of found.1.now)) result (unmap_at (said draft.now) wanted (words_of rest.now)) }
{
    let (end, rest) = take_end_of(draft, wanted, rest)?;
    let (index, rest) = take_byte(0, 255, rest)?;
    Ok(((end, Call::Unmap(index)), rest))
}

#[tactic(auto, unfolding(crate::specs::Lines::Calls::kind_at))]
fn take_kind(rest: &[u8]) -> Result<(HandlerKind, &[u8]), What>
    ensures { Gives (λ found. (found.0, words_of found.1.now)) result (kind_at (words_of rest.now)) }
{
    let (word, rest) = take_word(rest)?;
    if is_word(word, b"note".as_slice()) {
        Ok((HandlerKind::Note, rest))
    } else if is_word(word, b"echo".as_slice()) {
        let (handler, rest) = take_byte(1, 15, rest)?;
        Ok((HandlerKind::Echo(handler), rest))
    } else if is_word(word, b"add".as_slice()) {
        let (handler, rest) = take_byte(1, 15, rest)?;
        Ok((HandlerKind::Add(handler), rest))
    } else {
        Err(What::UnknownWord)
    }
}

#[tactic(auto, unfolding(crate::specs::Lines::Calls::set_handler_at))]
fn take_set_handler<'a>(
    draft: &Draft,
    wanted: Option<NodeId>,
    rest: &'a [u8],
) -> Result<Called<'a>, What>
    ensures { Gives (λ found. (found.0, words_of found.1.now)) result (set_handler_at (said draft.now) wanted (words_of rest.now)) }
{
    let (end, rest) = take_end_of(draft, wanted, rest)?;
    let (index, rest) = take_byte(0, 255, rest)?;
    let (kind, rest) = take_kind(rest)?;
    Ok(((end, Call::SetHandler { index, kind }), rest))
}

#[tactic(auto, unfolding(crate::specs::Lines::Calls::give_up_at))]
fn take_give_up<'a>(
    draft: &Draft,
    wanted: Option<NodeId>,
    rest: &'a [u8],
) -> Result<Called<'a>, What>
    ensures { Gives (λ found. (found.0, words_of found.1.now)) result (give_up_at (said draft.now) wanted (words_of rest.now)) }
{
    let (end, rest) = take_end_of(draft, wanted, rest)?;
    let (serial, rest) = take_serial(rest)?;
    Ok(((end, Call::GiveUp(serial)), rest))
}

#[tactic(auto, unfolding(crate::specs::Lines::Calls::close_at))]
fn take_close<'a>(draft: &Draft, wanted: Option<NodeId>, rest: &'a [u8]) -> Result<Called<'a>, What>
    ensures { Gives (λ found. (found.0, words_of found.1.now)) result (close_at (said draft.now) wanted (words_of rest.now)) }
{
    let (end, rest) = take_end_of(draft, wanted, rest)?;
    Ok(((end, Call::Close), rest))
}

#[tactic(auto, unfolding(crate::specs::Lines::Calls::test_at))]
fn take_test<'a>(draft: &Draft, wanted: Option<NodeId>, rest: &'a [u8]) -> Result<Called<'a>, What>
    ensures { Gives (λ found. (found.0, words_of found.1.now)) result (test_at (said draft.now) wanted (words_of rest.now)) }
{
    let (end, rest) = take_end_of(draft, wanted, rest)?;
    let (mask, rest) = take_mask(rest)?;
    Ok(((end, Call::Test(mask)), rest))
}

// A call that is made seldom.
#[inline(never)]
#[tactic(auto, unfolding(crate::specs::Lines::Calls::call_at))]
fn take_seldom_call<'a>(
    draft: &Draft,
    wanted: Option<NodeId>,
    verb: &[u8],
    rest: &'a [u8],
) -> Result<Called<'a>, What>
    requires no_request { bytes_eq verb.now (codes "request") ≡ false }
    requires no_poll { bytes_eq verb.now (codes "poll") ≡ false }
    ensures { Gives (λ found. (found.0, words_of found.1.now)) result (call_at (said draft.now) wanted verb.now (words_of rest.now)) }
{
    if is_word(verb, b"tag".as_slice()) {
        take_set_tag(draft, wanted, rest)
    } else if is_word(verb, b"map".as_slice()) {
        take_map(draft, wanted, rest)
    } else if is_word(verb, b"unmap".as_slice()) {
        take_unmap(draft, wanted, rest)
    } else if is_word(verb, b"handler".as_slice()) {
        take_set_handler(draft, wanted, rest)
    } else if is_word(verb, b"giveup".as_slice()) {
        take_give_up(draft, wanted, rest)
    } else if is_word(verb, b"close".as_slice()) {
        take_close(draft, wanted, rest)
    } else if is_word(verb, b"event".as_slice()) {
        take_test(draft, wanted, rest)
    } else {
        Err(What::UnknownWord)
    }
}

/// A call by its verb and the words behind it, on a declared endpoint of the node that is wanted, if one is.
#[tactic(auto, unfolding(crate::specs::Lines::Calls::call_at))]
pub fn take_call<'a>(
    draft: &Draft,
    wanted: Option<NodeId>,
    verb: &[u8],
    rest: &'a [u8],
) -> Result<Called<'a>, What>
    ensures { Gives (λ found. (found.0, words_of found.1.now)) result (call_at (said draft.now) wanted verb.now (words_of rest.now)) }
{
    if is_word(verb, b"request".as_slice()) {
        take_request(draft, wanted, rest)
    } else if is_word(verb, b"poll".as_slice()) {
        take_poll(draft, wanted, rest)
    } else {
        take_seldom_call(draft, wanted, verb, rest)
    }
}
