//! Places in a line: a number below a limit, a node, an endpoint, a bundle, a tag, a serial.

ghost use Rattle.std.specs.Prelude.{◌≡◌, Option};
ghost use Rattle.am_lexer.specs.Text.{words_of};
ghost use Rattle.am_lexer.specs.Fields.{Gives};
ghost use Rattle.am_scenario.specs.Drafts.Drafts.{said};
ghost use Rattle.am_scenario.specs.Lines.Places.{below, node_at, declared_end, end_word, end_at, bundle_at, tag_at, serial_of, serial_at, is_on, are_on};

use crate::drafts::{Draft, Settings};
use crate::lines::keyword::is_word;
use am_lexer::{What, first_dot, parse_number, take_number, take_word};
use am_names::{EndpointId, NodeId, Serial, Tag};
use am_scenario_types::{Bundle, EndLine};

/// A number below a limit, and what comes behind it.
#[inline(always)]
#[tactic(auto, unfolding(crate::specs::Lines::Places::below))]
pub fn take_below(limit: u8, rest: &[u8]) -> Result<(u8, &[u8]), What>
    ensures { Gives (λ found. (found.0, words_of found.1.now)) result (below limit (words_of rest.now)) }
{
    let (number, rest) = take_number(rest)?;
    if number < u64::from(limit) {
        Ok((number as u8, rest))
    } else {
        Err(What::OutOfRange)
    }
}

/// A node of the cluster, and what comes behind it.
#[tactic(auto, unfolding(crate::specs::Lines::Places::node_at))]
pub fn take_node<'a>(settings: &Settings, rest: &'a [u8]) -> Result<(NodeId, &'a [u8]), What>
    ensures { Gives (λ found. (found.0, words_of found.1.now)) result (node_at settings.now (words_of rest.now)) }
{
    let (number, rest) = take_below(settings.node_count(), rest)?;
    Ok((NodeId(number), rest))
}

// The endpoint that was declared by a number, of the node that is wanted, if one is.
#[inline(always)]
#[tactic(auto, unfolding(crate::specs::Lines::Places::declared_end))]
fn declared_end(draft: &Draft, wanted: Option<NodeId>, id: u64) -> Result<EndLine, What>
    ensures { Gives (λ end. end) result (declared_end (said draft.now) wanted id) }
{
    let Some(end) = draft.end_of(id) else {
        return Err(What::Undeclared);
    };
    match wanted {
        Some(node) if end.node.0 != node.0 => Err(What::OutOfRange),
        _ => Ok(end),
    }
}

/// The declared endpoint that a word names, of the node that is wanted, if one is.
#[tactic(auto, unfolding(crate::specs::Lines::Places::end_word, crate::specs::Lines::Places::declared_end))]
pub fn end_word(draft: &Draft, wanted: Option<NodeId>, word: &[u8]) -> Result<EndLine, What>
    ensures { Gives (λ end. end) result (end_word (said draft.now) wanted word.now) }
{
    let Some(id) = parse_number(word) else {
        return Err(What::BadNumber);
    };
    declared_end(draft, wanted, id)
}

/// A declared endpoint, at the node that is wanted if one is, and what comes behind it.
#[inline(always)]
#[tactic(auto, using(crate::proofs::Ends::by_number))]
pub fn take_end_of<'a>(
    draft: &Draft,
    wanted: Option<NodeId>,
    rest: &'a [u8],
) -> Result<(EndpointId, &'a [u8]), What>
    ensures { Gives (λ found. (found.0, words_of found.1.now)) result (end_at (said draft.now) wanted (words_of rest.now)) }
{
    let (id, rest) = take_number(rest)?;
    let end = declared_end(draft, wanted, id)?;
    Ok((end.id, rest))
}

fn is_on(draft: &Draft, node: NodeId, member: EndpointId) -> bool
    ensures { result ≡ is_on (said draft.now) node member }
{
    match draft.end_of(u64::from(member.0)) {
        Some(end) => end.node.0 == node.0,
        None => false,
    }
}

fn are_on(draft: &Draft, node: NodeId, members: &[EndpointId]) -> bool
    ensures { result ≡ are_on (said draft.now) node members.now }
{
    members.iter().all(|member| is_on(draft, node, *member))
}

/// The declared bundle that a word names, of a node.
#[tactic(auto, unfolding(crate::specs::Lines::Places::bundle_at))]
pub fn take_bundle<'a, 'b>(
    draft: &'a Draft,
    node: NodeId,
    rest: &'b [u8],
) -> Result<(&'a Bundle, &'b [u8]), What>
    ensures { Gives (λ found. (found.0.now, words_of found.1.now)) result (bundle_at (said draft.now) node (words_of rest.now)) }
{
    let (number, rest) = take_number(rest)?;
    let Some(bundle) = draft.bundle_of(number) else {
        return Err(What::Undeclared);
    };
    if are_on(draft, node, &bundle.members) {
        Ok((bundle, rest))
    } else {
        Err(What::OutOfRange)
    }
}

/// A tag, and what comes behind it.
#[tactic(auto, unfolding(crate::specs::Lines::Places::tag_at))]
pub fn take_tag(rest: &[u8]) -> Result<(Tag, &[u8]), What>
    ensures { Gives (λ found. (found.0, words_of found.1.now)) result (tag_at (words_of rest.now)) }
{
    let (word, rest) = take_word(rest)?;
    if is_word(word, b"none".as_slice()) {
        Ok((Tag(0), rest))
    } else if is_word(word, b"all".as_slice()) {
        Ok((Tag(u64::MAX), rest))
    } else {
        match parse_number(word) {
            Some(number) => Ok((Tag(number), rest)),
            None => Err(What::BadNumber),
        }
    }
}

#[tactic(auto, unfolding(crate::specs::Lines::Places::serial_of))]
fn serial_of(word: &[u8]) -> Option<Serial>
    ensures { result ≡ serial_of word.now }
{
    let dot = first_dot(word)?;
    let source = parse_number(&word[..dot])?;
    let count = parse_number(&word[dot + 1..])?;
    if source <= 255 && count <= 0xffff_ffff {
        Some(Serial {
            source: EndpointId(source as u8),
            count: count as u32,
        })
    } else {
        None
    }
}

/// A serial, and what comes behind it.
#[tactic(auto, unfolding(crate::specs::Lines::Places::serial_at))]
pub fn take_serial(rest: &[u8]) -> Result<(Serial, &[u8]), What>
    ensures { Gives (λ found. (found.0, words_of found.1.now)) result (serial_at (words_of rest.now)) }
{
    let (word, rest) = take_word(rest)?;
    match serial_of(word) {
        Some(serial) => Ok((serial, rest)),
        None => Err(What::BadNumber),
    }
}
