//! The line of a bundle.

ghost use Rattle.std.specs.Prelude.{◌≡◌, ◌==◌};
ghost use Rattle.std.specs.List.{list_any};
ghost use Rattle.std.specs.Option.{is_some};
ghost use Rattle.am_lexer.specs.Text.{words_of};
ghost use Rattle.am_lexer.specs.Fields.{Gives};
ghost use Rattle.am_scenario.specs.Drafts.Said.{bundle_of};
ghost use Rattle.am_scenario.specs.Drafts.Drafts.{said};
ghost use Rattle.am_scenario.specs.Lines.Declarations.{mask_at, members, has_twice, bundle_line};
ghost use Rattle.am_scenario.specs.Lines.Answers.{Yields, YieldsBehind};

use crate::drafts::{Draft, Line, LineFault};
use crate::lines::keyword::is_word;
use crate::lines::places::end_word;
use am_lexer::{What, next_word, take_byte, take_word};
use am_names::{EndpointId, NodeId};
use am_office_entries::Mask;
use am_scenario_types::Bundle;
use std::alloc::Global;

/// An event mask, and what comes behind it.
#[tactic(auto, unfolding(crate::specs::Lines::Declarations::mask_at))]
pub fn take_mask(rest: &[u8]) -> Result<(Mask, &[u8]), What>
    ensures { Gives (λ found. (found.0, words_of found.1.now)) result (mask_at (words_of rest.now)) }
{
    let (word, rest) = take_word(rest)?;
    if is_word(word, b"noevents".as_slice()) {
        Ok((Mask::NoEvents, rest))
    } else if is_word(word, b"notempty".as_slice()) {
        Ok((Mask::NotEmpty, rest))
    } else {
        Err(What::UnknownWord)
    }
}

// The endpoints that the words name, behind a first one.
fn take_members(
    alloc: Global,
    draft: &Draft,
    node: NodeId,
    first: EndpointId,
    rest: &[u8],
) -> Result<Vec<EndpointId>, LineFault>
    ensures { YieldsBehind first result (members (said draft.now) node (words_of rest.now)) }
{
    let mut ids = Vec::new(alloc);
    ids.push(first)?;
    let mut rest = rest;
    while let Some((word, after)) = next_word(rest) {
        match end_word(draft, Some(node), word) {
            Ok(end) => ids.push(end.id)?,
            Err(what) => return Err(LineFault::What(what)),
        }
        rest = after;
    }
    Ok(ids)
}

fn is_among(id: EndpointId, others: &[EndpointId]) -> bool
    ensures { result ≡ list_any (λ other. other.0 == id.0) others.now }
{
    others.iter().any(|other| other.0 == id.0)
}

#[tactic(auto, using(crate::proofs::Members::one_twice))]
fn has_twice(ids: &[EndpointId]) -> bool
    ensures { result ≡ has_twice ids.now }
{
    let mut rest = ids;
    while let Some((first, others)) = rest.split_first() {
        if is_among(*first, others) {
            return true;
        }
        rest = others;
    }
    false
}

fn has_bundle(draft: &Draft, id: u8) -> bool
    ensures { result ≡ is_some (bundle_of (said draft.now) id) }
{
    draft.bundle_of(u64::from(id)).is_some()
}

/// The line of a bundle, behind its first word, or its first fault. `NoMemory` comes only for want of memory.
#[tactic(auto, unfolding(crate::specs::Lines::Declarations::bundle_line))]
pub fn bundle_line(alloc: Global, draft: &Draft, rest: &[u8]) -> Result<Line, LineFault>
    ensures { Yields (λ line. line) result (bundle_line (said draft.now) (words_of rest.now)) }
{
    let (id, rest) = take_byte(0, 63, rest)?;
    let (mask, rest) = take_mask(rest)?;
    let (word, rest) = take_word(rest)?;
    let first = end_word(draft, None, word)?;
    let members = take_members(alloc, draft, first.node, first.id, rest)?;
    if has_bundle(draft, id) || has_twice(&members) {
        return Err(LineFault::What(What::Twice));
    }
    Ok(Line::Bundle(Bundle { id, mask, members }))
}
