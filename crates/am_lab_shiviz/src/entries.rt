//! A journal's entries as happenings.

ghost use Rattle.am_lab_shiviz.specs.Happenings as specs;
ghost use Rattle.am_lab_shiviz.specs.Happenings.{happenings_of, home, host, reached_end};
ghost use Rattle.std.specs.Prelude.{◌≡◌, IfOk};
ghost use Rattle.std.specs.Option.{option_map};

use crate::knowledge::Happening;
use am_lab_picture::IndexedJournal;
use am_names::{EndpointId, NodeId, Way};
use am_office_entries::{Entry, Event, Outcome};
use am_scenario_types::EndLine;
use std::alloc::{AllocError, Global};

// The node of an endpoint.
fn home(ends: &[EndLine], end: EndpointId) -> NodeId
    ensures { result ≡ home ends.now end }
{
    match ends.iter().find(|line| line.id.0 == end.0) {
        Some(line) => line.node,
        None => NodeId(0),
    }
}

/// The node where an event happens: that whose interface or driver acts, and else that of its endpoint.
pub(crate) fn host(ends: &[EndLine], event: Event) -> NodeId
    ensures { result ≡ host ends.now event }
{
    match event {
        Event::Call { end, .. } | Event::Want { end, .. } | Event::Carry { end } => home(ends, end),
        Event::Bind { node, .. }
        | Event::Expire { node, .. }
        | Event::Receive { node, .. }
        | Event::Drain { node, .. }
        | Event::Unload { node, .. }
        | Event::Load { node, .. }
        | Event::PageOut { node, .. }
        | Event::PageIn { node, .. } => node,
    }
}

// The endpoint that a carry reaches.
fn reached_end(entry: &Entry) -> Option<EndpointId>
    ensures { result ≡ reached_end entry.now.event entry.now.outcome }
{
    match (entry.event, entry.outcome) {
        (Event::Carry { .. }, Outcome::Accepted(message)) => Some(message.dest),
        (Event::Carry { .. }, Outcome::Requeued { message, .. }) => Some(message.dest),
        (Event::Carry { .. }, Outcome::Returned { message, .. }) => Some(message.dest),
        _ => None,
    }
}

// The node that an entry reaches at once, if it reaches one.
fn reached(ends: &[EndLine], entry: &Entry) -> Option<NodeId>
    ensures { result ≡ option_map (home ends.now) (reached_end entry.now.event entry.now.outcome) }
{
    match reached_end(entry) {
        Some(end) => Some(home(ends, end)),
        None => None,
    }
}

// The place of the entry that emitted the packet which an event receives.
fn emission(journal: &IndexedJournal, event: Event) -> Option<usize>
    ensures { result ≡ specs.emission journal.now event }
{
    match event {
        Event::Receive { node, peer, number } => journal.emitter(Way {
            from: peer,
            to: node,
            number,
        }),
        _ => None,
    }
}

fn happening(ends: &[EndLine], journal: &IndexedJournal, entry: &Entry) -> Happening
    ensures { result ≡ specs.happening ends.now journal.now entry.now }
{
    Happening {
        node: host(ends, entry.event),
        reached: reached(ends, entry),
        hears: emission(journal, entry.event),
    }
}

/// The entries of a journal as happenings, in order (`happenings_of` of specs/Happenings). An endpoint is on the node of its line.
/// `AllocError` comes where there is no memory for them.
#[tactic(auto, using(std::proofs::lemmas::List::map_more))]
pub fn happenings(
    alloc: Global,
    ends: &[EndLine],
    journal: &IndexedJournal,
) -> Result<Vec<Happening>, AllocError>
    ensures { IfOk result (λ made. made.items ≡ happenings_of ends.now journal.now) }
{
    let entries = journal.entries();
    let mut made = Vec::new(alloc);
    for entry in entries {
        made.push(happening(ends, journal, entry))?;
    }
    Ok(made)
}
