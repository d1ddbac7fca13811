//! Where an entry stands in a journal.

ghost use Rattle.am_model.specs.Merge as order;
ghost use Rattle.am_office_entries.specs.Entries.{ends_touched, touched_by_result};
ghost use Rattle.std.specs.Prelude.{◌≡◌, slice_get};

use am_names::{EndpointId, NodeId};
use am_office_entries::{Entry, Event, Outcome, Received, node_touched};

/// The endpoint that a receipt touches.
fn end_of_result(received: Received) -> Option<EndpointId>
    ensures { result ≡ slice_get (touched_by_result received) 0 }
{
    match received {
        Received::Accepted { message, .. } | Received::Refused { message, .. } => Some(
            message.dest,
        ),
        Received::Delivered(serial) => Some(serial.source),
        Received::Requeued { serial, .. } | Received::Returned { serial, .. } => Some(
            serial.source,
        ),
        Received::Again { .. } | Received::Stale | Received::Nothing => None,
    }
}

/// The endpoint that an entry is listed under, if it touches one: of a carry the source.
fn first_end(entry: &Entry) -> Option<EndpointId>
    ensures { result ≡ slice_get (ends_touched entry.now.event entry.now.outcome) 0 }
{
    match entry.event {
        Event::Call { end, .. } | Event::Want { end, .. } | Event::Carry { end } => Some(end),
        Event::Bind { end, .. } | Event::Drain { end, .. } | Event::Unload { end, .. } => Some(end),
        Event::Load { end, .. } | Event::PageOut { end, .. } | Event::PageIn { end, .. } => Some(
            end,
        ),
        Event::Expire { .. } => match entry.outcome {
            Outcome::Delivered(serial) | Outcome::Unknown(serial) => Some(serial.source),
            _ => None,
        },
        Event::Receive { .. } => match entry.outcome {
            Outcome::Received {
                result: received,
                ..
            } => end_of_result(received),
            _ => None,
        },
    }
}

/// The number of the part that an entry is listed under: endpoints come before interfaces, each by number.
pub(crate) fn rank(entry: &Entry) -> u16
    ensures { result ≡ order.rank entry.now }
{
    match first_end(entry) {
        Some(end) => u16::from(end.0),
        None => node_rank(node_touched(entry)),
    }
}

/// The number of an interface as a part, if the entry touches one.
fn node_rank(touched: Option<NodeId>) -> u16
    ensures { result ≡ order.rank_of_node touched }
{
    match touched {
        Some(node) => 256 + u16::from(node.0),
        None => 0,
    }
}
