//! What an entry touches: the endpoints, and the pair of nodes whose channels and links it may change.

ghost use Rattle.am_office_entries.specs.Entries as does;
ghost use Rattle.am_cluster_scripted.specs.Touched.{both, listed, pair_touched, touched_by_receipt};
ghost use Rattle.std.specs.Prelude.{◌≡◌};

use am_cluster_drainer::NodePair;
use am_names::EndpointId;
use am_office_entries::{Entry, Event, Outcome, Received};

/// The endpoints that an entry touches, two at the most.
pub(crate) struct Touched {
    pub(crate) first: Option<EndpointId>,
    pub(crate) second: Option<EndpointId>,
}

/// The endpoint that a carry reaches.
fn reached_by(outcome: &Outcome) -> Option<EndpointId>
    ensures { listed result ≡ does.reached_by outcome.now }
{
    match outcome {
        Outcome::Accepted(message) => Some(message.dest),
        Outcome::Requeued { message, .. } | Outcome::Returned { message, .. } => Some(message.dest),
        _ => None,
    }
}

/// The endpoint that a receipt touches.
fn touched_by_result(received: &Received) -> Option<EndpointId>
    ensures { listed result ≡ does.touched_by_result received.now }
{
    match received {
        Received::Accepted { message, .. } | Received::Refused { message, .. } => {
            Some(message.dest)
        }
        Received::Delivered(serial)
        | Received::Requeued { serial, .. }
        | Received::Returned { serial, .. } => Some(serial.source),
        Received::Again { .. } | Received::Stale | Received::Nothing => None,
    }
}

/// The endpoint that a time-out touches.
fn touched_by_expiry(outcome: &Outcome) -> Option<EndpointId>
    ensures { listed result ≡ does.touched_by_expiry outcome.now }
{
    match outcome {
        Outcome::Delivered(serial) | Outcome::Unknown(serial) => Some(serial.source),
        _ => None,
    }
}

/// The endpoint that the outcome of a receipt touches.
fn touched_by_receipt(outcome: &Outcome) -> Option<EndpointId>
    ensures { listed result ≡ touched_by_receipt outcome.now }
{
    match outcome {
        Outcome::Received { result, .. } => touched_by_result(result),
        _ => None,
    }
}

/// The endpoints that an entry touches.
pub(crate) fn ends_touched(entry: &Entry) -> Touched
    ensures { both result.first result.second ≡ does.ends_touched entry.now.event entry.now.outcome }
{
    let (first, second) = match entry.event {
        Event::Expire { .. } => (touched_by_expiry(&entry.outcome), None),
        Event::Receive { .. } => (touched_by_receipt(&entry.outcome), None),
        Event::Carry { end } => (Some(end), reached_by(&entry.outcome)),
        Event::Call { end, .. }
        | Event::Want { end, .. }
        | Event::Bind { end, .. }
        | Event::Drain { end, .. }
        | Event::Unload { end, .. }
        | Event::Load { end, .. }
        | Event::PageOut { end, .. }
        | Event::PageIn { end, .. } => (Some(end), None),
    };
    Touched { first, second }
}

/// The node and the peer of a bind that was sent, of a time-out or of a receipt: what is bound from the one to the other, and
/// due between them, is as it was wherever else.
pub(crate) fn pair_touched(entry: &Entry) -> Option<NodePair>
    ensures { result ≡ pair_touched entry.now.event entry.now.outcome }
{
    match entry.event {
        Event::Expire { node, peer, .. } | Event::Receive { node, peer, .. } => {
            Some(NodePair { node, peer })
        }
        Event::Bind { node, .. } => match entry.outcome {
            Outcome::Sent { peer, .. } => Some(NodePair { node, peer }),
            _ => None,
        },
        _ => None,
    }
}
