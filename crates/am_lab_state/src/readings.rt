//! What a node's log says of a channel: how often it was bound, and the last verdict of its receiving end.

ghost use Rattle.am_model.specs.Channels.{binds, decides, decides_by, last_such, same_channel, sequence, verdict_by};
ghost use Rattle.am_model.specs.History.{channel_to};
ghost use Rattle.am_office_entries.specs.declared.Entry.{Entry as Made};
ghost use Rattle.std.specs.Option.{option_copied};
ghost use Rattle.std.specs.Prelude.{◌≡◌, ◌≤◌, length};

use am_names::{Cause, NodeId, Verdict};
use am_office_entries::{Entry, Event, Outcome, Received};

// Whether both are the same channel of the same node.
fn is_same(node: NodeId, peer: NodeId, number: u8, other: NodeId, to: NodeId, channel: u8) -> bool
    ensures { result ≡ same_channel (channel_to node peer number) other to channel }
{
    node.0 == other.0 && peer.0 == to.0 && number == channel
}

// Whether a message is bound to the channel here.
fn binds(entry: &Entry, node: NodeId, peer: NodeId, number: u8) -> bool
    ensures { result ≡ binds (channel_to node peer number) entry.now.event entry.now.outcome }
{
    match (entry.event, entry.outcome) {
        (
            Event::Bind { node: other, .. },
            Outcome::Sent {
                peer: to,
                channel,
                ..
            },
        ) => is_same(node, peer, number, other, to, channel),
        _ => false,
    }
}

// Whether a verdict on a packet is given here.
fn is_verdict(received: &Received) -> bool
    ensures { result ≡ decides_by received.now }
{
    matches!(
        received,
        Received::Accepted { .. } | Received::Refused { .. }
    )
}

// Whether a verdict on a packet of the channel from the peer is given here.
fn decides(entry: &Entry, node: NodeId, peer: NodeId, number: u8) -> bool
    ensures { result ≡ decides (channel_to node peer number) entry.now.event entry.now.outcome }
{
    match (entry.event, entry.outcome) {
        (
            Event::Receive {
                node: other,
                peer: from,
                ..
            },
            Outcome::Received {
                channel,
                result,
                ..
            },
        ) => is_verdict(&result) && is_same(node, peer, number, other, from, channel),
        _ => false,
    }
}

/// How often the channel was bound in a log.
pub(crate) fn sequence(log: &[Entry], node: NodeId, peer: NodeId, number: u8) -> u64
    requires { length log.now ≤ 65536 }
    ensures { result ≡ sequence (channel_to node peer number) log.now }
{
    let mut count = 0;
    for entry in log {
        if binds(entry, node, peer, number) {
            count += 1;
        }
    }
    count
}

/// The last entry of a log that gives a verdict on a packet of the channel.
pub(crate) fn last_decision(log: &[Entry], node: NodeId, peer: NodeId, number: u8) -> Option<&Entry>
    ensures { option_copied result ≡ last_such (λ (x : Made). decides (channel_to node peer number) x.event x.outcome) log.now }
{
    log.iter()
        .rev()
        .find(|entry| decides(entry, node, peer, number))
}

// The verdict that a receipt gives.
pub(crate) fn verdict_of(received: &Received) -> Verdict
    ensures { result ≡ verdict_by received.now }
{
    match received {
        Received::Accepted { .. } => Verdict::Accepted,
        Received::Refused { cause, .. } => Verdict::Refused(*cause),
        _ => Verdict::Refused(Cause::NoRequest),
    }
}
