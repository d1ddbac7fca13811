//! The packet that an entry emits.

ghost use Rattle.am_office_entries.specs.Entries as does;
ghost use Rattle.am_names.specs.declared.NodeId.{NodeId};
ghost use Rattle.std.specs.Prelude.{◌≡◌, ℕ, is_some};

use am_names::{AnswerPacket, NodeId, Packet, Parcel, Verdict};
use am_office_entries::{Entry, Event, Outcome, Received};

/// The answer in a receipt, if it sends one.
fn answer_by(received: &Received) -> Option<(u32, Verdict)>
    ensures { result ≡ does.answer_by received.now }
{
    match *received {
        Received::Accepted { answer, .. } => Some((answer, Verdict::Accepted)),
        Received::Refused { cause, answer, .. } => Some((answer, Verdict::Refused(cause))),
        Received::Again {
            verdict,
            answer,
            ..
        } => Some((answer, verdict)),
        _ => None,
    }
}

/// The parcel that an entry of this node emits, if its outcome is one that sends a message.
fn parcel(node: NodeId, stamp: u64, outcome: &Outcome) -> Option<Packet>
    ensures { result ≡ does.parcel node stamp outcome.now }
{
    match *outcome {
        Outcome::Sent {
            message,
            peer,
            channel,
            seq,
            attempt,
            number,
        } => Some(Packet::Parcel(Parcel {
            from: node,
            to: peer,
            channel,
            seq,
            attempt,
            number,
            stamp,
            message,
        })),
        _ => None,
    }
}

/// The answer that the receipt of a packet from this peer emits, if it sends one.
fn answer(node: NodeId, peer: NodeId, stamp: u64, outcome: &Outcome) -> Option<Packet>
    ensures { (number : ℕ) → result ≡ does.emitted_in stamp (Event.Receive node peer number) outcome.now }
{
    match outcome {
        Outcome::Received {
            channel,
            seq,
            attempt,
            result: received,
        } => match answer_by(received) {
            Some((number, verdict)) => Some(Packet::Answer(AnswerPacket {
                from: node,
                to: peer,
                channel: *channel,
                seq: *seq,
                attempt: *attempt,
                number,
                stamp,
                verdict,
            })),
            None => None,
        },
        _ => None,
    }
}

/// The packet that an entry emits.
pub fn emitted_of(entry: &Entry) -> Option<Packet>
    ensures { result ≡ does.emitted_of entry.now }
{
    match entry.event {
        Event::Bind { node, .. } => parcel(node, entry.stamp, &entry.outcome),
        Event::Expire { node, .. } => parcel(node, entry.stamp, &entry.outcome),
        Event::Receive { node, peer, .. } => answer(node, peer, entry.stamp, &entry.outcome),
        _ => None,
    }
}

/// Whether an entry with this outcome emits a parcel, if it is a bind or a time-out.
fn sends(outcome: &Outcome) -> bool
    ensures { (node : NodeId) (stamp : ℕ) → result ≡ is_some (does.parcel node stamp outcome.now) }
{
    match outcome {
        Outcome::Sent { .. } => true,
        _ => false,
    }
}

/// Whether a receipt with this outcome emits an answer.
fn answers(outcome: &Outcome) -> bool
    ensures { (stamp : ℕ) (node peer : NodeId) (number : ℕ) → result ≡ is_some (does.emitted_in stamp (Event.Receive node peer number) outcome.now) }
{
    match outcome {
        Outcome::Received {
            result: Received::Accepted { .. } | Received::Refused { .. } | Received::Again { .. },
            ..
        } => true,
        _ => false,
    }
}

/// Whether an entry emits a packet.
pub(crate) fn emits(entry: &Entry) -> bool
    ensures { result ≡ is_some (does.emitted_of entry.now) }
{
    match entry.event {
        Event::Bind { .. } => sends(&entry.outcome),
        Event::Expire { .. } => sends(&entry.outcome),
        Event::Receive { .. } => answers(&entry.outcome),
        _ => false,
    }
}
