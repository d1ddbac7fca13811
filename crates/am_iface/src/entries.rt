//! The entries of turns that touch no endpoint.

ghost use Rattle.am_model_parts.specs.Interface.{arrive_at, needs_arrival};
ghost use Rattle.am_model.specs.Channels.{arrival};
ghost use Rattle.am_model.specs.Endpoint.{State};
ghost use Rattle.am_model.specs.History.{decided, settle_by};
ghost use Rattle.std.specs.Prelude.{◌≡◌, ◌≤◌, None, if◌then◌else◌};

use am_channel::{Arrival, Ends, Sent};
use am_model::may_bounce;
use am_names::{AnswerPacket, EndpointId, Message, NodeId, Parcel, Verdict};
use am_office_entries::{Entry, Event, Outcome, Received};

/// What comes of a parcel that is stale or comes again.
pub(crate) fn repeat(ends: &Ends, answer: u32, p: &Parcel) -> Received
    requires seq { 1 ≤ p.now.seq }
    requires known { needs_arrival p.now.message.dest (arrival ends.now.receiving p.now.seq p.now.attempt) ≡ None }
    ensures { (s : State) → result ≡ arrive_at s p.now.message answer (arrival ends.now.receiving p.now.seq p.now.attempt) }
{
    match ends.receiving.arrive(p) {
        Arrival::Stale => Received::Stale,
        Arrival::Again(verdict) => Received::Again {
            serial: p.message.serial,
            verdict,
            answer,
        },
        Arrival::Fresh => unreachable!(),
    }
}

/// The receipt of a parcel, with what came of it.
pub(crate) fn parcel_receipt(node: NodeId, stamp: u64, p: &Parcel, came: Received) -> Entry
    ensures { result ≡ record { stamp = stamp; event = Event.Receive node p.now.from p.now.number; outcome = Outcome.Received p.now.channel p.now.seq p.now.attempt came } }
{
    Entry {
        stamp,
        event: Event::Receive {
            node,
            peer: p.from,
            number: p.number,
        },
        outcome: Outcome::Received {
            channel: p.channel,
            seq: p.seq,
            attempt: p.attempt,
            result: came,
        },
    }
}

/// The receipt of an answer, with what came of it.
pub(crate) fn answer_receipt(node: NodeId, stamp: u64, p: &AnswerPacket, came: Received) -> Entry
    ensures { result ≡ record { stamp = stamp; event = Event.Receive node p.now.from p.now.number; outcome = Outcome.Received p.now.channel p.now.seq p.now.attempt came } }
{
    Entry {
        stamp,
        event: Event::Receive {
            node,
            peer: p.from,
            number: p.number,
        },
        outcome: Outcome::Received {
            channel: p.channel,
            seq: p.seq,
            attempt: p.attempt,
            result: came,
        },
    }
}

/// The time-out of a channel that sends its message again.
pub(crate) fn resend(
    node: NodeId,
    stamp: u64,
    peer: NodeId,
    channel: u8,
    message: Message,
    sent: Sent,
    number: u32,
) -> Entry
    ensures { result ≡ record { stamp = stamp; event = Event.Expire node peer channel; outcome = Outcome.Sent message peer channel sent.seq sent.attempt number } }
{
    Entry {
        stamp,
        event: Event::Expire {
            node,
            peer,
            channel,
        },
        outcome: Outcome::Sent {
            message,
            peer,
            channel,
            seq: sent.seq,
            attempt: sent.attempt,
            number,
        },
    }
}

/// What comes of a fresh parcel by its verdict.
pub(crate) fn decided(message: Message, answer: u32, verdict: Verdict) -> Received
    ensures { result ≡ decided message answer verdict }
{
    match verdict {
        Verdict::Accepted => Received::Accepted { message, answer },
        Verdict::Refused(cause) => Received::Refused {
            message,
            cause,
            answer,
        },
    }
}

/// What an answer that counts makes of a message that bounced so often and may bounce up to the limit.
pub(crate) fn settled_by(limit: u8, message: Message, bounces: u8, verdict: Verdict) -> Received
    ensures { result ≡ settle_by limit message bounces verdict }
{
    match verdict {
        Verdict::Accepted => Received::Delivered(message.serial),
        Verdict::Refused(cause) => if may_bounce(limit, cause, bounces) {
            Received::Requeued {
                serial: message.serial,
                cause,
                used: bounces + 1,
            }
        } else {
            Received::Returned {
                serial: message.serial,
                cause,
            }
        },
    }
}

/// The time-out of a channel that gives its message up, whose reply was put or not.
pub(crate) fn give_up(
    node: NodeId,
    stamp: u64,
    peer: NodeId,
    channel: u8,
    message: Message,
    answered: bool,
) -> Entry
    ensures { result ≡ record { stamp = stamp; event = Event.Expire node peer channel; outcome = (if answered then Outcome.Delivered message.serial else Outcome.Unknown message.serial) } }
{
    Entry {
        stamp,
        event: Event::Expire {
            node,
            peer,
            channel,
        },
        outcome: if answered {
            Outcome::Delivered(message.serial)
        } else {
            Outcome::Unknown(message.serial)
        },
    }
}

/// A message goes out to a peer.
pub(crate) fn sent(message: Message, peer: NodeId, channel: u8, sent: Sent, number: u32) -> Outcome
    ensures { result ≡ Outcome.Sent message peer channel sent.seq sent.attempt number }
{
    Outcome::Sent {
        message,
        peer,
        channel,
        seq: sent.seq,
        attempt: sent.attempt,
        number,
    }
}

/// The bind of an endpoint's front message, with what came of it.
pub(crate) fn bind_entry(node: NodeId, stamp: u64, end: EndpointId, outcome: Outcome) -> Entry
    ensures { result ≡ record { stamp = stamp; event = Event.Bind node end; outcome = outcome } }
{
    Entry {
        stamp,
        event: Event::Bind { node, end },
        outcome,
    }
}
