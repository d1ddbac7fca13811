//! What a work comes to by the ends of its channel.

ghost use Rattle.am_iface.specs.ByEnds.{emits_retry, needs_settling, needs_time_out};
ghost use Rattle.am_channel.specs.Sending.{settled, timed_out};
ghost use Rattle.am_channel.specs.Calls as Calls;
ghost use Rattle.am_channel.specs.Calls.{after};
ghost use Rattle.am_model_parts.specs.Interface.{answers_to, needs_arrival};
ghost use Rattle.am_model.specs.Channels.{Fresh, arrival};
ghost use Rattle.std.specs.Prelude.{◌≡◌, ◌+◌, ◌-◌, ◌<◌, ◌≤◌, ◌^◌, IfSome, IsNone, IsSome};

use am_channel::{Arrival, Ends, Sent, Settled, Slot, TimedOut};
use am_names::{AnswerPacket, EndpointId, Message, NodeId, Parcel, Verdict};

/// The endpoint that a parcel touches.
pub(crate) fn needs_parcel(ends: &Ends, p: &Parcel) -> Option<EndpointId>
    requires { 1 ≤ p.now.seq }
    ensures { result ≡ needs_arrival p.now.message.dest (arrival ends.now.receiving p.now.seq p.now.attempt) }
{
    match ends.receiving.arrive(p) {
        Arrival::Fresh => Some(p.message.dest),
        Arrival::Stale | Arrival::Again(_) => None,
    }
}

/// The endpoint that an answer touches.
pub(crate) fn needs_answer(ends: &Ends, p: &AnswerPacket) -> Option<EndpointId>
    ensures { result ≡ needs_settling (settled ends.now.sending p.now) }
{
    let mut sending = ends.sending;
    match sending.answer(p) {
        Settled::Done(bound, _) => Some(bound.message.serial.source),
        Settled::Nothing => None,
    }
}

/// The endpoint that a time-out touches.
pub(crate) fn needs_expiry(ends: &Ends, tries: u8) -> Option<EndpointId>
    ensures { result ≡ needs_time_out tries ends.now.sending.seq ends.now.sending.bound }
{
    let mut sending = ends.sending;
    if sending.busy().is_none() {
        return None;
    }
    match sending.time_out(tries) {
        TimedOut::GaveUp(bound) => Some(bound.message.serial.source),
        TimedOut::Resend(_) => None,
    }
}

/// The node that a parcel's entry sends an answer to.
pub(crate) fn emits_parcel(ends: &Ends, p: &Parcel) -> Option<NodeId>
    requires { 1 ≤ p.now.seq }
    ensures { result ≡ answers_to p.now.from (arrival ends.now.receiving p.now.seq p.now.attempt) }
{
    match ends.receiving.arrive(p) {
        Arrival::Fresh | Arrival::Again(_) => Some(p.from),
        Arrival::Stale => None,
    }
}

/// The node that a time-out's entry sends a parcel to.
pub(crate) fn emits_expiry(ends: &Ends, tries: u8, peer: NodeId) -> Option<NodeId>
    ensures { result ≡ emits_retry tries peer ends.now.sending.seq ends.now.sending.bound }
{
    let mut sending = ends.sending;
    if sending.busy().is_none() {
        return None;
    }
    match sending.time_out(tries) {
        TimedOut::Resend(_) => Some(peer),
        TimedOut::GaveUp(_) => None,
    }
}

/// A time-out of a bound message.
pub(crate) fn time_out(ends: &mut Ends, tries: u8) -> TimedOut
    requires { IsSome ends.old.sending.bound }
    ensures answer { IfSome ends.old.sending.bound (λ b. result ≡ timed_out tries ends.old.sending.seq b) }
    ensures after { ends.new ≡ after ends.old (Calls.TimeOut tries) }
{
    ends.sending.time_out(tries)
}

/// Keeps the verdict on a parcel that is fresh.
pub(crate) fn decide(ends: &mut Ends, p: &Parcel, verdict: Verdict)
    requires { arrival ends.old.receiving p.now.seq p.now.attempt ≡ Fresh }
    ensures { ends.new ≡ after ends.old (Calls.Arrive p.now verdict) }
{
    ends.receiving.decided(p, verdict);
}

/// An answer comes.
pub(crate) fn answer(ends: &mut Ends, p: &AnswerPacket) -> Settled
    ensures answer { result ≡ settled ends.old.sending p.now }
    ensures after { ends.new ≡ after ends.old (Calls.Answer p.now) }
{
    ends.sending.answer(p)
}

/// The numbers of the next message that is bound, for its first try.
pub(crate) fn first_try(ends: &Ends) -> Sent
    requires { ends.now.sending.seq < 2 ^ 32 - 1 }
    ensures { result ≡ record { seq = ends.now.sending.seq + 1; attempt = 0 } }
{
    Sent {
        seq: ends.sending.seq() + 1,
        attempt: 0,
    }
}

/// Binds a message, which lies in this slot at its source, under the next sequence, for its first try.
pub(crate) fn bind(ends: &mut Ends, message: Message, slot: Slot)
    requires idle { IsNone ends.old.sending.bound }
    requires room { ends.old.sending.seq < 2 ^ 32 - 1 }
    ensures { ends.new ≡ after ends.old (Calls.Bind message slot) }
{
    ends.sending.bind(message, slot);
}
