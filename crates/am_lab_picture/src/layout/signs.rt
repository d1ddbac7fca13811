//! What an entry is drawn as.

ghost use Rattle.std.specs.Prelude.{◌≡◌, option_map};
ghost use Rattle.am_lab_picture.specs.Layout.Signs as signs;
ghost use Rattle.am_office_text.specs.Pieces.{word_of};

use am_names::{EndpointId, Message, NodeId};
use am_office_entries::{Call, Event, Outcome, Received, Refusal};
use am_office_text::{LinePiece, cause_word, small, why_word};

/// Where a sign stands.
#[derive(Clone, Copy)]
pub enum Spot {
    End(EndpointId),
    Interface(NodeId),
}

/// How the line from a sign to an endpoint ends there.
#[derive(Clone, Copy)]
pub enum Ending {
    /// The message was taken from there.
    Taken,
    /// The message was put there.
    Arrived,
    /// The message was refused there.
    Stopped,
    /// The source learns that the message was accepted.
    Settled,
    /// The message is put back at its source.
    Requeued,
    /// The message is returned to its source.
    Returned,
    /// The source learns that nothing is known of the message.
    Unknown,
}

/// The line from a sign to an endpoint.
#[derive(Clone, Copy)]
pub struct Link {
    pub far: EndpointId,
    pub ending: Ending,
}

/// Where the sign of an event stands.
pub fn spot_of(event: Event) -> Spot
    ensures { result ≡ signs.spot_of event }
{
    match event {
        Event::Call { end, .. } => Spot::End(end),
        Event::Want { end, .. } => Spot::End(end),
        Event::Carry { end } => Spot::End(end),
        Event::Bind { node, .. } => Spot::Interface(node),
        Event::Expire { node, .. } => Spot::Interface(node),
        Event::Receive { node, .. } => Spot::Interface(node),
        Event::Drain { end, .. } => Spot::End(end),
        Event::Unload { end, .. } => Spot::End(end),
        Event::Load { end, .. } => Spot::End(end),
        Event::PageOut { end, .. } => Spot::End(end),
        Event::PageIn { end, .. } => Spot::End(end),
    }
}

fn to_end(far: EndpointId, ending: Ending) -> Option<Link>
    ensures { result ≡ signs.to_end far ending }
{
    Some(Link { far, ending })
}

fn link_of_sent(event: Event) -> Option<Link>
    ensures { result ≡ signs.link_of_sent event }
{
    match event {
        Event::Bind { end, .. } => to_end(end, Ending::Taken),
        _ => None,
    }
}

fn link_of_received(received: Received) -> Option<Link>
    ensures { result ≡ signs.link_of_received received }
{
    match received {
        Received::Accepted { message, .. } => to_end(message.dest, Ending::Arrived),
        Received::Refused { message, .. } => to_end(message.dest, Ending::Stopped),
        Received::Delivered(serial) => to_end(serial.source, Ending::Settled),
        Received::Requeued { serial, .. } => to_end(serial.source, Ending::Requeued),
        Received::Returned { serial, .. } => to_end(serial.source, Ending::Returned),
        _ => None,
    }
}

/// The line from the sign of an entry to an endpoint, if it has one.
pub fn link_of(event: Event, outcome: Outcome) -> Option<Link>
    ensures { result ≡ signs.link_of event outcome }
{
    match outcome {
        Outcome::Sent { .. } => link_of_sent(event),
        Outcome::Accepted(message) => to_end(message.dest, Ending::Arrived),
        Outcome::Requeued { message, .. } => to_end(message.dest, Ending::Stopped),
        Outcome::Returned { message, .. } => to_end(message.dest, Ending::Stopped),
        Outcome::Delivered(serial) => to_end(serial.source, Ending::Settled),
        Outcome::Unknown(serial) => to_end(serial.source, Ending::Unknown),
        Outcome::Received { result, .. } => link_of_received(result),
        _ => None,
    }
}

/// How the line to an endpoint is dashed.
#[tactic(auto, unfolding(crate::specs::Layout::Signs::ending_dashes))]
pub fn ending_dashes(ending: Ending) -> &'static str
    ensures { result.now ≡ signs.ending_dashes ending }
{
    match ending {
        Ending::Taken => "none",
        Ending::Arrived => "none",
        Ending::Stopped => "none",
        Ending::Settled => "2 2",
        Ending::Requeued => "2 2",
        Ending::Returned => "2 2",
        Ending::Unknown => "2 2",
    }
}

/// The sign at the end of the line to an endpoint.
#[tactic(auto, unfolding(crate::specs::Layout::Signs::ending_sign))]
pub fn ending_sign(ending: Ending) -> &'static str
    ensures { result.now ≡ signs.ending_sign ending }
{
    match ending {
        Ending::Taken => "#taken",
        Ending::Arrived => "#arrived",
        Ending::Stopped => "#stopped",
        Ending::Settled => "#settled",
        Ending::Requeued => "#requeued",
        Ending::Returned => "#came-back",
        Ending::Unknown => "#timed-out",
    }
}

fn call_sign(call: Call) -> &'static str
    ensures { result.now ≡ signs.call_sign call }
{
    match call {
        Call::GiveUp(_) => "#given-up",
        Call::Close => "#closed",
        _ => "#done",
    }
}

#[tactic(auto, unfolding(crate::specs::Layout::Signs::done_sign))]
fn done_sign(event: Event) -> &'static str
    ensures { result.now ≡ signs.done_sign event }
{
    match event {
        Event::Call { call, .. } => call_sign(call),
        Event::Want { .. } => "#wanted",
        Event::Carry { .. } => "#done",
        Event::Bind { .. } => "#done",
        Event::Expire { .. } => "#time-out",
        Event::Receive { .. } => "#done",
        Event::Drain { .. } => "#moved",
        Event::Unload { .. } => "#moved",
        Event::Load { .. } => "#moved",
        Event::PageOut { .. } => "#moved",
        Event::PageIn { .. } => "#moved",
    }
}

#[tactic(auto, unfolding(crate::specs::Layout::Signs::received_sign))]
fn received_sign(received: Received) -> &'static str
    ensures { result.now ≡ signs.received_sign received }
{
    match received {
        Received::Accepted { .. } => "#done",
        Received::Refused { .. } => "#done",
        Received::Again { .. } => "#nothing",
        Received::Stale => "#nothing",
        Received::Delivered(_) => "#done",
        Received::Requeued { .. } => "#done",
        Received::Returned { .. } => "#done",
        Received::Nothing => "#nothing",
    }
}

/// The sign of an entry.
#[tactic(auto, unfolding(crate::specs::Layout::Signs::sign_of))]
pub fn sign_of(event: Event, outcome: Outcome) -> &'static str
    ensures { result.now ≡ signs.sign_of event outcome }
{
    match outcome {
        Outcome::Silent => done_sign(event),
        Outcome::Done => done_sign(event),
        Outcome::Requested(_) => "#request",
        Outcome::Refused(_) => "#refused",
        Outcome::Zero { .. } => "#notice",
        Outcome::Ran { .. } => "#run",
        Outcome::Blocked => "#blocked",
        Outcome::Empty => "#nothing",
        Outcome::Ready => "#done",
        Outcome::Quiet => "#nothing",
        Outcome::Failed => "#failed",
        Outcome::Accepted(_) => "#done",
        Outcome::Requeued { .. } => "#done",
        Outcome::Returned { .. } => "#done",
        Outcome::Sent { .. } => done_sign(event),
        Outcome::Delivered(_) => done_sign(event),
        Outcome::Unknown(_) => done_sign(event),
        Outcome::Received { result, .. } => received_sign(result),
    }
}

fn handler_text(handler: Option<u8>) -> LinePiece
    ensures { word_of result ≡ signs.handler_text handler }
{
    match handler {
        None => LinePiece::Text("-"),
        Some(handler) => small(handler),
    }
}

/// What is written in the sign of an outcome.
pub fn inner_of(outcome: Outcome) -> Option<LinePiece>
    ensures { option_map word_of result ≡ signs.inner_of outcome }
{
    match outcome {
        Outcome::Ran { handler, .. } => Some(handler_text(handler)),
        Outcome::Zero { .. } => Some(LinePiece::Text("0")),
        _ => None,
    }
}

#[tactic(auto, unfolding(crate::specs::Layout::Signs::refusal_text))]
fn refusal_text(refusal: Refusal) -> &'static str
    ensures { result.now ≡ signs.refusal_text refusal }
{
    match refusal {
        Refusal::Closed => "closed",
        Refusal::OwnTagNone => "own-tag-none",
        Refusal::BadIndex => "bad-index",
        Refusal::NotMapped => "not-mapped",
        Refusal::NoCredit => "no-credit",
        Refusal::TableFull => "table-full",
        Refusal::SendFull => "send-full",
        Refusal::InUse => "in-use",
        Refusal::OverShare(_) => "over-share",
        Refusal::Held { .. } => "in-use",
        Refusal::Outstanding(_) => "outstanding",
        Refusal::Reserved => "reserved",
        Refusal::NoRequest => "no-request",
    }
}

fn reply_text(reply: Option<Message>) -> Option<LinePiece>
    ensures { option_map word_of result ≡ signs.reply_text reply }
{
    match reply {
        None => None,
        Some(reply) => Some(LinePiece::Serial(reply.serial)),
    }
}

fn received_label(received: Received) -> Option<LinePiece>
    ensures { option_map word_of result ≡ signs.received_label received }
{
    match received {
        Received::Refused { cause, .. } => Some(LinePiece::Text(cause_word(cause))),
        _ => None,
    }
}

/// What is written beside the sign of an outcome.
pub fn label_of(outcome: Outcome) -> Option<LinePiece>
    ensures { option_map word_of result ≡ signs.label_of outcome }
{
    match outcome {
        Outcome::Requested(message) => Some(LinePiece::Serial(message.serial)),
        Outcome::Ran { sends, .. } => reply_text(sends),
        Outcome::Refused(refusal) => Some(LinePiece::Text(refusal_text(refusal))),
        Outcome::Zero { why, .. } => Some(LinePiece::Text(why_word(why))),
        Outcome::Failed => Some(LinePiece::Text("failed")),
        Outcome::Requeued { cause, .. } => Some(LinePiece::Text(cause_word(cause))),
        Outcome::Returned { cause, .. } => Some(LinePiece::Text(cause_word(cause))),
        Outcome::Received { result, .. } => received_label(result),
        _ => None,
    }
}
