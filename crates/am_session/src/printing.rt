//! The line of an entry in a printed session.

ghost use Rattle.am_session.specs.Lines as text;
ghost use Rattle.am_office_text.specs.Pieces.{Extends};
ghost use Rattle.am_office_text.specs.Words.{spaced};
ghost use Rattle.std.specs.Prelude.{◌≡◌, ◌++◌, OnOk};

use am_office_text::LinePiece::Text;
use am_office_text::{count, put_end, put_spaced, put_word, small};
use am_restart::{Say, SessionCondition, SessionEntry, SessionEvent, SessionFate, SessionOutcome};
use std::alloc::AllocError;

#[tactic(auto, unfolding(crate::specs::Lines::who))]
fn who(event: SessionEvent) -> &'static str
    ensures { result.now ≡ text.who event }
{
    match event {
        SessionEvent::ReceiverReceive { .. } => "b",
        SessionEvent::ReceiverRestart => "b",
        SessionEvent::Offer => "a",
        SessionEvent::Hello => "a",
        SessionEvent::Bind => "a",
        SessionEvent::Expire => "a",
        SessionEvent::SenderReceive { .. } => "a",
        SessionEvent::SenderRestart => "a",
    }
}

#[tactic(auto, unfolding(crate::specs::Lines::say_word))]
fn say_word(say: Say) -> &'static str
    ensures { result.now ≡ text.say_word say }
{
    match say {
        Say::Accept => "accept",
        Say::Full => "full",
        Say::Bad => "bad",
    }
}

#[tactic(auto, unfolding(crate::specs::Lines::what))]
fn put_what(out: &mut Vec<u8>, event: SessionEvent) -> Result<(), AllocError>
    ensures ok { OnOk result (out.new.items ≡ out.old.items ++ spaced (text.what event)) }
    ensures kept { Extends out.old.items out.new.items }
{
    match event {
        SessionEvent::Offer => put_spaced(out, &[Text("offer")]),
        SessionEvent::Hello => put_spaced(out, &[Text("hello")]),
        SessionEvent::Bind => put_spaced(out, &[Text("bind")]),
        SessionEvent::Expire => put_spaced(out, &[Text("expire")]),
        SessionEvent::SenderReceive { number } => {
            put_spaced(out, &[Text("receive"), count(number)])
        }
        SessionEvent::SenderRestart => put_spaced(out, &[Text("restart")]),
        SessionEvent::ReceiverReceive { number, say } => {
            put_spaced(out, &[Text("receive"), count(number), Text(say_word(say))])
        }
        SessionEvent::ReceiverRestart => put_spaced(out, &[Text("restart")]),
    }
}

#[tactic(auto, unfolding(crate::specs::Lines::peer))]
fn put_peer(out: &mut Vec<u8>, incarnation: u32, unknown: Option<u32>) -> Result<(), AllocError>
    ensures ok { OnOk result (out.new.items ≡ out.old.items ++ spaced (text.peer incarnation unknown)) }
    ensures kept { Extends out.old.items out.new.items }
{
    let incarnation = count(incarnation);
    match unknown {
        None => put_spaced(out, &[Text("peer"), incarnation]),
        Some(message) => put_spaced(
            out,
            &[Text("peer"), incarnation, Text("unknown"), count(message)],
        ),
    }
}

#[tactic(auto, unfolding(crate::specs::Lines::outcome))]
fn put_outcome(out: &mut Vec<u8>, outcome: SessionOutcome) -> Result<(), AllocError>
    ensures ok { OnOk result (out.new.items ≡ out.old.items ++ spaced (text.outcome outcome)) }
    ensures kept { Extends out.old.items out.new.items }
{
    match outcome {
        SessionOutcome::Done => put_spaced(out, &[Text("ok")]),
        SessionOutcome::Offered(message) => put_spaced(out, &[Text("ok"), count(message)]),
        SessionOutcome::Hello(number) => put_spaced(out, &[Text("sent"), count(number)]),
        SessionOutcome::Sent {
            message,
            seq,
            attempt,
            number,
        } => {
            let (message, seq, number) = (count(message), count(seq), count(number));
            put_spaced(out, &[Text("sent"), message, seq, small(attempt), number])
        }
        SessionOutcome::Unknown(message) => put_spaced(out, &[Text("unknown"), count(message)]),
        SessionOutcome::Peer {
            incarnation,
            unknown,
        } => put_peer(out, incarnation, unknown),
        SessionOutcome::Delivered(message) => {
            put_spaced(out, &[Text("delivered"), count(message)])
        }
        SessionOutcome::Requeued(message) => put_spaced(out, &[Text("requeued"), count(message)]),
        SessionOutcome::Returned(message) => put_spaced(out, &[Text("returned"), count(message)]),
        SessionOutcome::Nothing => put_spaced(out, &[Text("nothing")]),
        SessionOutcome::Stale => put_spaced(out, &[Text("stale")]),
        SessionOutcome::Welcome(number) => put_spaced(out, &[Text("welcome"), count(number)]),
        SessionOutcome::Again { message, answer } => {
            let (message, answer) = (count(message), count(answer));
            put_spaced(out, &[Text("again"), message, Text("answer"), answer])
        }
        SessionOutcome::Accepted { message, answer } => {
            let (message, answer) = (count(message), count(answer));
            put_spaced(out, &[Text("accepted"), message, Text("answer"), answer])
        }
        SessionOutcome::Refused { message, answer } => {
            let (message, answer) = (count(message), count(answer));
            put_spaced(out, &[Text("refused"), message, Text("answer"), answer])
        }
    }
}

/// Appends the line of an entry.
#[tactic(auto, using(std::proofs::Common::append_assoc), unfolding(crate::specs::Lines::line_of))]
pub(crate) fn put_entry(out: &mut Vec<u8>, entry: SessionEntry) -> Result<(), AllocError>
    ensures { OnOk result (out.new.items ≡ out.old.items ++ text.line_of entry) }
{
    put_word(out, Text(who(entry.event)))?;
    put_what(out, entry.event)?;
    put_spaced(out, &[Text("->")])?;
    put_outcome(out, entry.outcome)?;
    put_end(out)
}

/// The word of a fate.
#[tactic(auto, unfolding(crate::specs::Lines::fate_word))]
pub(crate) fn fate_word(fate: SessionFate) -> &'static str
    ensures { result.now ≡ text.fate_word fate }
{
    match fate {
        SessionFate::Put => "put",
        SessionFate::Returned => "returned",
        SessionFate::Unknown => "unknown",
        SessionFate::UnknownButPut => "unknown-but-put",
        SessionFate::Pending => "pending",
    }
}

/// The word of a condition.
#[tactic(auto, unfolding(crate::specs::Lines::condition_word))]
pub(crate) fn condition_word(condition: SessionCondition) -> &'static str
    ensures { result.now ≡ text.condition_word condition }
{
    match condition {
        SessionCondition::UnknownPeer => "unknown-peer",
        SessionCondition::Bound => "bound",
        SessionCondition::NoMessage => "no-message",
        SessionCondition::Idle => "idle",
        SessionCondition::NoPacket => "no-packet",
    }
}
