//! The line of an entry in a printed journal.

ghost use Rattle.std.specs.Prelude.{◌≡◌, ◌++◌, ◌∷◌, [], OnOk, OnErr, codes};
ghost use Rattle.std.specs.Fmt.{decimal};
ghost use Rattle.am_office_text.specs.Words as words;
ghost use Rattle.am_office_text.specs.EntryLines.Lines as text;
ghost use Rattle.am_office_text.specs.Words.{spaced};
ghost use Rattle.am_office_text.specs.Pieces.{Extends};

use crate::LinePiece::{Number, Tag, Text};
use crate::{
    LinePiece, cause_word, count, put_end, put_numbered, put_numbers, put_spaced, put_word, small,
    verdict_word, why_word,
};
use am_names::{EndpointId, Message, NoMemory, NodeId, Serial, Words};
use am_office_entries::{Actor, Call, Entry, Event, HandlerKind, Mask, Outcome, Received, Refusal};
use std::alloc::AllocError;

// Appends a text and a number after a space.
#[tactic(auto, using(crate::proofs::Extended::extension))]
#[inline(always)]
fn put_counted(out: &mut Vec<u8>, text: &'static str, number: u32) -> Result<(), AllocError>
    ensures ok { OnOk result (out.new.items ≡ out.old.items ++ text.now ++ spaced (decimal number ∷ [])) }
    ensures kept { Extends out.old.items out.new.items }
{
    put_word(out, Text(text))?;
    put_spaced(out, &[count(number)])
}

// Appends a text and two numbers, each after a space.
#[tactic(auto, using(crate::proofs::Extended::extension))]
#[inline(always)]
fn put_two(out: &mut Vec<u8>, text: &'static str, first: u8, second: u32) -> Result<(), AllocError>
    ensures ok { OnOk result (out.new.items ≡ out.old.items ++ text.now ++ spaced (decimal first ∷ decimal second ∷ [])) }
    ensures kept { Extends out.old.items out.new.items }
{
    put_word(out, Text(text))?;
    put_spaced(out, &[small(first), count(second)])
}

// Appends a text and a message after a space.
#[tactic(auto, using(crate::proofs::Extended::extension))]
#[inline(always)]
fn put_message(out: &mut Vec<u8>, text: &'static str, serial: Serial) -> Result<(), AllocError>
    ensures ok { OnOk result (out.new.items ≡ out.old.items ++ text.now ++ spaced (words.serial serial ∷ [])) }
    ensures kept { Extends out.old.items out.new.items }
{
    put_word(out, Text(text))?;
    put_spaced(out, &[LinePiece::Serial(serial)])
}

#[tactic(auto, unfolding(crate::specs::EntryLines::Lines::actor))]
#[inline(always)]
fn put_actor(out: &mut Vec<u8>, actor: Actor) -> Result<(), AllocError>
    ensures ok { OnOk result (out.new.items ≡ out.old.items ++ text.actor actor) }
    ensures kept { Extends out.old.items out.new.items }
{
    match actor {
        Actor::Thread(thread) => put_numbered(out, "t", thread),
        Actor::Outside => put_word(out, Text("x")),
    }
}

#[tactic(auto, unfolding(crate::specs::EntryLines::Lines::who, crate::specs::EntryLines::Lines::interface, crate::specs::EntryLines::Lines::driver))]
fn put_who(out: &mut Vec<u8>, event: &Event) -> Result<(), AllocError>
    ensures ok { OnOk result (out.new.items ≡ out.old.items ++ text.who event.now) }
    ensures kept { Extends out.old.items out.new.items }
{
    match *event {
        Event::Call { actor, .. } => put_actor(out, actor),
        Event::Want { actor, .. } => put_actor(out, actor),
        Event::Carry { .. } => put_word(out, Text("x")),
        Event::Bind { node, .. } => put_numbered(out, "i", node.0),
        Event::Expire { node, .. } => put_numbered(out, "i", node.0),
        Event::Receive { node, .. } => put_numbered(out, "i", node.0),
        Event::Drain { node, .. } => put_numbered(out, "d", node.0),
        Event::Unload { node, .. } => put_numbered(out, "d", node.0),
        Event::Load { node, .. } => put_numbered(out, "d", node.0),
        Event::PageOut { node, .. } => put_numbered(out, "d", node.0),
        Event::PageIn { node, .. } => put_numbered(out, "d", node.0),
    }
}

#[tactic(auto, unfolding(crate::specs::EntryLines::Lines::handler_kind))]
fn put_handler_kind(out: &mut Vec<u8>, kind: HandlerKind) -> Result<(), AllocError>
    ensures ok { OnOk result (out.new.items ≡ out.old.items ++ spaced (text.handler_kind kind)) }
    ensures kept { Extends out.old.items out.new.items }
{
    match kind {
        HandlerKind::Note => put_spaced(out, &[Text("note")]),
        HandlerKind::Echo(reply) => put_spaced(out, &[Text("echo"), small(reply)]),
        HandlerKind::Add(reply) => put_spaced(out, &[Text("add"), small(reply)]),
    }
}

/// The word of a mask.
#[tactic(auto, unfolding(crate::specs::EntryLines::Lines::mask))]
pub fn mask_word(mask: Mask) -> &'static str
    ensures { result.now ≡ text.mask mask }
{
    match mask {
        Mask::NoEvents => "noevents",
        Mask::NotEmpty => "notempty",
    }
}

// What a request says of itself.
#[tactic(auto, using(crate::proofs::Extended::extension), unfolding(crate::specs::Words::spaced))]
#[inline(never)]
fn put_request(
    out: &mut Vec<u8>,
    end: EndpointId,
    index: u8,
    handler: u8,
    words: Words,
) -> Result<(), AllocError>
    ensures ok { OnOk result (out.new.items ≡ out.old.items ++ spaced (codes "request" ∷ decimal end.0 ∷ decimal index ∷ decimal handler ∷ decimal words.a ∷ decimal words.b ∷ decimal words.c ∷ decimal words.d ∷ [])) }
    ensures kept { Extends out.old.items out.new.items }
{
    put_word(out, Text(" request"))?;
    let (end, index, handler) = (u64::from(end.0), u64::from(index), u64::from(handler));
    put_numbers(
        out,
        &[end, index, handler, words.a, words.b, words.c, words.d],
    )
}

#[tactic(auto, using(crate::proofs::Extended::extension), unfolding(crate::specs::EntryLines::Lines::call))]
fn put_call(out: &mut Vec<u8>, end: EndpointId, call: &Call) -> Result<(), AllocError>
    ensures ok { OnOk result (out.new.items ≡ out.old.items ++ spaced (text.call end call.now)) }
    ensures kept { Extends out.old.items out.new.items }
{
    let own = small(end.0);
    match *call {
        Call::Request {
            index,
            handler,
            words,
        } => put_request(out, end, index, handler, words),
        Call::Poll => put_counted(out, " poll", u32::from(end.0)),
        Call::SetTag(tag) => put_spaced(out, &[Text("tag"), own, Tag(tag)]),
        Call::Map {
            index,
            name,
            tag,
            credits,
        } => {
            let (index, name) = (small(index), small(name.0));
            put_spaced(
                out,
                &[Text("map"), own, index, name, Tag(tag), small(credits)],
            )
        }
        Call::Unmap(index) => put_spaced(out, &[Text("unmap"), own, small(index)]),
        Call::SetHandler { index, kind } => {
            put_spaced(out, &[Text("handler"), own, small(index)])?;
            put_handler_kind(out, kind)
        }
        Call::GiveUp(serial) => put_spaced(out, &[Text("giveup"), own, LinePiece::Serial(serial)]),
        Call::Close => put_spaced(out, &[Text("close"), own]),
        Call::Test(mask) => put_spaced(out, &[Text("event"), own, Text(mask_word(mask))]),
    }
}

#[tactic(auto, unfolding(crate::specs::EntryLines::Lines::what, crate::specs::Words::spaced))]
fn put_what(out: &mut Vec<u8>, event: &Event) -> Result<(), AllocError>
    ensures ok { OnOk result (out.new.items ≡ out.old.items ++ spaced (text.what event.now)) }
    ensures kept { Extends out.old.items out.new.items }
{
    match event {
        Event::Call { end, call, .. } => put_call(out, *end, call),
        Event::Want { end, .. } => put_counted(out, " want", u32::from(end.0)),
        Event::Carry { end } => put_counted(out, " carry", u32::from(end.0)),
        Event::Bind { end, .. } => put_counted(out, " bind", u32::from(end.0)),
        Event::Expire { peer, channel, .. } => put_two(out, " expire", peer.0, u32::from(*channel)),
        Event::Receive { peer, number, .. } => put_two(out, " receive", peer.0, *number),
        Event::Drain { end, .. } => put_counted(out, " drain", u32::from(end.0)),
        Event::Unload { end, .. } => put_counted(out, " unload", u32::from(end.0)),
        Event::Load { end, frame, .. } => put_two(out, " load", end.0, u32::from(*frame)),
        Event::PageOut { end, .. } => put_counted(out, " pageout", u32::from(end.0)),
        Event::PageIn { end, .. } => put_counted(out, " pagein", u32::from(end.0)),
    }
}

#[tactic(auto, unfolding(crate::specs::EntryLines::Lines::refusal))]
#[inline(never)]
fn put_refusal(out: &mut Vec<u8>, refusal: Refusal) -> Result<(), AllocError>
    ensures ok { OnOk result (out.new.items ≡ out.old.items ++ spaced (text.refusal refusal)) }
    ensures kept { Extends out.old.items out.new.items }
{
    match refusal {
        Refusal::Closed => put_spaced(out, &[Text("closed")]),
        Refusal::OwnTagNone => put_spaced(out, &[Text("own-tag-none")]),
        Refusal::BadIndex => put_spaced(out, &[Text("bad-index")]),
        Refusal::NotMapped => put_spaced(out, &[Text("not-mapped")]),
        Refusal::NoCredit => put_spaced(out, &[Text("no-credit")]),
        Refusal::TableFull => put_spaced(out, &[Text("table-full")]),
        Refusal::SendFull => put_spaced(out, &[Text("send-full")]),
        Refusal::InUse => put_spaced(out, &[Text("in-use")]),
        Refusal::OverShare(over) => put_spaced(out, &[Text("over-share"), small(over)]),
        Refusal::Held {
            received,
            messages,
            outstanding,
        } => {
            let (received, messages) = (small(received), small(messages));
            put_spaced(
                out,
                &[Text("in-use"), received, messages, small(outstanding)],
            )
        }
        Refusal::Outstanding(records) => put_spaced(out, &[Text("outstanding"), small(records)]),
        Refusal::Reserved => put_spaced(out, &[Text("reserved")]),
        Refusal::NoRequest => put_spaced(out, &[Text("no-request")]),
    }
}

// Appends a text, and a message and a word after spaces.
#[tactic(auto, using(crate::proofs::Extended::extension))]
#[inline(never)]
fn put_message_with(
    out: &mut Vec<u8>,
    text: &'static str,
    serial: Serial,
    word: &'static str,
) -> Result<(), AllocError>
    ensures ok { OnOk result (out.new.items ≡ out.old.items ++ text.now ++ spaced (words.serial serial ∷ word.now ∷ [])) }
    ensures kept { Extends out.old.items out.new.items }
{
    put_message(out, text, serial)?;
    put_spaced(out, &[Text(word)])
}

// Appends a text, and a message, a word and the number of the answer that goes back after spaces.
#[tactic(auto, using(crate::proofs::Extended::extension), unfolding(crate::specs::Words::spaced))]
#[inline(never)]
fn put_answered(
    out: &mut Vec<u8>,
    text: &'static str,
    serial: Serial,
    word: &'static str,
    answer: u32,
) -> Result<(), AllocError>
    ensures ok { OnOk result (out.new.items ≡ out.old.items ++ text.now ++ spaced (words.serial serial ∷ word.now ∷ codes "answer" ∷ decimal answer ∷ [])) }
    ensures kept { Extends out.old.items out.new.items }
{
    put_message_with(out, text, serial, word)?;
    put_counted(out, " answer", answer)
}

// Appends a text, and a message and the number of the answer that goes back after spaces.
#[tactic(auto, using(crate::proofs::Extended::extension), unfolding(crate::specs::Words::spaced))]
#[inline(always)]
fn put_taken(
    out: &mut Vec<u8>,
    text: &'static str,
    serial: Serial,
    answer: u32,
) -> Result<(), AllocError>
    ensures ok { OnOk result (out.new.items ≡ out.old.items ++ text.now ++ spaced (words.serial serial ∷ codes "answer" ∷ decimal answer ∷ [])) }
    ensures kept { Extends out.old.items out.new.items }
{
    put_message(out, text, serial)?;
    put_counted(out, " answer", answer)
}

// The arrow and what came of the receipt of a packet.
#[tactic(auto, unfolding(crate::specs::EntryLines::Lines::received, crate::specs::Words::spaced))]
#[inline(never)]
fn put_received(out: &mut Vec<u8>, received: &Received) -> Result<(), AllocError>
    ensures ok { OnOk result (out.new.items ≡ out.old.items ++ spaced (text.after_arrow (text.received received.now))) }
    ensures kept { Extends out.old.items out.new.items }
{
    match *received {
        Received::Accepted { message, answer } => {
            put_taken(out, " -> accepted", message.serial, answer)
        }
        Received::Refused {
            message,
            cause,
            answer,
        } => {
            put_answered(
                out,
                " -> refused",
                message.serial,
                cause_word(cause),
                answer,
            )
        }
        Received::Again {
            serial,
            verdict,
            answer,
        } => { put_answered(out, " -> again", serial, verdict_word(verdict), answer) }
        Received::Stale => put_word(out, Text(" -> stale")),
        Received::Delivered(serial) => put_message(out, " -> delivered", serial),
        Received::Requeued { serial, cause, .. } => {
            put_message_with(out, " -> requeued", serial, cause_word(cause))
        }
        Received::Returned { serial, cause } => {
            put_message_with(out, " -> returned", serial, cause_word(cause))
        }
        Received::Nothing => put_word(out, Text(" -> nothing")),
    }
}

#[tactic(auto, unfolding(crate::specs::EntryLines::Lines::sends, crate::specs::Words::spaced))]
fn put_sends(out: &mut Vec<u8>, sends: &Option<Message>) -> Result<(), AllocError>
    ensures ok { OnOk result (out.new.items ≡ out.old.items ++ spaced (text.sends sends.now)) }
    ensures kept { Extends out.old.items out.new.items }
{
    match sends {
        None => put_spaced(out, &[]),
        Some(reply) => put_message(out, " sends", reply.serial),
    }
}

// The handler that ran, or a dash.
#[tactic(auto, unfolding(crate::specs::EntryLines::Lines::handler, crate::specs::Words::spaced))]
fn put_handler(out: &mut Vec<u8>, handler: Option<u8>) -> Result<(), AllocError>
    ensures ok { OnOk result (out.new.items ≡ out.old.items ++ spaced (text.handler handler ∷ [])) }
    ensures kept { Extends out.old.items out.new.items }
{
    match handler {
        None => put_word(out, Text(" -")),
        Some(handler) => put_spaced(out, &[small(handler)]),
    }
}

// The arrow, the message that ran and its handler.
#[tactic(auto, using(crate::proofs::Extended::extension), unfolding(crate::specs::Words::spaced))]
fn put_ran(out: &mut Vec<u8>, serial: Serial, handler: Option<u8>) -> Result<(), AllocError>
    ensures ok { OnOk result (out.new.items ≡ out.old.items ++ spaced (codes "->" ∷ codes "ran" ∷ words.serial serial ∷ text.handler handler ∷ [])) }
    ensures kept { Extends out.old.items out.new.items }
{
    put_message(out, " -> ran", serial)?;
    put_handler(out, handler)
}

// The arrow and the emission of a parcel.
#[tactic(auto, using(crate::proofs::Extended::extension), unfolding(crate::specs::Words::spaced))]
#[inline(never)]
fn put_sent(
    out: &mut Vec<u8>,
    serial: Serial,
    peer: NodeId,
    channel: u8,
    seq: u32,
    attempt: u8,
    number: u32,
) -> Result<(), AllocError>
    ensures ok { OnOk result (out.new.items ≡ out.old.items ++ spaced (codes "->" ∷ codes "sent" ∷ words.serial serial ∷ decimal peer.0 ∷ decimal channel ∷ decimal seq ∷ decimal attempt ∷ decimal number ∷ [])) }
    ensures kept { Extends out.old.items out.new.items }
{
    put_message(out, " -> sent", serial)?;
    let (peer, channel, attempt) = (u64::from(peer.0), u64::from(channel), u64::from(attempt));
    let (seq, number) = (u64::from(seq), u64::from(number));
    put_numbers(out, &[peer, channel, seq, attempt, number])
}

// The arrow and what came of an event, if it has an outcome.
#[tactic(auto, using(crate::proofs::Extended::extension), unfolding(crate::specs::EntryLines::Lines::outcome, crate::specs::Words::spaced))]
fn put_outcome(out: &mut Vec<u8>, outcome: &Outcome) -> Result<(), AllocError>
    ensures ok { OnOk result (out.new.items ≡ out.old.items ++ spaced (text.after_arrow (text.outcome outcome.now))) }
    ensures kept { Extends out.old.items out.new.items }
{
    match outcome {
        Outcome::Silent => put_spaced(out, &[]),
        Outcome::Done => put_word(out, Text(" -> ok")),
        Outcome::Requested(message) => put_message(out, " -> ok", message.serial),
        Outcome::Refused(refusal) => {
            put_word(out, Text(" -> refused"))?;
            put_refusal(out, *refusal)
        }
        Outcome::Zero { serial, why } => put_message_with(out, " -> zero", *serial, why_word(*why)),
        Outcome::Ran {
            message,
            handler,
            sends,
        } => {
            put_ran(out, message.serial, *handler)?;
            put_sends(out, sends)
        }
        Outcome::Blocked => put_word(out, Text(" -> blocked")),
        Outcome::Empty => put_word(out, Text(" -> empty")),
        Outcome::Ready => put_word(out, Text(" -> ready")),
        Outcome::Quiet => put_word(out, Text(" -> quiet")),
        Outcome::Failed => put_word(out, Text(" -> failed")),
        Outcome::Accepted(message) => put_message(out, " -> accepted", message.serial),
        Outcome::Requeued { message, cause, .. } => {
            put_message_with(out, " -> requeued", message.serial, cause_word(*cause))
        }
        Outcome::Returned { message, cause } => {
            put_message_with(out, " -> returned", message.serial, cause_word(*cause))
        }
        Outcome::Sent {
            message,
            peer,
            channel,
            seq,
            attempt,
            number,
        } => {
            put_sent(
                out,
                message.serial,
                *peer,
                *channel,
                *seq,
                *attempt,
                *number,
            )
        }
        Outcome::Delivered(serial) => put_message(out, " -> delivered", *serial),
        Outcome::Unknown(serial) => put_message(out, " -> unknown", *serial),
        Outcome::Received {
            result: received,
            ..
        } => put_received(out, received),
    }
}

/// Appends the entry's line. What was there stays, also after an error.
#[tactic(auto, using(crate::proofs::Extended::extension), unfolding(crate::specs::EntryLines::Lines::line_of))]
fn put_entry(out: &mut Vec<u8>, entry: &Entry) -> Result<(), AllocError>
    ensures ok { OnOk result (out.new.items ≡ out.old.items ++ text.line_of entry.now) }
    ensures kept { Extends out.old.items out.new.items }
{
    put_who(out, &entry.event)?;
    put_what(out, &entry.event)?;
    put_outcome(out, &entry.outcome)?;
    put_end(out)
}

/// Appends the line of an entry in a printed journal: who acts, what happens, where the event has an outcome `->` and
/// that outcome, and a newline. Where there is no memory for it, `out` is left as it was.
#[tactic(auto, using(crate::proofs::Extended::extension))]
pub fn entry_line(entry: &Entry, out: &mut Vec<u8>) -> Result<(), NoMemory>
    ensures ok { OnOk result (out.new.items ≡ out.old.items ++ text.line_of entry.now) }
    ensures no_memory { OnErr result (out.new.items ≡ out.old.items) }
{
    let before = out.len();
    if put_entry(out, entry).is_ok() {
        return Ok(());
    }
    out.truncate(before);
    Err(NoMemory)
}
