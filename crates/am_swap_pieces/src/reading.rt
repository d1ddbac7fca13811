//! The parts of an image, read from the front of some bytes, with the bytes behind them.

ghost use Rattle.am_swap_pieces.specs.Answers.{Gives};
ghost use Rattle.am_swap_image.specs.Reading.{about_at, add_at, byte_at, echo_at, handler_at, handler_by, kind_of, long_at, magic_at, mapping_at, message_at, notice_at, received_at, record_at, serial_at, short_at, some_mapping_at, some_serial_at, state_of, why_of, words_at};
ghost use Rattle.std.specs.Prelude.{◌≡◌};

use am_model::{Awaited, Mapping, Notice, Queued};
use am_names::{Cause, EndpointId, Message, MsgKind, Serial, Tag, Why, Words};
use am_office_entries::HandlerKind;

#[tactic(auto, unfolding(am_swap_image::specs::Reading::byte_at))]
pub(crate) fn take_byte(bytes: &[u8]) -> Option<(u8, &[u8])>
    ensures { Gives (λ x. (x.0, x.1.now)) result (byte_at bytes.now) }
{
    match bytes {
        [] => None,
        [first, rest @ ..] => Some((*first, rest)),
    }
}

#[tactic(auto, unfolding(am_swap_image::specs::Reading::short_at))]
pub fn take_short(bytes: &[u8]) -> Option<(u32, &[u8])>
    ensures { Gives (λ x. (x.0, x.1.now)) result (short_at bytes.now) }
{
    if bytes.len() < 4 {
        return None;
    }
    let (front, rest) = bytes.split_at(4);
    let number = u32::from_be_bytes([front[0], front[1], front[2], front[3]]);
    Some((number, rest))
}

#[tactic(auto, unfolding(am_swap_image::specs::Reading::long_at))]
pub fn take_long(bytes: &[u8]) -> Option<(u64, &[u8])>
    ensures { Gives (λ x. (x.0, x.1.now)) result (long_at bytes.now) }
{
    if bytes.len() < 8 {
        return None;
    }
    let (front, rest) = bytes.split_at(8);
    let number = u64::from_be_bytes([
        front[0], front[1], front[2], front[3], front[4], front[5], front[6], front[7],
    ]);
    Some((number, rest))
}

#[tactic(auto, unfolding(am_swap_image::specs::Reading::serial_at))]
fn take_serial(bytes: &[u8]) -> Option<(Serial, &[u8])>
    ensures { Gives (λ x. (x.0, x.1.now)) result (serial_at bytes.now) }
{
    let (source, rest) = take_byte(bytes)?;
    let (count, rest) = take_short(rest)?;
    let source = EndpointId(source);
    Some((Serial { source, count }, rest))
}

#[tactic(auto, unfolding(am_swap_image::specs::Reading::words_at))]
fn take_words(bytes: &[u8]) -> Option<(Words, &[u8])>
    ensures { Gives (λ x. (x.0, x.1.now)) result (words_at bytes.now) }
{
    let (a, rest) = take_long(bytes)?;
    let (b, rest) = take_long(rest)?;
    let (c, rest) = take_long(rest)?;
    let (d, rest) = take_long(rest)?;
    Some((Words { a, b, c, d }, rest))
}

#[tactic(auto, unfolding(am_swap_image::specs::Reading::some_serial_at))]
fn take_some_serial(bytes: &[u8]) -> Option<(Option<Serial>, &[u8])>
    ensures { Gives (λ x. (x.0, x.1.now)) result (some_serial_at bytes.now) }
{
    let (request, rest) = take_serial(bytes)?;
    Some((Some(request), rest))
}

#[tactic(auto, unfolding(am_swap_image::specs::Reading::about_at))]
fn take_about(bytes: &[u8]) -> Option<(Option<Serial>, &[u8])>
    ensures { Gives (λ x. (x.0, x.1.now)) result (about_at bytes.now) }
{
    let (mark, rest) = take_byte(bytes)?;
    match mark {
        0 => Some((None, rest)),
        1 => take_some_serial(rest),
        _ => None,
    }
}

#[tactic(auto, unfolding(am_swap_image::specs::Reading::kind_of))]
fn kind_of(number: u8) -> Option<MsgKind>
    ensures { result ≡ kind_of number }
{
    match number {
        0 => Some(MsgKind::Request),
        1 => Some(MsgKind::Reply),
        2 => Some(MsgKind::Empty),
        _ => None,
    }
}

#[tactic(auto, unfolding(am_swap_image::specs::Reading::why_of))]
fn why_of(number: u8) -> Option<Why>
    ensures { result ≡ why_of number }
{
    match number {
        0 => Some(Why::Unknown),
        1 => Some(Why::Refused(Cause::NoEndpoint)),
        2 => Some(Why::Refused(Cause::NotResident)),
        3 => Some(Why::Refused(Cause::BadTag)),
        4 => Some(Why::Refused(Cause::BadHandler)),
        5 => Some(Why::Refused(Cause::QueueFull)),
        6 => Some(Why::Refused(Cause::NoRequest)),
        _ => None,
    }
}

#[tactic(auto, unfolding(am_swap_image::specs::Reading::state_of))]
fn state_of(number: u8) -> Option<bool>
    ensures { result ≡ state_of number }
{
    match number {
        0 => Some(false),
        1 => Some(true),
        _ => None,
    }
}

/// A message with its bounces.
#[tactic(auto, unfolding(am_swap_image::specs::Reading::message_at))]
pub(crate) fn take_message(bytes: &[u8]) -> Option<(Queued, &[u8])>
    ensures { Gives (λ x. (x.0, x.1.now)) result (message_at bytes.now) }
{
    let (serial, rest) = take_serial(bytes)?;
    let (number, rest) = take_byte(rest)?;
    let kind = kind_of(number)?;
    let (dest, rest) = take_byte(rest)?;
    let (tag, rest) = take_long(rest)?;
    let (handler, rest) = take_byte(rest)?;
    let (words, rest) = take_words(rest)?;
    let (reply_tag, rest) = take_long(rest)?;
    let (about, rest) = take_about(rest)?;
    let (bounces, rest) = take_byte(rest)?;
    let message = Message {
        serial,
        kind,
        dest: EndpointId(dest),
        tag: Tag(tag),
        reply_tag: Tag(reply_tag),
        handler,
        words,
        about,
    };
    Some((Queued { message, bounces }, rest))
}

/// A message that came back.
#[tactic(auto, unfolding(am_swap_image::specs::Reading::notice_at))]
pub(crate) fn take_notice(bytes: &[u8]) -> Option<(Notice, &[u8])>
    ensures { Gives (λ x. (x.0, x.1.now)) result (notice_at bytes.now) }
{
    let (came, rest) = take_message(bytes)?;
    let (number, rest) = take_byte(rest)?;
    let why = why_of(number)?;
    let notice = Notice {
        message: came.message,
        bounces: came.bounces,
        why,
    };
    Some((notice, rest))
}

/// A message that was received, which didn't bounce.
#[tactic(auto, unfolding(am_swap_image::specs::Reading::received_at))]
pub(crate) fn take_received(bytes: &[u8]) -> Option<(Message, &[u8])>
    ensures { Gives (λ x. (x.0, x.1.now)) result (received_at bytes.now) }
{
    let (came, rest) = take_message(bytes)?;
    if came.bounces == 0 {
        Some((came.message, rest))
    } else {
        None
    }
}

#[tactic(auto, unfolding(am_swap_image::specs::Reading::some_mapping_at))]
fn take_some_mapping(bytes: &[u8]) -> Option<(Option<Mapping>, &[u8])>
    ensures { Gives (λ x. (x.0, x.1.now)) result (some_mapping_at bytes.now) }
{
    let (name, rest) = take_byte(bytes)?;
    let (tag, rest) = take_long(rest)?;
    let (credits, rest) = take_byte(rest)?;
    let mapping = Mapping {
        name: EndpointId(name),
        tag: Tag(tag),
        credits,
    };
    Some((Some(mapping), rest))
}

/// What an index is mapped to.
#[tactic(auto, unfolding(am_swap_image::specs::Reading::mapping_at))]
pub(crate) fn take_mapping(bytes: &[u8]) -> Option<(Option<Mapping>, &[u8])>
    ensures { Gives (λ x. (x.0, x.1.now)) result (mapping_at bytes.now) }
{
    let (mark, rest) = take_byte(bytes)?;
    match mark {
        0 => Some((None, rest)),
        1 => take_some_mapping(rest),
        _ => None,
    }
}

/// The record of a request of this endpoint.
#[tactic(auto, unfolding(am_swap_image::specs::Reading::record_at))]
pub(crate) fn take_record(id: EndpointId, bytes: &[u8]) -> Option<(Awaited, &[u8])>
    ensures { Gives (λ x. (x.0, x.1.now)) result (record_at id bytes.now) }
{
    let (index, rest) = take_byte(bytes)?;
    let (count, rest) = take_short(rest)?;
    let (number, rest) = take_byte(rest)?;
    let arrived = state_of(number)?;
    let serial = Serial { source: id, count };
    let record = Awaited {
        index,
        serial,
        arrived,
    };
    Some((record, rest))
}

#[tactic(auto, unfolding(am_swap_image::specs::Reading::echo_at))]
fn take_echo(bytes: &[u8]) -> Option<(Option<HandlerKind>, &[u8])>
    ensures { Gives (λ x. (x.0, x.1.now)) result (echo_at bytes.now) }
{
    let (to, rest) = take_byte(bytes)?;
    Some((Some(HandlerKind::Echo(to)), rest))
}

#[tactic(auto, unfolding(am_swap_image::specs::Reading::add_at))]
fn take_add(bytes: &[u8]) -> Option<(Option<HandlerKind>, &[u8])>
    ensures { Gives (λ x. (x.0, x.1.now)) result (add_at bytes.now) }
{
    let (to, rest) = take_byte(bytes)?;
    Some((Some(HandlerKind::Add(to)), rest))
}

#[tactic(auto, unfolding(am_swap_image::specs::Reading::handler_by))]
fn handler_by(mark: u8, rest: &[u8]) -> Option<(Option<HandlerKind>, &[u8])>
    ensures { Gives (λ x. (x.0, x.1.now)) result (handler_by mark rest.now) }
{
    match mark {
        0 => Some((None, rest)),
        1 => Some((Some(HandlerKind::Note), rest)),
        2 => take_echo(rest),
        3 => take_add(rest),
        _ => None,
    }
}

/// What a handler does, if it is set.
#[tactic(auto, unfolding(am_swap_image::specs::Reading::handler_at))]
pub(crate) fn take_handler(bytes: &[u8]) -> Option<(Option<HandlerKind>, &[u8])>
    ensures { Gives (λ x. (x.0, x.1.now)) result (handler_at bytes.now) }
{
    let (mark, rest) = take_byte(bytes)?;
    handler_by(mark, rest)
}

/// The bytes behind the letters AM2I and the version.
#[tactic(auto, unfolding(am_swap_image::specs::Reading::magic_at))]
pub fn take_magic(bytes: &[u8]) -> Option<&[u8]>
    ensures { Gives (λ x. x.now) result (magic_at bytes.now) }
{
    if bytes.starts_with(b"AM2I\x01") {
        Some(&bytes[5..])
    } else {
        None
    }
}
