//! The parts of an image, written at the end of what stands there.

ghost use Rattle.am_swap_image.specs.Image.{about_bytes, byte, long, short, cause_number, handler_bytes, kind_number, magic, mapping_bytes, message_bytes, notice_bytes, queued_bytes, received_bytes, record_bytes, serial_bytes, state_number, why_number, words_bytes};
ghost use Rattle.std.specs.Prelude.{◌≡◌, ◌++◌, OnOk};

use am_model::{Awaited, Mapping, Notice, Queued};
use am_names::{Cause, Message, MsgKind, Serial, Why, Words};
use am_office_entries::HandlerKind;
use std::alloc::AllocError;

fn kind_number(kind: MsgKind) -> u8
    ensures { result ≡ kind_number kind }
{
    match kind {
        MsgKind::Request => 0,
        MsgKind::Reply => 1,
        MsgKind::Empty => 2,
    }
}

fn cause_number(cause: Cause) -> u8
    ensures { result ≡ cause_number cause }
{
    match cause {
        Cause::NoEndpoint => 1,
        Cause::NotResident => 2,
        Cause::BadTag => 3,
        Cause::BadHandler => 4,
        Cause::QueueFull => 5,
        Cause::NoRequest => 6,
    }
}

fn why_number(why: Why) -> u8
    ensures { result ≡ why_number why }
{
    match why {
        Why::Unknown => 0,
        Why::Refused(cause) => cause_number(cause),
    }
}

fn state_number(arrived: bool) -> u8
    ensures { result ≡ state_number arrived }
{
    match arrived {
        false => 0,
        true => 1,
    }
}

pub(crate) fn put_byte(out: &mut Vec<u8>, number: u8) -> Result<(), AllocError>
    ensures { OnOk result (out.new.items ≡ out.old.items ++ byte number) }
{
    out.push(number)?;
    Ok(())
}

pub fn put_short(out: &mut Vec<u8>, number: u32) -> Result<(), AllocError>
    ensures { OnOk result (out.new.items ≡ out.old.items ++ short number) }
{
    out.extend_from_slice(&number.to_be_bytes())
}

pub fn put_long(out: &mut Vec<u8>, number: u64) -> Result<(), AllocError>
    ensures { OnOk result (out.new.items ≡ out.old.items ++ long number) }
{
    out.extend_from_slice(&number.to_be_bytes())
}

/// The letters AM2I, and the version.
pub fn put_magic(out: &mut Vec<u8>) -> Result<(), AllocError>
    ensures { OnOk result (out.new.items ≡ out.old.items ++ magic) }
{
    out.extend_from_slice(b"AM2I\x01")
}

fn put_kind(out: &mut Vec<u8>, kind: MsgKind) -> Result<(), AllocError>
    ensures { OnOk result (out.new.items ≡ out.old.items ++ byte (kind_number kind)) }
{
    put_byte(out, kind_number(kind))
}

fn put_serial(out: &mut Vec<u8>, serial: Serial) -> Result<(), AllocError>
    ensures { OnOk result (out.new.items ≡ out.old.items ++ serial_bytes serial) }
{
    out.push(serial.source.0)?;
    put_short(out, serial.count)?;
    Ok(())
}

fn put_words(out: &mut Vec<u8>, words: Words) -> Result<(), AllocError>
    ensures { OnOk result (out.new.items ≡ out.old.items ++ words_bytes words) }
{
    put_long(out, words.a)?;
    put_long(out, words.b)?;
    put_long(out, words.c)?;
    put_long(out, words.d)?;
    Ok(())
}

fn put_about(out: &mut Vec<u8>, about: Option<Serial>) -> Result<(), AllocError>
    ensures { OnOk result (out.new.items ≡ out.old.items ++ about_bytes about) }
{
    match about {
        None => out.push(0)?,
        Some(request) => {
            out.push(1)?;
            put_serial(out, request)?;
        }
    }
    Ok(())
}

fn put_message(out: &mut Vec<u8>, message: &Message, bounces: u8) -> Result<(), AllocError>
    ensures { OnOk result (out.new.items ≡ out.old.items ++ message_bytes message.now bounces) }
{
    put_serial(out, message.serial)?;
    put_kind(out, message.kind)?;
    put_byte(out, message.dest.0)?;
    put_long(out, message.tag.0)?;
    put_byte(out, message.handler)?;
    put_words(out, message.words)?;
    put_long(out, message.reply_tag.0)?;
    put_about(out, message.about)?;
    put_byte(out, bounces)?;
    Ok(())
}

/// A message that is queued to be sent.
pub(crate) fn put_queued(out: &mut Vec<u8>, queued: &Queued) -> Result<(), AllocError>
    ensures { OnOk result (out.new.items ≡ out.old.items ++ queued_bytes queued.now) }
{
    put_message(out, &queued.message, queued.bounces)
}

/// A message that came back.
pub(crate) fn put_notice(out: &mut Vec<u8>, notice: &Notice) -> Result<(), AllocError>
    ensures { OnOk result (out.new.items ≡ out.old.items ++ notice_bytes notice.now) }
{
    put_message(out, &notice.message, notice.bounces)?;
    out.push(why_number(notice.why))?;
    Ok(())
}

/// A message that was received.
pub(crate) fn put_received(out: &mut Vec<u8>, message: &Message) -> Result<(), AllocError>
    ensures { OnOk result (out.new.items ≡ out.old.items ++ received_bytes message.now) }
{
    put_message(out, message, 0)
}

/// What an index is mapped to.
pub(crate) fn put_mapping(out: &mut Vec<u8>, mapping: &Option<Mapping>) -> Result<(), AllocError>
    ensures { OnOk result (out.new.items ≡ out.old.items ++ mapping_bytes mapping.now) }
{
    match mapping {
        None => out.push(0)?,
        Some(mapping) => {
            out.push(1)?;
            out.push(mapping.name.0)?;
            put_long(out, mapping.tag.0)?;
            out.push(mapping.credits)?;
        }
    }
    Ok(())
}

/// The record of a request.
pub(crate) fn put_record(out: &mut Vec<u8>, record: &Awaited) -> Result<(), AllocError>
    ensures { OnOk result (out.new.items ≡ out.old.items ++ record_bytes «record».now) }
{
    out.push(record.index)?;
    put_short(out, record.serial.count)?;
    out.push(state_number(record.arrived))?;
    Ok(())
}

/// What a handler does, if it is set.
pub(crate) fn put_handler(
    out: &mut Vec<u8>,
    handler: &Option<HandlerKind>,
) -> Result<(), AllocError>
    ensures { OnOk result (out.new.items ≡ out.old.items ++ handler_bytes handler.now) }
{
    match handler {
        None => out.push(0)?,
        Some(HandlerKind::Note) => out.push(1)?,
        Some(HandlerKind::Echo(to)) => {
            out.push(2)?;
            out.push(*to)?;
        }
        Some(HandlerKind::Add(to)) => {
            out.push(3)?;
            out.push(*to)?;
        }
    }
    Ok(())
}
