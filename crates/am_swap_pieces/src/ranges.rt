//! The numbers of what is held fit the bytes that an image has for them, since their types do. Nothing runs here.

ghost use Rattle.am_swap_image.specs.Range.{fits_about, fits_handler, fits_mapping, fits_message, fits_notice, fits_queued, fits_record, fits_serial};
ghost use Rattle.am_model.specs.History.{are_words_in_range, is_byte, is_eight_bytes};
ghost use Rattle.std.specs.List.{list_all};
ghost use Rattle.std.specs.Prelude.{◌≡◌, ◌<◌, ◌^◌, true};

use crate::part::ImagePart;
use am_model::{Awaited, Mapping, Notice, Queued};
use am_names::{Message, Serial, Tag, Words};
use am_office_entries::HandlerKind;

fn serial_in_range(serial: Serial)
    ensures { fits_serial serial ≡ true }
{}

fn about_in_range(about: Option<Serial>)
    ensures { fits_about about ≡ true }
{
    match about {
        None => {}
        Some(request) => serial_in_range(request),
    }
}

fn words_in_range(words: Words)
    ensures { are_words_in_range words ≡ true }
{}

fn byte_in_range(byte: u8)
    ensures { is_byte byte ≡ true }
{}

fn tags_in_range(tag: Tag, reply_tag: Tag)
    ensures tag { is_eight_bytes tag.0 ≡ true }
    ensures reply_tag { is_eight_bytes reply_tag.0 ≡ true }
{}

pub(crate) fn message_in_range(message: Message)
    ensures { fits_message message ≡ true }
{
    serial_in_range(message.serial);
    tags_in_range(message.tag, message.reply_tag);
    byte_in_range(message.handler);
    words_in_range(message.words);
    about_in_range(message.about);
}

pub(crate) fn queued_in_range(queued: Queued)
    ensures { fits_queued queued ≡ true }
{
    message_in_range(queued.message);
}

pub(crate) fn notice_in_range(notice: Notice)
    ensures { fits_notice notice ≡ true }
{
    message_in_range(notice.message);
}

pub(crate) fn mapping_in_range(mapping: Option<Mapping>)
    ensures { fits_mapping mapping ≡ true }
{
    match mapping {
        None => {}
        Some(_) => {}
    }
}

pub(crate) fn record_in_range(record: Awaited)
    ensures { fits_record «record» ≡ true }
{}

pub(crate) fn handler_in_range(handler: Option<HandlerKind>)
    ensures { fits_handler handler ≡ true }
{
    match handler {
        None => {}
        Some(HandlerKind::Note) => {}
        Some(HandlerKind::Echo(_)) => {}
        Some(HandlerKind::Add(_)) => {}
    }
}

/// What a body has once.
pub fn head_in_range(tag: Tag, sum: u64, accepted: u32)
    ensures tag { tag.0 < 2 ^ 64 }
    ensures sum { sum < 2 ^ 64 }
    ensures accepted { accepted < 2 ^ 32 }
{}

/// Each part of a list that is held.
pub fn all_in_range<P: ImagePart>(parts: &[P])
    ensures { list_all P.fits parts.now ≡ true }
{
    for part in parts {
        part.in_range();
    }
}
