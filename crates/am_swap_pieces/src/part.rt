//! The kinds of parts that an image has lists of.

ghost use Rattle.am_swap_pieces.specs.Answers.{Gives};
ghost use Rattle.am_swap_image.specs.Image.{handler_bytes, mapping_bytes, notice_bytes, queued_bytes, received_bytes, record_bytes};
ghost use Rattle.am_swap_image.specs.Range.{fits_handler, fits_mapping, fits_message, fits_notice, fits_queued, fits_record};
ghost use Rattle.am_swap_image.specs.Reading.{Read, handler_at, mapping_at, message_at, notice_at, received_at, record_at};
ghost use Rattle.am_names.specs.declared.EndpointId.{EndpointId as Id};
ghost use Rattle.std.specs.Prelude.{◌≡◌, ◌++◌, ℕ, Bool, true, List, Option, OnOk};

use crate::ranges::{
    handler_in_range, mapping_in_range, message_in_range, notice_in_range, queued_in_range,
    record_in_range,
};
use crate::reading::{
    take_handler, take_mapping, take_message, take_notice, take_received, take_record,
};
use crate::writing::{put_handler, put_mapping, put_notice, put_queued, put_received, put_record};
use am_model::{Awaited, Mapping, Notice, Queued};
use am_names::{EndpointId, Message};
use am_office_entries::HandlerKind;
use std::alloc::AllocError;

/// What an image of the body of an endpoint has lists of.
pub trait ImagePart: Drop {
    /// The bytes of a part.
    ghost text: { Self → List ℕ };

    /// The part that stands at the front of some bytes, in an image of this endpoint's body.
    ghost at: { Id → List ℕ → Read Self };

    /// Whether the numbers of a part take no more bytes than the image has for them.
    ghost fits: { Self → Bool };

    /// A part that is held fits.
    fn in_range(&self)
        ensures { fits self.now ≡ true };

    fn put(&self, out: &mut Vec<u8>) -> Result<(), AllocError>
        ensures { OnOk result (out.new.items ≡ out.old.items ++ text self.now) };

    fn take(id: EndpointId, bytes: &[u8]) -> Option<(Self, &[u8])>
        ensures { Gives (λ x. (x.0, x.1.now)) result (at id bytes.now) };
}

impl ImagePart for Option<Mapping> {
    ghost text = { mapping_bytes };

    ghost at = { λ _. mapping_at };

    ghost fits = { fits_mapping };

    fn in_range(&self) {
        mapping_in_range(*self)
    }

    fn put(&self, out: &mut Vec<u8>) -> Result<(), AllocError> {
        put_mapping(out, self)
    }

    fn take(_id: EndpointId, bytes: &[u8]) -> Option<(Option<Mapping>, &[u8])> {
        take_mapping(bytes)
    }
}

impl ImagePart for Awaited {
    ghost text = { record_bytes };

    ghost at = { record_at };

    ghost fits = { fits_record };

    fn in_range(&self) {
        record_in_range(*self)
    }

    fn put(&self, out: &mut Vec<u8>) -> Result<(), AllocError> {
        put_record(out, self)
    }

    fn take(id: EndpointId, bytes: &[u8]) -> Option<(Awaited, &[u8])> {
        take_record(id, bytes)
    }
}

impl ImagePart for Option<HandlerKind> {
    ghost text = { handler_bytes };

    ghost at = { λ _. handler_at };

    ghost fits = { fits_handler };

    fn in_range(&self) {
        handler_in_range(*self)
    }

    fn put(&self, out: &mut Vec<u8>) -> Result<(), AllocError> {
        put_handler(out, self)
    }

    fn take(_id: EndpointId, bytes: &[u8]) -> Option<(Option<HandlerKind>, &[u8])> {
        take_handler(bytes)
    }
}

impl ImagePart for Queued {
    ghost text = { queued_bytes };

    ghost at = { λ _. message_at };

    ghost fits = { fits_queued };

    fn in_range(&self) {
        queued_in_range(*self)
    }

    fn put(&self, out: &mut Vec<u8>) -> Result<(), AllocError> {
        put_queued(out, self)
    }

    fn take(_id: EndpointId, bytes: &[u8]) -> Option<(Queued, &[u8])> {
        take_message(bytes)
    }
}

impl ImagePart for Notice {
    ghost text = { notice_bytes };

    ghost at = { λ _. notice_at };

    ghost fits = { fits_notice };

    fn in_range(&self) {
        notice_in_range(*self)
    }

    fn put(&self, out: &mut Vec<u8>) -> Result<(), AllocError> {
        put_notice(out, self)
    }

    fn take(_id: EndpointId, bytes: &[u8]) -> Option<(Notice, &[u8])> {
        take_notice(bytes)
    }
}

/// A message that was received.
impl ImagePart for Message {
    ghost text = { received_bytes };

    ghost at = { λ _. received_at };

    ghost fits = { fits_message };

    fn in_range(&self) {
        message_in_range(*self)
    }

    fn put(&self, out: &mut Vec<u8>) -> Result<(), AllocError> {
        put_received(out, self)
    }

    fn take(_id: EndpointId, bytes: &[u8]) -> Option<(Message, &[u8])> {
        take_received(bytes)
    }
}
