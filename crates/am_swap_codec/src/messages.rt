//! Tests of messages.

ghost use Rattle.am_swap_codec.specs.Tests.{answers_expected, is_answered_once, is_expected};
ghost use Rattle.am_office_entries.specs.Entries.{is_serial};
ghost use Rattle.am_model.specs.Valid.{answers, has_arrived, is_own, is_own_answer, is_own_notice, is_own_request, is_received_here};
ghost use Rattle.am_names.specs.Names.{same_end};
ghost use Rattle.std.specs.List.{list_any};
ghost use Rattle.std.specs.Prelude.{◌≡◌, count_by};

use am_model::{Awaited, Notice, Queued};
use am_names::{EndpointId, Message, Serial};

fn is_own(id: EndpointId, accepted: u32, message: &Message, bounces: u8) -> bool
    ensures { result ≡ is_own id accepted message.now bounces }
{
    id.0 == message.serial.source.0
        && 1 <= message.serial.count
        && message.serial.count <= accepted
        && message.is_well_formed()
        && bounces <= 16
}

/// Whether it is a request that the endpoint accepted.
pub(crate) fn is_own_request(id: EndpointId, accepted: u32, queued: &Queued) -> bool
    ensures { result ≡ is_own_request id accepted queued.now }
{
    queued.message.is_request() && is_own(id, accepted, &queued.message, queued.bounces)
}

/// Whether it is a reply or an empty reply that the endpoint accepted.
pub(crate) fn is_own_answer(id: EndpointId, accepted: u32, queued: &Queued) -> bool
    ensures { result ≡ is_own_answer id accepted queued.now }
{
    queued.message.is_reply() && is_own(id, accepted, &queued.message, queued.bounces)
}

/// Whether it is of a message that the endpoint accepted.
pub(crate) fn is_own_notice(id: EndpointId, accepted: u32, notice: &Notice) -> bool
    ensures { result ≡ is_own_notice id accepted notice.now }
{
    is_own(id, accepted, &notice.message, notice.bounces)
}

fn is_here(id: EndpointId, dest: EndpointId) -> bool
    ensures { result ≡ same_end id dest }
{
    id.0 == dest.0
}

/// Whether a message may have been received here.
pub(crate) fn is_received_here(id: EndpointId, message: &Message) -> bool
    ensures { result ≡ is_received_here id message.now }
{
    is_here(id, message.dest) && message.is_well_formed()
}

fn has_arrived(request: Serial, record: &Awaited) -> bool
    ensures { result ≡ has_arrived request «record».now }
{
    request == record.serial && record.arrived
}

fn any_arrived(awaited: &[Awaited], request: Serial) -> bool
    ensures { result ≡ list_any (has_arrived request) awaited.now }
{
    awaited.iter().any(|record| has_arrived(request, record))
}

fn is_expected(awaited: &[Awaited], about: Option<Serial>) -> bool
    ensures { result ≡ is_expected awaited.now about }
{
    match about {
        None => false,
        Some(request) => any_arrived(awaited, request),
    }
}

/// Whether the message is a request, or the record of the request that it answers has arrived.
pub(crate) fn answers_expected(awaited: &[Awaited], message: &Message) -> bool
    ensures { result ≡ answers_expected awaited.now message.now }
{
    !message.is_reply() || is_expected(awaited, message.about)
}

fn is_serial(request: Serial, about: Option<Serial>) -> bool
    ensures { result ≡ is_serial request about }
{
    match about {
        None => false,
        Some(about) => request == about,
    }
}

fn answers(request: Serial, message: &Message) -> bool
    ensures { result ≡ answers request message.now }
{
    message.is_reply() && is_serial(request, message.about)
}

fn answers_to(received: &[Message], request: Serial) -> usize
    ensures { result ≡ count_by (answers request) received.now }
{
    received
        .iter()
        .filter(|message| answers(request, message))
        .count()
}

/// Whether the record waits, or one answer to its request was received.
pub(crate) fn is_answered_once(received: &[Message], record: &Awaited) -> bool
    ensures { result ≡ is_answered_once received.now «record».now }
{
    !record.arrived || answers_to(received, record.serial) == 1
}
