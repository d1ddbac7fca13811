//! Which entries touch a message.

ghost use Rattle.am_lab_reasons.specs.Touches.{is_reply, names, touches};
ghost use Rattle.am_office_entries.specs.Entries.{is_serial};
ghost use Rattle.std.specs.Prelude.{◌≡◌};

use am_names::{Message, Serial};
use am_office_entries::{Entry, Outcome, given_up_of};

fn is_serial(serial: Serial, other: Option<Serial>) -> bool
    ensures { result ≡ is_serial serial other }
{
    match other {
        Some(other) => serial == other,
        None => false,
    }
}

fn is_reply(serial: Serial, sends: Option<Message>) -> bool
    ensures { result ≡ is_reply serial sends }
{
    match sends {
        Some(reply) => serial == reply.serial,
        None => false,
    }
}

// Whether what came of an event names the message.
fn names(serial: Serial, outcome: Outcome) -> bool
    ensures { result ≡ names serial outcome }
{
    match outcome {
        Outcome::Ran { message, sends, .. } => {
            serial == message.serial || is_reply(serial, sends)
        }
        Outcome::Requested(message)
        | Outcome::Accepted(message)
        | Outcome::Requeued { message, .. }
        | Outcome::Returned { message, .. }
        | Outcome::Sent { message, .. } => serial == message.serial,
        Outcome::Zero { serial: other, .. } | Outcome::Delivered(other) | Outcome::Unknown(other) =>
            serial == other,
        Outcome::Received { result, .. } => is_serial(serial, result.about()),
        Outcome::Silent
        | Outcome::Done
        | Outcome::Refused(_)
        | Outcome::Blocked
        | Outcome::Empty
        | Outcome::Ready
        | Outcome::Quiet
        | Outcome::Failed => false,
    }
}

/// Whether an entry touches a message.
pub(crate) fn touches(serial: Serial, entry: &Entry) -> bool
    ensures { result ≡ touches serial entry.now }
{
    names(serial, entry.outcome) || is_serial(serial, given_up_of(entry))
}
