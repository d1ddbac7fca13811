//! Which message an entry is about.

ghost use Rattle.am_lab_picture.specs.Abouts as abouts;
ghost use Rattle.std.specs.Prelude.{◌≡◌};

use am_names::{Message, Serial};
use am_office_entries::{Entry, Outcome, given_up_of};

fn about_by(given_up: Option<Serial>, outcome: Outcome) -> Option<Serial>
    ensures { result ≡ abouts.about_by given_up outcome }
{
    match outcome {
        Outcome::Requested(message)
        | Outcome::Ran { message, .. }
        | Outcome::Accepted(message)
        | Outcome::Requeued { message, .. }
        | Outcome::Returned { message, .. }
        | Outcome::Sent { message, .. } => Some(message.serial),
        Outcome::Zero { serial, .. } | Outcome::Delivered(serial) | Outcome::Unknown(serial) => {
            Some(serial)
        }
        Outcome::Received { result, .. } => result.about(),
        Outcome::Silent
        | Outcome::Done
        | Outcome::Refused(_)
        | Outcome::Blocked
        | Outcome::Empty
        | Outcome::Ready
        | Outcome::Quiet
        | Outcome::Failed => given_up,
    }
}

/// The message that an entry is about, if it names one.
pub(crate) fn about_of(entry: &Entry) -> Option<Serial>
    ensures { result ≡ abouts.about_of entry.now }
{
    about_by(given_up_of(entry), entry.outcome)
}

fn sent_serial(sends: Option<Message>) -> Option<Serial>
    ensures { result ≡ abouts.sent_serial sends }
{
    match sends {
        Some(message) => Some(message.serial),
        None => None,
    }
}

/// The reply that a run makes, if it makes one.
pub(crate) fn reply_of(entry: &Entry) -> Option<Serial>
    ensures { result ≡ abouts.reply_of entry.now }
{
    match entry.outcome {
        Outcome::Ran { sends, .. } => sent_serial(sends),
        _ => None,
    }
}
