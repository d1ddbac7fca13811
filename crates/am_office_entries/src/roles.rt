//! What an entry does to a message.

ghost use Rattle.std.specs.Prelude.{◌≡◌};
ghost use Rattle.am_office_entries.specs.Entries as does;

use crate::{Call, Entry, Event, Outcome, Received};
use am_names::{Cause, Message, Serial};

/// The message that an entry accepts.
pub fn accepted_of(entry: &Entry) -> Option<Message>
    ensures { result ≡ does.accepted_of entry.now }
{
    match (entry.event, entry.outcome) {
        (
            Event::Call {
                call: Call::Request { .. },
                ..
            },
            Outcome::Requested(message),
        ) => Some(message),
        (
            Event::Call {
                call: Call::Poll,
                ..
            },
            Outcome::Ran { sends, .. },
        ) => sends,
        _ => None,
    }
}

/// The message that an entry runs.
pub fn run_of(entry: &Entry) -> Option<Message>
    ensures { result ≡ does.run_of entry.now }
{
    match (entry.event, entry.outcome) {
        (
            Event::Call {
                call: Call::Poll,
                ..
            },
            Outcome::Ran { message, .. },
        ) => Some(message),
        _ => None,
    }
}

/// The serial that an entry leaves unknown.
pub fn unknown_of(entry: &Entry) -> Option<Serial>
    ensures { result ≡ does.unknown_of entry.now }
{
    match (entry.event, entry.outcome) {
        (Event::Expire { .. }, Outcome::Unknown(serial)) => Some(serial),
        _ => None,
    }
}

/// The serial that an entry returns, and its cause.
pub fn return_of(entry: &Entry) -> Option<(Serial, Cause)>
    ensures { result ≡ does.return_of entry.now }
{
    match (entry.event, entry.outcome) {
        (Event::Carry { .. }, Outcome::Returned { message, cause }) => Some((
            message.serial,
            cause,
        )),
        (
            Event::Receive { .. },
            Outcome::Received {
                result: received,
                ..
            },
        ) => match received {
            Received::Returned { serial, cause } => Some((serial, cause)),
            _ => None,
        },
        _ => None,
    }
}

/// The serial whose waiting record an entry drops.
pub fn given_up_of(entry: &Entry) -> Option<Serial>
    ensures { result ≡ does.given_up_of entry.now }
{
    match (entry.event, entry.outcome) {
        (
            Event::Call {
                call: Call::GiveUp(serial),
                ..
            },
            Outcome::Done,
        ) => Some(serial),
        _ => None,
    }
}
