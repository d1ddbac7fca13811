//! Where a message is of which nothing came before the end of the journal.

ghost use Rattle.am_lab_reasons.specs.Whereabouts.{at_if, moved_by, moved_in, next_place, where_is};
ghost use Rattle.std.specs.Prelude.{◌≡◌};

use am_names::Serial;
use am_office_entries::{Entry, Outcome, Received};

/// Where an accepted message is.
#[derive(Clone, Copy)]
pub(crate) enum Whereabouts {
    /// It waits to be sent.
    Waiting,
    /// It was sent, and no answer has come.
    Underway,
    /// It was put back, to be sent again.
    PutBack,
    /// It was put at its destination, where a poll may run it.
    Put,
}

fn at_if(test: bool, place: Whereabouts) -> Option<Whereabouts>
    ensures { result ≡ at_if test place }
{
    if test { Some(place) } else { None }
}

fn moved_in(serial: Serial, got: Received) -> Option<Whereabouts>
    ensures { result ≡ moved_in serial got }
{
    match got {
        Received::Accepted { message, .. } => at_if(serial == message.serial, Whereabouts::Put),
        Received::Requeued { serial: other, .. } => at_if(serial == other, Whereabouts::PutBack),
        Received::Refused { .. }
        | Received::Again { .. }
        | Received::Stale
        | Received::Delivered(_)
        | Received::Returned { .. }
        | Received::Nothing => None,
    }
}

// Where the message is behind an entry with this outcome, if that moves it.
fn moved_by(serial: Serial, outcome: Outcome) -> Option<Whereabouts>
    ensures { result ≡ moved_by serial outcome }
{
    match outcome {
        Outcome::Sent { message, .. } => at_if(serial == message.serial, Whereabouts::Underway),
        Outcome::Accepted(message) => at_if(serial == message.serial, Whereabouts::Put),
        Outcome::Requeued { message, .. } => {
            at_if(serial == message.serial, Whereabouts::PutBack)
        }
        Outcome::Received { result: got, .. } => moved_in(serial, got),
        Outcome::Silent
        | Outcome::Done
        | Outcome::Requested(_)
        | Outcome::Refused(_)
        | Outcome::Zero { .. }
        | Outcome::Ran { .. }
        | Outcome::Blocked
        | Outcome::Empty
        | Outcome::Ready
        | Outcome::Quiet
        | Outcome::Failed
        | Outcome::Returned { .. }
        | Outcome::Delivered(_)
        | Outcome::Unknown(_) => None,
    }
}

// Once put, a message stays where it is, though it may be sent again.
fn next_place(place: Whereabouts, moved: Option<Whereabouts>) -> Whereabouts
    ensures { result ≡ next_place place moved }
{
    match place {
        Whereabouts::Put => Whereabouts::Put,
        _ => moved.unwrap_or(place),
    }
}

/// Where a message is behind these entries, one of which accepts it.
#[tactic(auto, unfolding(crate::specs::Whereabouts::where_from))]
pub(crate) fn where_is(entries: &[Entry], serial: Serial) -> Whereabouts
    ensures { result ≡ where_is entries.now serial }
{
    let mut place = Whereabouts::Waiting;
    for entry in entries {
        place = next_place(place, moved_by(serial, entry.outcome));
    }
    place
}
