//! The machine: what each entry of a journal does, and which journals are histories.
#![tactic(auto)]

ghost use Rattle.am_model.specs.DelayedTry as delayed;
ghost use Rattle.am_office_entries.specs.Fates.{fate};
ghost use Rattle.am_model.specs.Merge.{is_ordered};
ghost use Rattle.am_model.specs.FullQueue as full;
ghost use Rattle.am_model.specs.History.{EachAfter, IsHistory};
ghost use Rattle.am_model.specs.PostOffice.{IsAcceptedAsAsked, IsPutAndRunFirst};
ghost use Rattle.am_model.specs.ThinPath as thin;
ghost use Rattle.std.specs.Prelude.{◌≡◌, [], Some, true};

use am_names::{EndpointId, Message, Serial, Tag, Why};
use am_office_entries::{Condition, Fate, Part, Place};

mod limits;
mod places;
mod ranges;

pub use limits::{judged, may_bounce};
pub use places::{is_in_a_frame, is_in_frame, is_on_disk, is_on_host, is_resident};
pub use ranges::{are_credits_in_range, is_kind_in_range, sum_of_shares};

/// Where the requests of an index go, under which tag, and how many may be out: its credits, or
/// its least share where the endpoint has a pool.
#[derive(Clone, Copy, PartialEq, Eq)]
pub struct Mapping {
    pub name: EndpointId,
    pub tag: Tag,
    pub credits: u8,
}

/// A request whose reply is awaited, or has arrived and not run.
#[derive(Clone, Copy, PartialEq, Eq)]
pub struct Awaited {
    pub index: u8,
    pub serial: Serial,
    pub arrived: bool,
}

/// A message that is queued to be sent, and how often it bounced.
#[derive(Clone, Copy, PartialEq, Eq)]
pub struct Queued {
    pub message: Message,
    pub bounces: u8,
}

/// A message that is in flight, how often it bounced, and whether a reply to it was put.
#[derive(Clone, Copy, PartialEq, Eq)]
pub struct Flying {
    pub message: Message,
    pub bounces: u8,
    pub answered: bool,
}

/// A message that came back, how often it bounced, and why.
#[derive(Clone, Copy, PartialEq, Eq)]
pub struct Notice {
    pub message: Message,
    pub bounces: u8,
    pub why: Why,
}

/// Why no entry was made of an event. All is as it was before the event.
#[derive(Clone, Copy, PartialEq, Eq, Debug)]
pub enum EntryFault {
    /// The event can't happen: this is the first of its conditions that doesn't hold.
    NotEnabled(Condition),
    /// The event can happen, and this log that its entry would go into has as many entries as it may: an endpoint's
    /// before an interface's, each by number.
    LogFull(Part),
    /// There is no memory for one more entry.
    NoMemory,
}

/// What is known of an endpoint wherever it lies.
#[derive(Clone, Copy, PartialEq, Eq)]
pub struct Head {
    pub place: Place,
    pub wanted: bool,
    pub draining: bool,
    pub closed: bool,
}

/// The shortest journal in which a message runs is a history.
pub fn thin_path()
    ensures { IsHistory thin.layout thin.journal }
{}

/// In it the message ran, and the empty reply is on its way.
pub fn thin_fates()
    ensures request { fate thin.journal thin.request.serial ≡ Some Fate.Ran }
    ensures reply { fate thin.journal thin.empty_reply.serial ≡ Some Fate.Pending }
    ensures asked { EachAfter (IsAcceptedAsAsked thin.layout) [] thin.journal }
    ensures taken { EachAfter (IsPutAndRunFirst thin.layout) [] thin.journal }
    ensures ordered { is_ordered thin.journal ≡ true }
{}

/// A delayed earlier try does nothing.
pub fn delayed_try()
    ensures { IsHistory delayed.layout delayed.journal }
{}

/// A full queue takes no more.
pub fn full_queue()
    ensures { IsHistory thin.layout full.journal }
{}
