//! The classes that the style sheet gives colours to, and how lines are dashed.

ghost use Rattle.std.specs.Prelude.{◌≡◌};
ghost use Rattle.am_lab_picture.specs.Layout.Words as words;

use crate::{Named, Residency};
use am_names::{MsgKind, Packet};
use am_office_entries::Fate;

/// The class of a fate.
#[tactic(auto, unfolding(crate::specs::Layout::Words::fate_class))]
pub fn fate_class(fate: Option<Fate>) -> &'static str
    ensures { result.now ≡ words.fate_class fate }
{
    match fate {
        None => "plain",
        Some(Fate::Ran) => "ran",
        Some(Fate::Returned(_)) => "returned",
        Some(Fate::Unknown) => "unknown",
        Some(Fate::UnknownButRan) => "unknown-but-ran",
        Some(Fate::Pending) => "pending",
    }
}

/// The class of a message, by its fate.
pub fn class_of(about: Option<Named>) -> &'static str
    ensures { result.now ≡ words.class_of about }
{
    match about {
        None => "plain",
        Some(about) => fate_class(about.fate),
    }
}

/// The sign of a fate.
#[tactic(auto, unfolding(crate::specs::Layout::Words::fate_sign))]
pub fn fate_sign(fate: Option<Fate>) -> &'static str
    ensures { result.now ≡ words.fate_sign fate }
{
    match fate {
        None => "#no-fate",
        Some(Fate::Ran) => "#fate-ran",
        Some(Fate::Returned(_)) => "#fate-returned",
        Some(Fate::Unknown) => "#fate-unknown",
        Some(Fate::UnknownButRan) => "#fate-unknown-but-ran",
        Some(Fate::Pending) => "#fate-pending",
    }
}

#[tactic(auto, unfolding(crate::specs::Layout::Words::fate_head))]
fn fate_head(fate: Option<Fate>) -> &'static str
    ensures { result.now ≡ words.fate_head fate }
{
    match fate {
        None => "url(#head-plain)",
        Some(Fate::Ran) => "url(#head-ran)",
        Some(Fate::Returned(_)) => "url(#head-returned)",
        Some(Fate::Unknown) => "url(#head-unknown)",
        Some(Fate::UnknownButRan) => "url(#head-unknown-but-ran)",
        Some(Fate::Pending) => "url(#head-pending)",
    }
}

/// The arrow head of a message, by its fate.
pub fn head_of(about: Option<Named>) -> &'static str
    ensures { result.now ≡ words.head_of about }
{
    match about {
        None => "url(#head-plain)",
        Some(about) => fate_head(about.fate),
    }
}

#[tactic(auto, unfolding(crate::specs::Layout::Words::kind_dashes))]
fn kind_dashes(kind: MsgKind) -> &'static str
    ensures { result.now ≡ words.kind_dashes kind }
{
    match kind {
        MsgKind::Request => "none",
        MsgKind::Reply => "9 3",
        MsgKind::Empty => "9 3",
    }
}

/// How the line of a packet is dashed.
pub fn packet_dashes(packet: Packet) -> &'static str
    ensures { result.now ≡ words.packet_dashes packet }
{
    match packet {
        Packet::Parcel(parcel) => kind_dashes(parcel.message.kind),
        Packet::Answer(_) => "2 3",
    }
}

/// How full a line is drawn that counts, or that doesn't.
#[tactic(auto, unfolding(crate::specs::Layout::Words::opacity))]
pub fn opacity(counts: bool) -> &'static str
    ensures { result.now ≡ words.opacity counts }
{
    if counts { "1" } else { "0.4" }
}

/// The class of a place.
#[tactic(auto, unfolding(crate::specs::Layout::Words::place_class))]
pub fn place_class(place: Residency) -> &'static str
    ensures { result.now ≡ words.place_class place }
{
    match place {
        Residency::Direct => "direct",
        Residency::Frame(_) => "frame",
        Residency::Draining(_) => "draining",
        Residency::Host => "host",
        Residency::Disk => "disk",
    }
}

/// The frame that an endpoint in this place holds.
pub fn frame_of(place: Residency) -> Option<u8>
    ensures { result ≡ words.frame_of place }
{
    match place {
        Residency::Frame(frame) | Residency::Draining(frame) => Some(frame),
        Residency::Direct | Residency::Host | Residency::Disk => None,
    }
}
