//! What a driver's move asks of the endpoint that it moves and of the frames.

ghost use Rattle.am_endpoint.specs.View.{state_after};
ghost use Rattle.am_machine.specs.Moves.{failing_on, is_in_frame_of, is_taken};
ghost use Rattle.std.specs.Prelude.{◌≡◌, true};
ghost use Rattle.am_model.specs.Choice.{first_holding};
ghost use Rattle.am_model.specs.Tables.{unload_table};
ghost use Rattle.std.specs.List.{list_any};

use am_endpoint::Endpoint;
use am_model::{is_in_frame, is_resident};
use am_names::NodeId;
use am_office_entries::{Condition, Event, Place};

/// Whether an endpoint of the node lies in the frame.
fn is_frame_held(ends: &[Endpoint], node: NodeId, frame: u8) -> bool
    ensures { result ≡ list_any (is_in_frame_of node frame) ends.now }
{
    ends.iter().any(|end| node.0 == end.node().0 && is_in_frame(frame, end.place()))
}

/// Whether the event loads into a frame that is held.
pub(crate) fn is_taken(ends: &[Endpoint], event: Event) -> bool
    ensures { result ≡ is_taken ends.now event }
{
    match event {
        Event::Load { node, frame, .. } => is_frame_held(ends, node, frame),
        _ => false,
    }
}

/// The first condition of a move that an endpoint of the driver's node doesn't meet, where the frame may be taken.
pub(crate) fn failing_on(end: &Endpoint, event: Event, is_taken: bool) -> Option<Condition>
    ensures { result ≡ failing_on (state_after end.now) event is_taken }
{
    match event {
        Event::Drain { .. } => {
            if !is_resident(end.place()) {
                Some(Condition::NotResident)
            } else if end.draining() {
                Some(Condition::Draining)
            } else {
                None
            }
        }
        Event::Unload { .. } => failing_unload(end),
        Event::Load { .. } => {
            if end.place() != Place::Host {
                Some(Condition::NotOnHost)
            } else if end.closed() {
                Some(Condition::Closed)
            } else if is_taken {
                Some(Condition::FrameHeld)
            } else {
                None
            }
        }
        Event::PageOut { .. } => {
            if end.place() != Place::Host {
                Some(Condition::NotOnHost)
            } else if end.closed() {
                Some(Condition::Closed)
            } else {
                None
            }
        }
        Event::PageIn { .. } if end.place() != Place::Disk => Some(Condition::NotOnDisk),
        _ => None,
    }
}

/// The first condition of an unload that an endpoint doesn't meet.
fn failing_unload(end: &Endpoint) -> Option<Condition>
    ensures { result ≡ first_holding (unload_table true (state_after end.now)) }
{
    if !is_resident(end.place()) {
        Some(Condition::NotResident)
    } else if !end.draining() {
        Some(Condition::NotDraining)
    } else if end.in_flight_len() != 0 {
        Some(Condition::InFlight)
    } else {
        None
    }
}
