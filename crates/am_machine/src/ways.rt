//! Where the packet of a work goes.

ghost use Rattle.am_iface.specs.View.{FitsInterface};
ghost use Rattle.am_machine.specs.Apart.{AreApart};
ghost use Rattle.am_machine.specs.Ways.{front_node, node_of, way};
ghost use Rattle.am_driver_moves.specs.Logs.{kept};
ghost use Rattle.std.specs.Prelude.{◌≡◌, map};

use crate::ends::{is_on_disk, place_of};
use am_endpoint::Endpoint;
use am_iface::{Interface, Work};
use am_names::{EndpointId, NodeId};

/// The node of the endpoint with this number, if it is one of these.
fn node_of(ends: &[Endpoint], id: EndpointId) -> Option<NodeId>
    requires { AreApart (map kept ends.now) }
    ensures { result ≡ node_of id ends.now }
{
    match place_of(ends, id) {
        Some(place) => Some(ends[place].node()),
        None => None,
    }
}

/// The node of the front message's destination, where the endpoint isn't on disk.
fn front_node(ends: &[Endpoint], end: &Endpoint) -> Option<NodeId>
    requires { AreApart (map kept ends.now) }
    ensures { result ≡ front_node ends.now end.now }
{
    if is_on_disk(end) {
        return None;
    }
    match end.front() {
        Some(queued) => node_of(ends, queued.message.dest),
        None => None,
    }
}

/// The node that a work which touches this endpoint sends a packet to, if it can be done and sends one.
pub(crate) fn way(
    interface: &Interface,
    ends: &[Endpoint],
    end: &Endpoint,
    work: &Work,
) -> Option<NodeId>
    requires apart { AreApart (map kept ends.now) }
    requires fits { FitsInterface interface.now work.now }
    ensures { result ≡ way interface.now ends.now end.now work.now }
{
    match work {
        Work::Bind(_) => front_node(ends, end),
        Work::Receive(_) => interface.emits_to(work),
        Work::Expire { .. } => interface.emits_to(work),
    }
}
