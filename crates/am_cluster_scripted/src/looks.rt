//! What a drain reads of the endpoints and channels of a cluster.

ghost use Rattle.am_cluster_scripted.specs.Scripted.{AreParts};
ghost use Rattle.am_model_drain.specs.Rules.{next_page_in};
ghost use Rattle.am_cluster_drainer.specs.Reads.{head_of, is_seat, mail_of};
ghost use Rattle.am_model_scripts.specs.Layout.{layout_of};
ghost use Rattle.am_machine.specs.Moves.{is_in_frame_of};
ghost use Rattle.am_model.specs.History.{channel_to, is_bound, is_frame_held, state_of};
ghost use Rattle.am_model.specs.Layout as layouts;
ghost use Rattle.am_names.specs.Names.{is_request};
ghost use Rattle.am_model_scripts.specs.Standings.{standings};
ghost use Rattle.std.specs.Prelude.{◌≡◌, ◌<◌, IfSome, None, Some, count_by, length, map, slice_get, true};

use crate::reads::{front_of, has_arrivals_of, has_reply_of, received_requests_of};
use am_cluster_drainer::{EndHead, EndMail};
use am_endpoint::Endpoint;
use am_machine::Cluster;
use am_model::{Head, is_in_frame};
use am_names::{EndpointId, NodeId};
use am_scenario_types::Scenario;

/// Whether a channel from a node to a peer is bound.
pub(crate) fn has_bound(
    cluster: &Cluster,
    scenario: &Scenario,
    node: NodeId,
    peer: NodeId,
    channel: u8,
) -> bool
    requires parts { AreParts scenario.now cluster.now }
    requires node { node.0 < scenario.now.nodes }
    requires peer { peer.0 < scenario.now.nodes }
    requires channel { channel < scenario.now.channels }
    ensures { result ≡ is_bound (channel_to node peer channel) cluster.now.journal }
{
    cluster.iface(node).bound(peer, channel).is_some()
}

/// The endpoint at a place of their order.
pub(crate) fn head_at(cluster: &Cluster, scenario: &Scenario, index: usize) -> EndHead
    requires parts { AreParts scenario.now cluster.now }
    requires index { index < length (standings (layout_of scenario.now) cluster.now.journal) }
    ensures value { slice_get (map head_of (standings (layout_of scenario.now) cluster.now.journal)) index ≡ Some result }
    ensures seat { is_seat (layout_of scenario.now) result.node result.id ≡ true }
{
    let end = cluster.end_at(index);
    EndHead {
        id: end.id(),
        node: end.node(),
        head: end.head(),
    }
}

/// The endpoint at a place of their order, while no wanted endpoint is on disk.
pub(crate) fn mail_at(cluster: &Cluster, scenario: &Scenario, index: usize) -> EndMail
    requires parts { AreParts scenario.now cluster.now }
    requires index { index < length (standings (layout_of scenario.now) cluster.now.journal) }
    requires none_missed { next_page_in (standings (layout_of scenario.now) cluster.now.journal) ≡ None }
    ensures value { slice_get (map mail_of (standings (layout_of scenario.now) cluster.now.journal)) index ≡ Some result }
    ensures seat { is_seat (layout_of scenario.now) result.node result.id ≡ true }
{
    cluster.laws();
    let end = cluster.end_at(index);
    EndMail {
        id: end.id(),
        node: end.node(),
        front: front_of(end),
        has_reply: has_reply_of(end),
        has_arrivals: has_arrivals_of(end),
    }
}

/// The node of an endpoint.
pub(crate) fn home(cluster: &Cluster, scenario: &Scenario, end: EndpointId) -> Option<NodeId>
    requires parts { AreParts scenario.now cluster.now }
    ensures value { result ≡ layouts.home (layout_of scenario.now) end }
    ensures seat { IfSome result (λ node. is_seat (layout_of scenario.now) node end ≡ true) }
{
    match cluster.end(end) {
        Some(one) => Some(one.node()),
        None => None,
    }
}

/// What is known of an endpoint wherever it lies.
pub(crate) fn head_by(cluster: &Cluster, scenario: &Scenario, end: EndpointId) -> Head
    requires parts { AreParts scenario.now cluster.now }
    requires declared { layouts.declared (layout_of scenario.now) end ≡ true }
    ensures { result ≡ (state_of (layout_of scenario.now) cluster.now.journal end).head }
{
    match cluster.end(end) {
        Some(one) => one.head(),
        None => unreachable!(),
    }
}

/// How many requests an endpoint has received and not polled, while no wanted endpoint is on disk.
pub(crate) fn received_requests(cluster: &Cluster, scenario: &Scenario, end: EndpointId) -> u8
    requires parts { AreParts scenario.now cluster.now }
    requires declared { layouts.declared (layout_of scenario.now) end ≡ true }
    requires none_missed { next_page_in (standings (layout_of scenario.now) cluster.now.journal) ≡ None }
    ensures { result ≡ count_by is_request (state_of (layout_of scenario.now) cluster.now.journal end).body.received }
{
    cluster.laws();
    match cluster.end(end) {
        Some(one) => received_requests_of(one),
        None => unreachable!(),
    }
}

/// Whether an endpoint is of the node and lies in the frame.
fn is_in_frame_of(end: &Endpoint, node: NodeId, frame: u8) -> bool
    ensures { result ≡ is_in_frame_of node frame end.now }
{
    node.0 == end.node().0 && is_in_frame(frame, end.place())
}

/// Whether some endpoint of a node lies in a frame.
pub(crate) fn is_frame_held(cluster: &Cluster, scenario: &Scenario, node: NodeId, frame: u8) -> bool
    requires parts { AreParts scenario.now cluster.now }
    ensures { result ≡ is_frame_held (layout_of scenario.now) cluster.now.journal node frame }
{
    let count = scenario.ends.len();
    'ends: for index in 0..count {
        if is_in_frame_of(cluster.end_at(index), node, frame) {
            return true;
        }
    }
    false
}
