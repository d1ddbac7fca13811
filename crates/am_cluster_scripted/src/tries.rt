//! Which entries are left to the end, told before they are made.

ghost use Rattle.am_model_scripts.specs.Layout.{layout_of};
ghost use Rattle.am_model.specs.History.{is_in_range};
ghost use Rattle.am_model.specs.Layout as layouts;
ghost use Rattle.am_office_entries.specs.declared.Event.TheVariants as Events;
ghost use Rattle.am_model_scripts.specs.Follows as follows;
ghost use Rattle.am_cluster_scripted.specs.Scripted.{AreParts};
ghost use Rattle.am_cluster_scripted.specs.Tries.{IsLastIfMade};
ghost use Rattle.std.specs.Prelude.{◌≡◌, ◌<◌, true};

use crate::reads::front_of;
use am_machine::Cluster;
use am_model::Queued;
use am_names::{EndpointId, NodeId};
use am_office_entries::Event;
use am_scenario_types::Scenario;

/// Whether a message has bounced as often as it may.
fn is_bounced_out(limit: u8, front: Option<Queued>) -> bool
    ensures { result ≡ follows.is_bounced_out limit front }
{
    match front {
        Some(queued) => queued.bounces == limit,
        None => false,
    }
}

/// Whether a bind of an endpoint's front message, where it is made, sends the last try or binds after the last bounce.
fn is_last_bind(cluster: &Cluster, scenario: &Scenario, node: NodeId, end: EndpointId) -> bool
    requires parts { AreParts scenario.now cluster.now }
    requires declared { layouts.declared (layout_of scenario.now) end ≡ true }
    ensures { IsLastIfMade scenario.now cluster.now.journal (Events.Bind node end) result }
{
    match cluster.end(end) {
        Some(one) => scenario.tries == 1 || is_bounced_out(scenario.bounces, front_of(one)),
        None => false,
    }
}

/// Whether a time-out of a channel, where it is made, sends the last try or ends the binding.
fn is_last_time_out(
    cluster: &Cluster,
    scenario: &Scenario,
    node: NodeId,
    peer: NodeId,
    channel: u8,
) -> bool
    requires parts { AreParts scenario.now cluster.now }
    requires node { node.0 < scenario.now.nodes }
    requires peer { peer.0 < scenario.now.nodes }
    requires channel { channel < scenario.now.channels }
    ensures { IsLastIfMade scenario.now cluster.now.journal (Events.Expire node peer channel) result }
{
    match cluster.iface(node).bound(peer, channel) {
        Some(bound) => u32::from(scenario.tries) <= u32::from(bound.attempt) + 2,
        None => false,
    }
}

/// Whether the entry of an event, where nothing keeps it from happening, is of a kind that is left to the end.
pub(crate) fn is_last(cluster: &Cluster, scenario: &Scenario, event: Event) -> bool
    requires parts { AreParts scenario.now cluster.now }
    requires in_range { is_in_range (layout_of scenario.now) event ≡ true }
    ensures { IsLastIfMade scenario.now cluster.now.journal event result }
{
    match event {
        Event::Bind { node, end } => is_last_bind(cluster, scenario, node, end),
        Event::Expire {
            node,
            peer,
            channel,
        } => is_last_time_out(cluster, scenario, node, peer, channel),
        _ => false,
    }
}
