//! The packets that a cluster emits and its links release.

ghost use Rattle.am_office_entries.specs.Logged.Behind.{entries_behind};
ghost use Rattle.am_cluster_scripted.specs.Links.{AreFed, HasAllRoom, IsSpared, released_in};
ghost use Rattle.am_cluster_scripted.specs.Scripted.{AreParts, fed_by, fed_on};
ghost use Rattle.am_names.specs.Packets.{way_of};
ghost use Rattle.am_model_scripts.specs.Layout.{layout_of};
ghost use Rattle.am_model.specs.Packets as packets;
ghost use Rattle.am_model.specs.History.{IsHistory};
ghost use Rattle.am_office_entries.specs.Entries as does;
ghost use Rattle.am_scenario_types.specs.Lawful.{IsLawful};
ghost use Rattle.am_model_scripts.specs.Links.{due};
ghost use Rattle.std.specs.Prelude.{◌≡◌, ℕ, ◌≤◌, ◌<◌, IfOk, IfSome, OnOk, length, map, option_map};

use crate::links::{LinkTable, due_at, feed_at, link_place, make_all_room, no_links};
use crate::plan_index::PlanIndex;
use am_machine::Cluster;
use am_names::{NodeId, Way};
use am_office_entries::{Entry, Event, NoMemory, Outcome, Received};
use am_scenario_types::Scenario;
use am_wire_release::Stage;
use std::alloc::Global;

/// The number of the first released packet of a link that was not received.
pub(crate) fn due_on(
    cluster: &Cluster,
    scenario: &Scenario,
    links: &[Stage<u32>],
    node: NodeId,
    peer: NodeId,
) -> Option<u32>
    requires parts { AreParts scenario.now cluster.now }
    requires fed { AreFed scenario.now.plan cluster.now.journal (map released_in links.now) }
    requires node { node.0 < scenario.now.nodes }
    requires peer { peer.0 < scenario.now.nodes }
    ensures value { result ≡ due scenario.now peer node cluster.now.journal }
    ensures counted { IfSome result (λ number. 1 ≤ number) }
{
    cluster.laws();
    let received = cluster.received(peer, node);
    due_at(links, link_place(peer, node), received)
}

/// The way of the answer that a receipt with this result sends to this peer, if it sends one.
fn result_way(node: NodeId, peer: NodeId, received: &Received) -> Option<Way>
    ensures { (channel seq attempt stamp : ℕ) → result ≡ option_map way_of (does.answer_packet node peer channel seq attempt stamp (does.answer_by received.now)) }
{
    match *received {
        Received::Accepted { answer, .. }
        | Received::Refused { answer, .. }
        | Received::Again { answer, .. } => Some(Way {
            from: node,
            to: peer,
            number: answer,
        }),
        _ => None,
    }
}

/// The way of the parcel that an entry of this node emits, if its outcome is one that sends a message.
fn parcel_way(node: NodeId, outcome: &Outcome) -> Option<Way>
    ensures { (stamp : ℕ) → result ≡ option_map way_of (does.parcel node stamp outcome.now) }
{
    match *outcome {
        Outcome::Sent { peer, number, .. } => Some(Way {
            from: node,
            to: peer,
            number,
        }),
        _ => None,
    }
}

/// The way of the answer that the receipt of a packet from this peer emits, if it sends one.
fn answer_way(node: NodeId, peer: NodeId, outcome: &Outcome) -> Option<Way>
    ensures { (stamp number : ℕ) → result ≡ option_map way_of (does.emitted_in stamp (Event.Receive node peer number) outcome.now) }
{
    match outcome {
        Outcome::Received { result, .. } => result_way(node, peer, result),
        _ => None,
    }
}

/// The way of the packet that an entry emits, if it emits one.
fn way_emitted(entry: &Entry) -> Option<Way>
    ensures { result ≡ option_map way_of (does.emitted_of entry.now) }
{
    match entry.event {
        Event::Bind { node, .. } => parcel_way(node, &entry.outcome),
        Event::Expire { node, .. } => parcel_way(node, &entry.outcome),
        Event::Receive { node, peer, .. } => answer_way(node, peer, &entry.outcome),
        _ => None,
    }
}

/// One packet more, which goes on its way. Its number is its place among those that were emitted there.
fn feed_way(links: &mut LinkTable, plan: &PlanIndex, way: Way)
    requires from { way.from.0 < 16 }
    requires to { way.to.0 < 16 }
    requires len { length links.old.all.items ≡ 256 }
    requires room { HasAllRoom links.old.all.items }
    ensures fed { map released_in links.new.all.items ≡ fed_on plan.now way (map released_in links.old.all.items) }
    ensures spared { IsSpared links.new }
{
    let Way { from, to, number } = way;
    let fault = plan.fault(from, to, number);
    feed_at(
        links,
        link_place(from, to),
        u64::from(number),
        fault,
        number,
    );
}

/// The packet that an entry emits, if it emits one, goes on its link.
pub(crate) fn feed_entry(links: &mut LinkTable, plan: &PlanIndex, entry: &Entry)
    requires from { IfSome (does.emitted_of entry.now) (λ packet. (packets.from_of packet).0 < 16) }
    requires to { IfSome (does.emitted_of entry.now) (λ packet. (packets.receiver_of packet).0 < 16) }
    requires len { length links.old.all.items ≡ 256 }
    requires room { HasAllRoom links.old.all.items }
    requires spared { IsSpared links.old }
    ensures fed { map released_in links.new.all.items ≡ fed_by plan.now (does.emitted_of entry.now) (map released_in links.old.all.items) }
    ensures spared { IsSpared links.new }
{
    match way_emitted(entry) {
        Some(way) => feed_way(links, plan, way),
        None => {}
    }
}

/// One entry more, with room made for what it emits.
fn add_entry(links: &mut LinkTable, plan: &PlanIndex, entry: &Entry) -> Result<(), NoMemory>
    requires from { IfSome (does.emitted_of entry.now) (λ packet. (packets.from_of packet).0 < 16) }
    requires to { IfSome (does.emitted_of entry.now) (λ packet. (packets.receiver_of packet).0 < 16) }
    requires len { length links.old.all.items ≡ 256 }
    requires spared { IsSpared links.old }
    ensures len { length links.new.all.items ≡ 256 }
    ensures spared { IsSpared links.new }
    ensures fed { OnOk result (map released_in links.new.all.items ≡ fed_by plan.now (does.emitted_of entry.now) (map released_in links.old.all.items)) }
{
    make_all_room(links)?;
    feed_entry(links, plan, entry);
    Ok(())
}

/// The links after the entries of a history.
pub(crate) fn links_after(
    alloc: Global,
    scenario: &Scenario,
    plan: &PlanIndex,
    entries: &[&Entry],
) -> Result<LinkTable, NoMemory>
    requires lawful { IsLawful scenario.now }
    requires plan { plan.now ≡ scenario.now.plan }
    requires history { IsHistory (layout_of scenario.now) (entries_behind entries.now) }
    ensures fed { IfOk result (λ links. AreFed scenario.now.plan (entries_behind entries.now) (map released_in links.all.items)) }
    ensures spared { IfOk result IsSpared }
{
    let mut links = no_links(alloc)?;
    for entry in entries {
        add_entry(&mut links, plan, entry)?;
    }
    Ok(links)
}
