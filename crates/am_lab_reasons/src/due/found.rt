//! What an event that isn't enabled finds in the state of a cluster.

ghost use Rattle.am_lab_reasons.specs.Due.Found.{flag_words, found, found_end, found_in, found_line, found_link, head_line, network_line, node_words, place_words, word_if};
ghost use Rattle.am_model.specs.Channels.{emitted};
ghost use Rattle.am_model.specs.History.{is_in_range};
ghost use Rattle.am_model_scripts.specs.Layout.{is_direct, layout_of};
ghost use Rattle.am_office_text.specs.Words.{spaced};
ghost use Rattle.std.specs.Prelude.{◌≡◌, ◌<◌, ◌++◌, OnOk, length, true, false};

use am_machine::Cluster;
use am_model::Head;
use am_names::{EndpointId, NoMemory, NodeId};
use am_office_entries::{Condition, Event, Place};
use am_office_text::LinePiece::{Number, Text};
use am_office_text::{put_end, put_spaced, put_word, small};
use am_scenario::{Network, Scenario};
use std::alloc::AllocError;

#[tactic(auto, unfolding(crate::specs::Due::Found::place_words))]
fn put_place(out: &mut Vec<u8>, place: Place) -> Result<(), AllocError>
    ensures { OnOk result (out.new.items ≡ out.old.items ++ spaced (place_words place)) }
{
    match place {
        Place::Host => put_spaced(out, &[Text("host")]),
        Place::Disk => put_spaced(out, &[Text("disk")]),
        Place::Frame(frame) => put_spaced(out, &[Text("frame"), small(frame)]),
        Place::Direct => put_spaced(out, &[Text("direct")]),
    }
}

fn put_if(out: &mut Vec<u8>, test: bool, text: &'static str) -> Result<(), AllocError>
    ensures { OnOk result (out.new.items ≡ out.old.items ++ word_if test text.now) }
{
    if test {
        put_word(out, Text(text))
    } else {
        Ok(())
    }
}

#[tactic(auto, using(std::proofs::Common::append_assoc), unfolding(crate::specs::Due::Found::node_words))]
fn put_node_words(out: &mut Vec<u8>, end: EndpointId, node: NodeId) -> Result<(), AllocError>
    ensures { OnOk result (out.new.items ≡ out.old.items ++ node_words end node) }
{
    put_word(out, Text("endpoint"))?;
    put_spaced(out, &[small(end.0), Text("node"), small(node.0)])
}

#[tactic(auto, using(std::proofs::Common::append_assoc), unfolding(crate::specs::Due::Found::flag_words))]
fn put_flags(out: &mut Vec<u8>, head: Head) -> Result<(), AllocError>
    ensures { OnOk result (out.new.items ≡ out.old.items ++ flag_words head) }
{
    put_if(out, head.wanted, " wanted")?;
    put_if(out, head.draining, " draining")?;
    put_if(out, head.closed, " closed")
}

/// Appends a line of an endpoint: its node, where it lies, and how it stands.
#[tactic(auto, using(std::proofs::Common::append_assoc))]
pub fn put_head(
    out: &mut Vec<u8>,
    end: EndpointId,
    node: NodeId,
    head: Head,
) -> Result<(), AllocError>
    ensures { OnOk result (out.new.items ≡ out.old.items ++ head_line end node head) }
{
    put_node_words(out, end, node)?;
    put_place(out, head.place)?;
    put_flags(out, head)?;
    put_end(out)
}

fn put_found_head(
    out: &mut Vec<u8>,
    end: EndpointId,
    node: NodeId,
    head: Head,
) -> Result<(), AllocError>
    ensures { OnOk result (out.new.items ≡ out.old.items ++ found_line end node head) }
{
    put_word(out, Text("found "))?;
    put_head(out, end, node, head)
}

// Appends an endpoint as it stands.
fn put_found_end(out: &mut Vec<u8>, cluster: &Cluster, id: EndpointId) -> Result<(), NoMemory>
    ensures { OnOk result (out.new.items ≡ out.old.items ++ found_end cluster.now.layout cluster.now.journal id) }
{
    match cluster.end(id) {
        Some(end) => {
            put_found_head(out, id, end.node(), end.head())?;
            Ok(())
        }
        None => Err(NoMemory),
    }
}

#[tactic(auto, using(std::proofs::Common::append_assoc))]
fn put_packets(
    out: &mut Vec<u8>,
    node: NodeId,
    peer: NodeId,
    packets: u64,
) -> Result<(), AllocError>
    ensures { OnOk result (out.new.items ≡ out.old.items ++ found_link false node peer packets) }
{
    put_word(out, Text("found link"))?;
    put_spaced(
        out,
        &[
            small(peer.0),
            small(node.0),
            Text("packets"),
            Number(packets),
        ],
    )?;
    put_end(out)
}

// How many packets were emitted on a link of the packet network.
fn packets_on(cluster: &Cluster, node: NodeId, peer: NodeId) -> u64
    requires packet { cluster.now.layout.direct ≡ false }
    requires node { node.0 < cluster.now.layout.nodes }
    requires peer { peer.0 < cluster.now.layout.nodes }
    ensures { result ≡ length (emitted peer node cluster.now.journal) }
{
    cluster.emitted(peer, node).len() as u64
}

// Appends how many packets were emitted on a link.
fn put_link(
    out: &mut Vec<u8>,
    cluster: &Cluster,
    scenario: &Scenario,
    node: NodeId,
    peer: NodeId,
) -> Result<(), AllocError>
    requires layout { cluster.now.layout ≡ layout_of scenario.now }
    requires node { node.0 < scenario.now.nodes }
    requires peer { peer.0 < scenario.now.nodes }
    ensures { OnOk result (out.new.items ≡ out.old.items ++ found_link (is_direct scenario.now.network) node peer (length (emitted peer node cluster.now.journal))) }
{
    match scenario.network {
        Network::Direct => Ok(()),
        Network::Packet => put_packets(out, node, peer, packets_on(cluster, node, peer)),
    }
}

// Appends the part that an event names, as it stands.
fn put_found_in(
    out: &mut Vec<u8>,
    cluster: &Cluster,
    scenario: &Scenario,
    event: Event,
) -> Result<(), NoMemory>
    requires layout { cluster.now.layout ≡ layout_of scenario.now }
    requires in_range { is_in_range (layout_of scenario.now) event ≡ true }
    ensures { OnOk result (out.new.items ≡ out.old.items ++ found_in cluster.now.layout cluster.now.journal event) }
{
    match event {
        Event::Expire { .. } => Ok(()),
        Event::Receive { node, peer, .. } => {
            put_link(out, cluster, scenario, node, peer)?;
            Ok(())
        }
        Event::Call { end, .. }
        | Event::Want { end, .. }
        | Event::Carry { end }
        | Event::Bind { end, .. }
        | Event::Drain { end, .. }
        | Event::Unload { end, .. }
        | Event::Load { end, .. }
        | Event::PageOut { end, .. }
        | Event::PageIn { end, .. } => put_found_end(out, cluster, end),
    }
}

fn network_word(network: Network) -> &'static str
    ensures { result.now ≡ network_line (is_direct network) }
{
    match network {
        Network::Direct => "found network direct\n",
        Network::Packet => "found network packet\n",
    }
}

/// Appends what an event finds that isn't enabled for this condition.
pub(crate) fn put_found(
    out: &mut Vec<u8>,
    cluster: &Cluster,
    scenario: &Scenario,
    event: Event,
    condition: Condition,
) -> Result<(), NoMemory>
    requires layout { cluster.now.layout ≡ layout_of scenario.now }
    requires in_range { is_in_range (layout_of scenario.now) event ≡ true }
    ensures { OnOk result (out.new.items ≡ out.old.items ++ found cluster.now.layout cluster.now.journal event condition) }
{
    match condition {
        Condition::NotDirect | Condition::NotPacket => {
            put_word(out, Text(network_word(scenario.network)))?;
            Ok(())
        }
        _ => put_found_in(out, cluster, scenario, event),
    }
}
