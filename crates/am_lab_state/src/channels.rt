//! The lines of the channels.

ghost use Rattle.am_lab_state.specs.Channels.{all_channels, channel_lines, channel_words, holds_line, mark_line, node_lines, peer_lines, sending_line};
ghost use Rattle.am_machine.specs.Interfaces.{IsInterface};
ghost use Rattle.am_model.specs.Channels.{mark, mark_by};
ghost use Rattle.am_model.specs.History.{channel_to};
ghost use Rattle.am_model_scripts.specs.Layout.{layout_of};
ghost use Rattle.am_model_scripts.specs.Links.{nodes_of};
ghost use Rattle.am_scenario_types.specs.declared.parts.Network.TheVariants as Networks;
ghost use Rattle.std.specs.List.{flat_map, range_with_len};
ghost use Rattle.std.specs.Option.{option_copied, option_map};
ghost use Rattle.std.specs.Prelude.{◌≡◌, ◌<◌, ◌++◌, OnOk};

use crate::readings::{last_decision, sequence, verdict_of};
use am_iface::Interface;
use am_machine::Cluster;
use am_names::{NodeId, Serial, Verdict};
use am_office_entries::{Entry, Outcome};
use am_office_text::LinePiece::{Number, Text};
use am_office_text::{LinePiece, count, put_end, put_spaced, put_word, small, verdict_word};
use am_scenario::Scenario;
use std::alloc::AllocError;

// Appends the words of one end of a channel.
#[tactic(auto, using(std::proofs::Common::append_assoc), unfolding(crate::specs::Channels::channel_words))]
fn put_channel_words(
    out: &mut Vec<u8>,
    way: &'static str,
    node: NodeId,
    peer: NodeId,
    number: u8,
) -> Result<(), AllocError>
    ensures { OnOk result (out.new.items ≡ out.old.items ++ channel_words way.now (channel_to node peer number)) }
{
    put_word(out, Text("channel"))?;
    put_spaced(
        out,
        &[small(node.0), Text(way), small(peer.0), small(number)],
    )
}

// Appends a sending end to which a message is bound.
#[tactic(auto, using(std::proofs::Common::append_assoc))]
fn put_holds(
    out: &mut Vec<u8>,
    node: NodeId,
    peer: NodeId,
    number: u8,
    serial: Serial,
    sequence: u64,
    attempt: u8,
) -> Result<(), AllocError>
    ensures { OnOk result (out.new.items ≡ out.old.items ++ holds_line (channel_to node peer number) serial sequence attempt) }
{
    put_channel_words(out, "to", node, peer, number)?;
    put_spaced(
        out,
        &[
            Text("holds"),
            LinePiece::Serial(serial),
            Text("sequence"),
            Number(sequence),
            Text("attempt"),
            small(attempt),
        ],
    )?;
    put_end(out)
}

// Appends a sending end, if a message is bound to it.
fn put_sending(
    out: &mut Vec<u8>,
    iface: &Interface,
    peer: NodeId,
    number: u8,
) -> Result<(), AllocError>
    requires peer { peer.0 < iface.now.settings.nodes }
    requires number { number < iface.now.settings.channels }
    ensures { OnOk result (out.new.items ≡ out.old.items ++ sending_line (channel_to iface.now.settings.node peer number) iface.now.log) }
{
    match iface.bound(peer, number) {
        Some(bound) => {
            let node = iface.node();
            let sequence = sequence(iface.log(), node, peer, number);
            put_holds(
                out,
                node,
                peer,
                number,
                bound.message.serial,
                sequence,
                bound.attempt,
            )
        }
        None => Ok(()),
    }
}

// Appends the last verdict of a receiving end.
#[tactic(auto, using(std::proofs::Common::append_assoc))]
fn put_verdict(
    out: &mut Vec<u8>,
    node: NodeId,
    peer: NodeId,
    number: u8,
    sequence: u32,
    attempt: u8,
    verdict: Verdict,
) -> Result<(), AllocError>
    ensures { OnOk result (out.new.items ≡ out.old.items ++ mark_line (channel_to node peer number) (record { seq = sequence; attempt = attempt; verdict = verdict })) }
{
    if sequence == 0 {
        return Ok(());
    }
    put_channel_words(out, "from", node, peer, number)?;
    put_spaced(
        out,
        &[
            Text("mark"),
            Text("sequence"),
            count(sequence),
            Text("attempt"),
            small(attempt),
            Text(verdict_word(verdict)),
        ],
    )?;
    put_end(out)
}

// Appends the mark of a receiving end whose last verdict an entry gave, if there is one.
fn put_mark(
    out: &mut Vec<u8>,
    node: NodeId,
    peer: NodeId,
    number: u8,
    entry: Option<&Entry>,
) -> Result<(), AllocError>
    ensures { OnOk result (out.new.items ≡ out.old.items ++ mark_line (channel_to node peer number) (mark_by (option_copied entry.entry))) }
{
    let Some(entry) = entry else {
        return Ok(());
    };
    match entry.outcome {
        Outcome::Received {
            seq,
            attempt,
            result,
            ..
        } => put_verdict(out, node, peer, number, seq, attempt, verdict_of(&result)),
        _ => Ok(()),
    }
}

// Appends the mark of a receiving end.
fn put_receiving(
    out: &mut Vec<u8>,
    iface: &Interface,
    peer: NodeId,
    number: u8,
) -> Result<(), AllocError>
    ensures { OnOk result (out.new.items ≡ out.old.items ++ mark_line (channel_to iface.now.settings.node peer number) (mark (channel_to iface.now.settings.node peer number) iface.now.log)) }
{
    let node = iface.node();
    let last = last_decision(iface.log(), node, peer, number);
    put_mark(out, node, peer, number, last)
}

// Appends both ends that a node has of a channel.
#[tactic(auto, using(std::proofs::Common::append_assoc))]
fn put_channel(
    out: &mut Vec<u8>,
    iface: &Interface,
    peer: NodeId,
    number: u8,
) -> Result<(), AllocError>
    requires peer { peer.0 < iface.now.settings.nodes }
    requires number { number < iface.now.settings.channels }
    ensures { OnOk result (out.new.items ≡ out.old.items ++ channel_lines iface.now.log iface.now.settings.node peer number) }
{
    put_sending(out, iface, peer, number)?;
    put_receiving(out, iface, peer, number)
}

// Appends the channels of a node to a peer.
fn put_peer(
    out: &mut Vec<u8>,
    cluster: &Cluster,
    scenario: &Scenario,
    node: NodeId,
    peer: NodeId,
) -> Result<(), AllocError>
    requires layout { cluster.now.layout ≡ layout_of scenario.now }
    requires packet { scenario.now.network ≡ Networks.Packet }
    requires node { node.0 < scenario.now.nodes }
    requires peer { peer.0 < scenario.now.nodes }
    ensures { OnOk result (out.new.items ≡ out.old.items ++ peer_lines scenario.now cluster.now.journal node peer) }
{
    let iface = cluster.iface(node);
    for number in 0..scenario.channels {
        put_channel(out, iface, peer, number)?;
    }
    Ok(())
}

// Appends the channels of a node.
fn put_node(
    out: &mut Vec<u8>,
    cluster: &Cluster,
    scenario: &Scenario,
    node: NodeId,
) -> Result<(), AllocError>
    requires layout { cluster.now.layout ≡ layout_of scenario.now }
    requires packet { scenario.now.network ≡ Networks.Packet }
    requires node { node.0 < scenario.now.nodes }
    ensures { OnOk result (out.new.items ≡ out.old.items ++ node_lines scenario.now cluster.now.journal node) }
{
    for peer in 0..scenario.nodes {
        put_peer(out, cluster, scenario, node, NodeId(peer))?;
    }
    Ok(())
}

/// Appends the channels of each node of the packet network.
pub(crate) fn put_channels(
    out: &mut Vec<u8>,
    cluster: &Cluster,
    scenario: &Scenario,
) -> Result<(), AllocError>
    requires layout { cluster.now.layout ≡ layout_of scenario.now }
    requires packet { scenario.now.network ≡ Networks.Packet }
    ensures { OnOk result (out.new.items ≡ out.old.items ++ all_channels scenario.now cluster.now.journal) }
{
    for node in 0..scenario.nodes {
        put_node(out, cluster, scenario, NodeId(node))?;
    }
    Ok(())
}
