//! The lines of the links.

ghost use Rattle.am_lab_state.specs.Links.{all_links, counts_line, left_line, left_words, link_by, link_line, links_from, unreceived_line};
ghost use Rattle.am_model_scripts.specs.Layout.{layout_of};
ghost use Rattle.am_model_scripts.specs.Links.{nodes_of};
ghost use Rattle.am_scenario_types.specs.declared.parts.Network.TheVariants as Networks;
ghost use Rattle.std.specs.List.{flat_map};
ghost use Rattle.std.specs.Prelude.{◌≡◌, ◌<◌, ◌++◌, OnOk};

use crate::unreceived::unreceived;
use am_machine::Cluster;
use am_names::{NoMemory, NodeId};
use am_office_entries::Entry;
use am_office_text::LinePiece::{Number, Text};
use am_office_text::{count, put_end, put_line, put_numbers, put_spaced, put_word, small};
use am_scenario::Scenario;
use std::alloc::{AllocError, Global};

// Appends how many packets were sent on a link, and how many of them were received.
fn put_counts(
    out: &mut Vec<u8>,
    from: NodeId,
    to: NodeId,
    sent: u64,
    received: u32,
) -> Result<(), AllocError>
    ensures { OnOk result (out.new.items ≡ out.old.items ++ counts_line from to sent received) }
{
    put_line(
        out,
        "link",
        &[
            small(from.0),
            Text("to"),
            small(to.0),
            Text("sent"),
            Number(sent),
            Text("received"),
            count(received),
        ],
    )
}

#[tactic(auto, using(std::proofs::Common::append_assoc), unfolding(crate::specs::Links::left_words))]
fn put_left_words(out: &mut Vec<u8>, from: NodeId, to: NodeId) -> Result<(), AllocError>
    ensures { OnOk result (out.new.items ≡ out.old.items ++ left_words from to) }
{
    put_word(out, Text("link"))?;
    put_spaced(
        out,
        &[small(from.0), Text("to"), small(to.0), Text("unreceived")],
    )
}

// Appends the numbers of the packets that were released and not received.
#[tactic(auto, using(std::proofs::Common::append_assoc))]
fn put_left(out: &mut Vec<u8>, from: NodeId, to: NodeId, left: &[u64]) -> Result<(), AllocError>
    ensures { OnOk result (out.new.items ≡ out.old.items ++ left_line from to left.now) }
{
    put_left_words(out, from, to)?;
    put_numbers(out, left)?;
    put_end(out)
}

// Appends the packets of a link that were released and not received, if there are any.
fn put_unreceived(
    out: &mut Vec<u8>,
    from: NodeId,
    to: NodeId,
    left: &[u64],
) -> Result<(), AllocError>
    ensures { OnOk result (out.new.items ≡ out.old.items ++ unreceived_line from to left.now) }
{
    match left {
        [] => Ok(()),
        [_, ..] => put_left(out, from, to, left),
    }
}

// Appends a link.
#[tactic(auto, using(std::proofs::Common::append_assoc))]
fn put_link(
    out: &mut Vec<u8>,
    alloc: Global,
    cluster: &Cluster,
    scenario: &Scenario,
    entries: &[Entry],
    from: NodeId,
    to: NodeId,
) -> Result<(), NoMemory>
    requires layout { cluster.now.layout ≡ layout_of scenario.now }
    requires packet { scenario.now.network ≡ Networks.Packet }
    requires journal { entries.now ≡ cluster.now.journal }
    requires from { from.0 < scenario.now.nodes }
    requires to { to.0 < scenario.now.nodes }
    ensures { OnOk result (out.new.items ≡ out.old.items ++ link_line scenario.now cluster.now.journal from to) }
{
    let emitted = cluster.emitted(from, to);
    let sent = emitted.len() as u64;
    if sent == 0 {
        return Ok(());
    }
    put_counts(out, from, to, sent, cluster.received(from, to))?;
    let left = unreceived(alloc, &scenario.plan, emitted, entries, from, to)?;
    put_unreceived(out, from, to, &left)?;
    Ok(())
}

// Appends the links from a node.
fn put_links_from(
    out: &mut Vec<u8>,
    alloc: Global,
    cluster: &Cluster,
    scenario: &Scenario,
    entries: &[Entry],
    from: NodeId,
) -> Result<(), NoMemory>
    requires layout { cluster.now.layout ≡ layout_of scenario.now }
    requires packet { scenario.now.network ≡ Networks.Packet }
    requires journal { entries.now ≡ cluster.now.journal }
    requires from { from.0 < scenario.now.nodes }
    ensures { OnOk result (out.new.items ≡ out.old.items ++ links_from scenario.now cluster.now.journal from) }
{
    for to in 0..scenario.nodes {
        put_link(out, alloc, cluster, scenario, entries, from, NodeId(to))?;
    }
    Ok(())
}

/// Appends the links of the packet network, where these are the entries of the cluster's journal. `NoMemory` comes where there is none
/// for the packets of a link or for the text.
pub(crate) fn put_links(
    out: &mut Vec<u8>,
    alloc: Global,
    cluster: &Cluster,
    scenario: &Scenario,
    entries: &[Entry],
) -> Result<(), NoMemory>
    requires layout { cluster.now.layout ≡ layout_of scenario.now }
    requires packet { scenario.now.network ≡ Networks.Packet }
    requires journal { entries.now ≡ cluster.now.journal }
    ensures { OnOk result (out.new.items ≡ out.old.items ++ all_links scenario.now cluster.now.journal) }
{
    for from in 0..scenario.nodes {
        put_links_from(out, alloc, cluster, scenario, entries, NodeId(from))?;
    }
    Ok(())
}
