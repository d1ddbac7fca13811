//! The parts of all nodes when their phase is over.

ghost use Rattle.am_cluster_running.specs.Closing.{AreClosed, AreLinkedEnds};
ghost use Rattle.am_workers_laws.specs.Books.Ends.{end_in};
ghost use Rattle.am_cluster_running.specs.Parting.{ArePartsOf, IsPartOf, emitted_in};
ghost use Rattle.am_machine_journal.specs.Index.View as journals;
ghost use Rattle.am_machine.specs.Node.Shells.{AreCounts};
ghost use Rattle.am_machine.specs.declared.node.NodePart.{NodePart as Part};
ghost use Rattle.am_wire.specs.declared.closing.LinkRecord.{LinkRecord};
ghost use Rattle.std.specs.Global.{Vec};
ghost use Rattle.std.specs.Prelude.{◌≡◌, ◌<◌, ◌≤◌, ◌∷◌, ◌++◌, [], IfOk, List, OnOk, length, map};

use crate::closing::close_links;
use crate::ended::{AllEnded, NodeEnded};
use am_endpoint::Endpoint;
use am_iface::Interface;
use am_machine::NodePart;
use am_names::{NodeId, Packet};
use am_office_entries::{Entry, Event, NoMemory};
use am_wire::LinkRecord;
use am_workers_laws::books::EndBook;
use std::alloc::Global;

/// The endpoint of this book.
fn end_of(book: EndBook) -> Endpoint
    ensures { result ≡ end_in book }
{
    let EndBook { end } = book;
    Box::into_inner(end)
}

/// The endpoints of these books.
fn ends_of(alloc: Global, books: Vec<EndBook>) -> Result<Vec<Endpoint>, NoMemory>
    ensures { IfOk result (λ ends. ends.items ≡ map end_in books.items) }
{
    let mut ends = Vec::with_capacity(alloc, books.len())?;
    for book in books {
        ends.push(end_of(book))?;
    }
    Ok(ends)
}

/// What was emitted on these links.
fn emitted_of(alloc: Global, records: Vec<LinkRecord>) -> Result<Vec<Vec<Packet>>, NoMemory>
    ensures { IfOk result (λ all. all.items ≡ map emitted_in records.items) }
{
    let mut all = Vec::with_capacity(alloc, records.len())?;
    for link in records {
        let LinkRecord { emitted, .. } = link;
        all.push(emitted)?;
    }
    Ok(all)
}

/// Whether an event receives a packet of the link from a node to a node.
fn is_receipt(from: NodeId, to: NodeId, event: &Event) -> bool
    ensures { result ≡ journals.is_receipt from to event.now }
{
    match event {
        Event::Receive { node, peer, .. } => from.0 == peer.0 && to.0 == node.0,
        _ => false,
    }
}

/// How many of these entries receive a packet of the link from a node to a node.
fn receipts(log: &[Entry], from: NodeId, to: NodeId) -> u32
    requires few { length log.now ≤ 65536 }
    ensures { result ≡ journals.receipts from to log.now }
{
    log.iter()
        .filter(|entry| is_receipt(from, to, &entry.event))
        .count() as u32
}

/// How many packets of each of so many nodes an interface received.
fn counts_of(
    alloc: Global,
    interface: &Interface,
    node: NodeId,
    nodes: u8,
) -> Result<Vec<u32>, NoMemory>
    ensures counts { IfOk result (λ counts. AreCounts interface.now.log node nodes counts.items) }
    ensures few { length interface.now.log ≤ interface.now.settings.log }
{
    let log = interface.log();
    let mut counts = Vec::with_capacity(alloc, nodes as usize)?;
    for from in 0..nodes {
        counts.push(receipts(log, NodeId(from), node))?;
    }
    Ok(counts)
}

/// The part of a node, with what went over its links.
fn part_of(
    alloc: Global,
    ended: NodeEnded,
    records: Vec<LinkRecord>,
    nodes: u8,
) -> Result<NodePart, NoMemory>
    ensures { IfOk result (λ part. IsPartOf nodes ended records.items part) }
{
    let emitted = emitted_of(alloc, records)?;
    let received = counts_of(alloc, &ended.interface, ended.node, nodes)?;
    let NodeEnded {
        node,
        books,
        interface,
        swap,
        hand: _,
    } = ended;
    let ends = ends_of(alloc, books)?;
    Ok(NodePart {
        node,
        ends,
        iface: interface,
        swap,
        emitted,
        received,
    })
}

/// Adds the part of a node, with what went over its links.
fn add_part(
    alloc: Global,
    parts: &mut Vec<NodePart>,
    ended: NodeEnded,
    records: Vec<LinkRecord>,
    nodes: u8,
) -> Result<(), NoMemory>
    ensures { OnOk result ((part : Part) × IsPartOf nodes ended records.items part × (parts.new.items ≡ parts.old.items ++ part ∷ [])) }
{
    let part = part_of(alloc, ended, records, nodes)?;
    parts.push(part)?;
    Ok(())
}

/// The parts of so many nodes, with what went over the links.
fn assemble(
    alloc: Global,
    nodes: Vec<NodeEnded>,
    records: Vec<Vec<LinkRecord>>,
    count: u8,
) -> Result<Vec<NodePart>, NoMemory>
    requires all { length records.items ≡ length nodes.items }
    ensures { IfOk result (λ parts. ArePartsOf count nodes.items records.items parts.items) }
{
    let mut parts = Vec::new(alloc);
    for (ended, row) in nodes.into_iter().zip(records) {
        add_part(alloc, &mut parts, ended, row, count)?;
    }
    Ok(parts)
}

/// The parts of all nodes: the links are closed.
pub(crate) fn parts_of(alloc: Global, all: AllEnded, count: u8) -> Result<Vec<NodePart>, NoMemory>
    requires nodes { length all.nodes.items ≡ length all.outs.items }
    requires linked { AreLinkedEnds all.outs.items all.ins.items }
    ensures { IfOk result (λ parts. (records : List (Vec LinkRecord)) × AreClosed all.outs.items all.ins.items records × ArePartsOf count all.nodes.items records parts.items) }
{
    let AllEnded { nodes, outs, ins } = all;
    let records = close_links(alloc, outs, ins)?;
    assemble(alloc, nodes, records, count)
}
