//! What a node has beside its endpoints, its interface and its disk.

ghost use Rattle.am_machine_journal.specs.Index.View.{IsIndexOf};
ghost use Rattle.am_machine.specs.Node.Shells.{AreCopies, AreCounts, AreShells, AreSmall, IsShell, is_at};
ghost use Rattle.am_office_entries.specs.declared.Entry.{Entry};
ghost use Rattle.std.specs.Prelude.{◌≡◌, ◌<◌, ◌≤◌, ℕ, IfOk, List, count_by};

use am_endpoint::Endpoint;
use am_machine_journal::index::JournalIndex;
use am_names::{NodeId, Packet};
use am_office_entries::NoMemory;
use std::alloc::Global;

/// What a node has beside its endpoints, its interface and its disk, with room for its endpoints.
#[derive(Drop)]
pub struct Shell {
    pub node: NodeId,
    pub ends: Vec<Endpoint>,
    pub emitted: Vec<Vec<Packet>>,
    pub received: Vec<u32>,
}

/// How many of the endpoints are the node's.
fn count_at(ends: &[Endpoint], node: NodeId) -> usize
    ensures { result ≡ count_by (is_at node) ends.now }
{
    ends.iter().filter(|end| node.0 == end.node().0).count()
}

/// A copy of the packets that a node emitted to each of so many nodes.
fn copies_of(
    alloc: Global,
    index: &JournalIndex,
    from: NodeId,
    nodes: u8,
) -> Result<Vec<Vec<Packet>>, NoMemory>
    requires from { from.0 < 16 }
    requires few { nodes ≤ 16 }
    ensures { IfOk result (λ copies. (past : List Entry) → IsIndexOf past index.now.read → AreCopies past from nodes copies.items) }
{
    let mut copies = Vec::with_capacity(alloc, nodes as usize)?;
    for to in 0..nodes {
        let copy = Vec::from_slice(alloc, index.emitted(from, NodeId(to)))?;
        copies.push(copy)?;
    }
    Ok(copies)
}

/// How many packets of each of so many nodes a node received.
fn counts_of(
    alloc: Global,
    index: &JournalIndex,
    to: NodeId,
    nodes: u8,
) -> Result<Vec<u32>, NoMemory>
    requires to { to.0 < 16 }
    requires few { nodes ≤ 16 }
    requires small { AreSmall index.now.read to nodes }
    ensures { IfOk result (λ counts. (past : List Entry) → IsIndexOf past index.now.read → AreCounts past to nodes counts.items) }
{
    let mut counts = Vec::with_capacity(alloc, nodes as usize)?;
    for from in 0..nodes {
        counts.push(index.received(NodeId(from), to) as u32)?;
    }
    Ok(counts)
}

/// The shell of a node, with room for its endpoints among these.
fn open_shell(
    alloc: Global,
    ends: &[Endpoint],
    index: &JournalIndex,
    node: NodeId,
    nodes: u8,
) -> Result<Shell, NoMemory>
    requires node { node.0 < 16 }
    requires few { nodes ≤ 16 }
    requires small { AreSmall index.now.read node nodes }
    ensures { IfOk result (λ shell. (past : List Entry) → IsIndexOf past index.now.read → IsShell ends.now past nodes node shell) }
{
    Ok(Shell {
        node,
        ends: Vec::with_capacity(alloc, count_at(ends, node))?,
        emitted: copies_of(alloc, index, node, nodes)?,
        received: counts_of(alloc, index, node, nodes)?,
    })
}

/// The shells of so many nodes, each with room for the node's endpoints among these.
pub fn open_shells(
    alloc: Global,
    ends: &[Endpoint],
    index: &JournalIndex,
    nodes: u8,
) -> Result<Vec<Shell>, NoMemory>
    requires few { nodes ≤ 16 }
    requires small { (k : ℕ) → k < nodes → AreSmall index.now.read (record { 0 = k }) nodes }
    ensures { IfOk result (λ shells. (past : List Entry) → IsIndexOf past index.now.read → AreShells ends.now past nodes nodes shells.items) }
{
    let mut shells = Vec::with_capacity(alloc, nodes as usize)?;
    for node in 0..nodes {
        let shell = open_shell(alloc, ends, index, NodeId(node), nodes)?;
        shells.push(shell)?;
    }
    Ok(shells)
}
