//! Each node is opened out of the cluster's part of it.

ghost use Rattle.am_workers_laws.specs.Books.Books.{IsBook, stands_at};
ghost use Rattle.am_model.specs.Layout.{AllAre};
ghost use Rattle.am_model_scripts.specs.Layout.{layout_of};
ghost use Rattle.am_machine.specs.Parts.{AreNodeParts, IsNodePart};
ghost use Rattle.am_cluster_opening.specs.Node.Openings.{AreOpenings, ArePlacesOf, IsOpening, IsReadOf};
ghost use Rattle.am_scenario_types.specs.Lawful.{IsLawful};
ghost use Rattle.am_scenario_types.specs.declared.parts.Network.TheVariants as Networks;
ghost use Rattle.std.specs.Prelude.{◌≡◌, ◌<◌, ◌≤◌, [], IfOk, length};

use crate::node::ends::{books_of, ids_of, view_of};
use crate::node::opening::Opening;
use crate::node::threads::thread_ids;
use am_driver_moves::choice::View;
use am_endpoint::Endpoint;
use am_iface::IfaceSettings;
use am_machine::Cluster;
use am_machine::node::NodePart;
use am_names::NoMemory;
use am_places::{Places, Seat};
use am_scenario_types::Scenario;
use am_workers_laws::books::EndBook;
use std::alloc::Global;

/// What is read of a node's part before the part is taken apart.
#[derive(Drop)]
pub(crate) struct Reading {
    threads: Vec<u8>,
    view: View,
    set: IfaceSettings,
}

/// The numbers of the node's threads, what its driver sees of its endpoints, and the settings of its interface.
fn read_part(alloc: Global, scenario: &Scenario, part: &NodePart) -> Result<Reading, NoMemory>
    requires lawful { IsLawful scenario.now }
    ensures { IfOk result (IsReadOf scenario.now part.now) }
{
    let threads = thread_ids(alloc, &scenario.threads, part.node)?;
    let view = view_of(alloc, &part.ends, scenario.frames, scenario.keep)?;
    let set = part.iface.settings(alloc)?;
    Ok(Reading { threads, view, set })
}

/// The places of these endpoints, which are taken out of their list, with so many frames and so many seats.
fn open_places(
    alloc: Global,
    ends: &mut Vec<Endpoint>,
    frames: u8,
    seats: u8,
) -> Result<(Places<EndBook>, Vec<Seat<EndBook>>), NoMemory>
    requires books { AllAre IsBook ends.old.items }
    requires homely { AllAre (λ e. stands_at e < 2) ends.old.items }
    requires few { length ends.old.items ≤ 64 }
    requires frames { frames ≤ 16 }
    requires seats { 0 < seats }
    ensures { IfOk result (λ r. ArePlacesOf ends.old.items frames seats r.0 r.1.items) }
{
    let ids = ids_of(alloc, ends)?;
    let books = books_of(alloc, ends)?;
    Places::new(alloc, books, ids, frames, seats)
}

/// What the workers of a node begin with, out of the cluster's part of the node.
fn open_node(alloc: Global, scenario: &Scenario, mut part: NodePart) -> Result<Opening, NoMemory>
    requires lawful { IsLawful scenario.now }
    requires packet { scenario.now.network ≡ Networks.Packet }
    requires part { IsNodePart (layout_of scenario.now) [] part.node part }
    ensures { IfOk result (IsOpening scenario.now part.node) }
{
    let read = read_part(alloc, scenario, &part)?;
    let count = read.threads.len() as u8 + 2;
    let (places, seats) = open_places(alloc, &mut part.ends, scenario.frames, count)?;
    let Reading { threads, view, set } = read;
    let NodePart {
        node,
        iface,
        swap,
        ..
    } = part;
    Ok(Opening {
        node,
        places,
        seats,
        threads,
        interface: iface,
        set,
        swap,
        view,
    })
}

/// What the workers of each node begin with, out of the cluster's parts of the nodes.
fn open_each(
    alloc: Global,
    scenario: &Scenario,
    mut parts: Vec<NodePart>,
) -> Result<Vec<Opening>, NoMemory>
    requires lawful { IsLawful scenario.now }
    requires packet { scenario.now.network ≡ Networks.Packet }
    requires parts { AreNodeParts (layout_of scenario.now) [] parts.items }
    ensures { IfOk result (λ openings. AreOpenings scenario.now openings.items) }
{
    let mut openings = Vec::new(alloc);
    parts.reverse();
    while let Some(part) = parts.pop() {
        let opening = open_node(alloc, scenario, part)?;
        openings.push(opening)?;
    }
    Ok(openings)
}

/// What the workers of each node of a scenario begin with, in the order of the nodes. `NoMemory` comes only for want of
/// memory.
pub fn open_nodes(alloc: Global, scenario: &Scenario) -> Result<Vec<Opening>, NoMemory>
    requires lawful { IsLawful scenario.now }
    requires packet { scenario.now.network ≡ Networks.Packet }
    ensures { IfOk result (λ openings. AreOpenings scenario.now openings.items) }
{
    let cluster = Cluster::new(alloc, scenario)?;
    match cluster.split(alloc) {
        Ok(parts) => open_each(alloc, scenario, parts),
        Err(_) => Err(NoMemory),
    }
}
