//! The crew of each node of a scenario, opened before its run: the node's places, its threads with their scripts, its interface between
//! its links, and its driver with its disk.
#![tactic(auto)]

ghost use Rattle.am_cluster_opening.specs.Crews.{AreCrews, AreLinked, AreNumbered, IsUnused};
ghost use Rattle.am_model.specs.Layout.{AllAre};
ghost use Rattle.am_scenario_types.specs.Lawful.{IsLawful};
ghost use Rattle.am_scenario_types.specs.declared.parts.Network.TheVariants as Networks;
ghost use Rattle.std.specs.Prelude.{◌≡◌, IfOk};

mod crew;
mod crews;
mod making;
pub mod node;

pub use crate::crew::NodeCrew;
use crate::crews::assemble;
use crate::node::open_nodes;
pub use am_names::NoMemory;
use am_scenario_types::Scenario;
use am_wire::all_links::open_links;
use std::alloc::Global;

/// The crews of a scenario's nodes, in the order of the nodes, before any turn. `NoMemory` comes only for want of memory: all that
/// was made is dropped then.
pub fn open_crews(alloc: Global, scenario: &Scenario) -> Result<Vec<NodeCrew>, NoMemory>
    requires lawful { IsLawful scenario.now }
    requires packet { scenario.now.network ≡ Networks.Packet }
    ensures crews { IfOk result (λ crews. AreCrews scenario.now 0 crews.items) }
    ensures links { IfOk result (λ crews. AreLinked crews.items) }
    ensures numbers { IfOk result (λ crews. AreNumbered 0 crews.items) }
    ensures unused { IfOk result (λ crews. AllAre IsUnused crews.items) }
{
    let openings = open_nodes(alloc, scenario)?;
    let links = open_links(alloc, &scenario.plan, scenario.nodes)?;
    assemble(alloc, scenario, openings, links)
}
