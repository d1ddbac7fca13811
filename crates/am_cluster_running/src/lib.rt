//! The workers of all nodes make their turns at the same time, and what they leave is put together to a cluster.
#![tactic(auto)]

ghost use Rattle.am_cluster_opening.specs.Crews.{AreCrews, AreLinked};
ghost use Rattle.am_cluster_running.specs.Made.{IsMadeBy};
ghost use Rattle.am_model_drain.specs.Follows.{IsGoodPhase};
ghost use Rattle.am_model_scripts.specs.Layout.{layout_of};
ghost use Rattle.am_scenario_types.specs.Lawful.{IsLawful};
ghost use Rattle.am_scenario_types.specs.declared.parts.Network.TheVariants as Networks;
ghost use Rattle.std.specs.Prelude.{◌≡◌, [], IfOk};

mod closing;
mod ended;
mod ending;
pub mod ends;
mod parting;
mod running;
pub mod uniting;

use crate::ending::end_crews;
use crate::ends::crews_unite;
use crate::parting::parts_of;
pub use crate::running::{found_no_memory, run_crews};
use crate::uniting::receipts_are_counted;
use am_cluster_opening::NodeCrew;
use am_machine::Cluster;
use am_office_entries::NoMemory;
use am_scenario_types::Scenario;
pub use am_workers::{Gate, OpenGate};
use std::alloc::Global;

/// What the crews of all nodes made, put together to a cluster, wherever their workers stopped: its journal is a good phase of the
/// scenario, and the empty one where there are no turns. `NoMemory` comes where there is none for the cluster: what the crews made
/// is dropped then.
pub fn unite_ended(
    alloc: Global,
    scenario: &Scenario,
    crews: Vec<NodeCrew>,
) -> Result<Cluster, NoMemory>
    requires lawful { IsLawful scenario.now }
    requires packet { scenario.now.network ≡ Networks.Packet }
    requires crews { AreCrews scenario.now scenario.now.turns crews.items }
    requires linked { AreLinked crews.items }
    ensures layout { IfOk result (λ cluster. cluster.layout ≡ layout_of scenario.now) }
    ensures good { IfOk result (λ cluster. IsGoodPhase scenario.now cluster.journal) }
    ensures none { IfOk result (λ cluster. scenario.now.turns ≡ 0 → cluster.journal ≡ []) }
    ensures made { IfOk result (λ cluster. IsMadeBy scenario.now crews.items cluster.journal) }
{
    receipts_are_counted();
    crews_unite();
    let ended = end_crews(alloc, scenario, crews)?;
    let parts = parts_of(alloc, ended, scenario.nodes)?;
    match Cluster::unite(alloc, scenario, parts) {
        Ok(cluster) => Ok(cluster),
        Err(_) => Err(NoMemory),
    }
}

/// Gives up what crews made of which a worker found no memory.
pub fn give_up(crews: Vec<NodeCrew>) -> NoMemory {
    let _given_up = crews;
    NoMemory
}
