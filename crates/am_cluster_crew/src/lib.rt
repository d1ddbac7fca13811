//! The phase of a run: the workers of all nodes make their turns at the same time, and what they made is put together to a cluster
//! that a drain may go on from, unless one of them found no memory.
#![tactic(auto)]

ghost use Rattle.am_cluster_crew.specs.Fed.{IsFedPhase, IsNoneStarved};
ghost use Rattle.am_cluster_opening.specs.Crews.{AreCrews, AreLinked};
ghost use Rattle.am_cluster_running.specs.Made.{IsMadeBy};
ghost use Rattle.am_model_drain.specs.Follows.{IsGoodPhase};
ghost use Rattle.am_model_scripts.specs.Layout.{layout_of};
ghost use Rattle.am_scenario_types.specs.Lawful.{IsLawful};
ghost use Rattle.am_scenario_types.specs.declared.parts.Network.TheVariants as Networks;
ghost use Rattle.std.specs.Prelude.{◌≡◌, [], IfOk, OnOk};

use am_cluster_opening::{NodeCrew, open_crews};
pub use am_cluster_running::{Gate, OpenGate};
use am_cluster_running::{found_no_memory, give_up, run_crews, unite_ended};
use am_machine::Cluster;
use am_office_entries::NoMemory;
use am_scenario_types::Scenario;
use std::alloc::Global;
use std::thread::Threads;

/// What the crews of all nodes made, put together to a cluster, wherever their workers stopped: its journal is a good phase of the
/// scenario, and the empty one where there are no turns. `NoMemory` comes where a worker found none, or there is none for the cluster:
/// what the crews made is dropped then. So where a cluster is answered no worker found none.
pub fn unite_crews(
    alloc: Global,
    scenario: &Scenario,
    crews: Vec<NodeCrew>,
) -> Result<Cluster, NoMemory>
    requires lawful { IsLawful scenario.now }
    requires packet { scenario.now.network ≡ Networks.Packet }
    requires crews { AreCrews scenario.now scenario.now.turns crews.items }
    requires linked { AreLinked crews.items }
    ensures layout { IfOk result (λ cluster. cluster.layout ≡ layout_of scenario.now) }
    ensures good { IfOk result (λ cluster. IsGoodPhase scenario.now cluster.journal) }
    ensures none { IfOk result (λ cluster. scenario.now.turns ≡ 0 → cluster.journal ≡ []) }
    ensures made { IfOk result (λ cluster. IsMadeBy scenario.now crews.items cluster.journal) }
    ensures fed { OnOk result (IsNoneStarved crews.items) }
{
    if found_no_memory(&crews) {
        return Err(give_up(crews));
    }
    unite_ended(alloc, scenario, crews)
}

/// What the threads, interfaces and drivers of a scenario of the packet network make in its number of turns, all at the same time:
/// a cluster whose journal is a good phase of the scenario, however they interleave, and the empty one where there are no turns. A
/// worker that meets a full log makes no further turn. `NoMemory` comes where a worker, or what is done before and after, found
/// none: where a cluster is answered no worker did.
#[tactic(auto, using(crate::proofs::Fed::fed_phase))]
pub fn make_phase<R: Threads + Sync, G: Gate + Sync>(
    rt: &R,
    alloc: Global,
    scenario: &Scenario,
    gate: &G,
) -> Result<Cluster, NoMemory>
    requires lawful { IsLawful scenario.now }
    requires packet { scenario.now.network ≡ Networks.Packet }
    ensures layout { IfOk result (λ cluster. cluster.layout ≡ layout_of scenario.now) }
    ensures good { IfOk result (λ cluster. IsGoodPhase scenario.now cluster.journal) }
    ensures none { IfOk result (λ cluster. scenario.now.turns ≡ 0 → cluster.journal ≡ []) }
    ensures fed { IfOk result (λ cluster. IsFedPhase scenario.now cluster.journal) }
{
    let mut crews = open_crews(alloc, scenario)?;
    run_crews(rt, alloc, scenario, gate, &mut crews);
    unite_crews(alloc, scenario, crews)
}
