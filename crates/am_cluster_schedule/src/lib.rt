//! Runs whose workers take their turns one at a time, on one thread, in an order that is drawn from a seed: a run of the same scenario
//! and the same seed comes again. The workers and their turns are those of a run at the same time, in another order and nothing else.
#![tactic(auto)]

ghost use Rattle.am_cluster.specs.Runs.{IsFedRun, IsRunDone, IsRunStopped, ObeysRunLaws};
ghost use Rattle.am_cluster_schedule.specs.Schedules.{IsScheduledPhase, IsScheduledRun};
ghost use Rattle.am_model_drain.specs.Follows.{IsGoodPhase};
ghost use Rattle.am_laws_runs.specs.Turns.Runs.{IsWholeRun};
ghost use Rattle.am_scenario_types.specs.Lawful.{IsLawful};
ghost use Rattle.am_scenario_types.specs.declared.parts.Network.TheVariants as Networks;
ghost use Rattle.am_model_scripts.specs.Layout.{layout_of};
ghost use Rattle.std.specs.Prelude.{◌≡◌, [], IfErr, IfOk};

mod laws;
mod lone;
mod order;
mod turns;

pub use crate::laws::each_worker_takes_its_turns;
pub use crate::lone::a_lone_worker_makes_its_work;
use crate::order::Order;
pub use crate::order::{Role, Turn, Worker};
use crate::turns::take_turns;
use am_cluster::{Finished, RunFault, drain_phase};
use am_cluster_crew::unite_crews;
use am_cluster_opening::open_crews;
use am_machine::Cluster;
use am_office_entries::NoMemory;
use am_scenario_types::Scenario;
use std::alloc::Global;

/// What the workers of a scenario of the packet network make in its number of turns, each turn by itself, in the order of the seed: a
/// cluster whose journal is a good phase of the scenario, and the empty one where there are no turns. A worker that meets a full log
/// makes nothing in its further turns. `NoMemory` comes where a worker, or what is done before and after, found none.
#[tactic(auto, using(crate::proofs::Scheduled::scheduled_phase))]
fn make_phase(alloc: Global, scenario: &Scenario, seed: u64) -> Result<Cluster, NoMemory>
    requires lawful { IsLawful scenario.now }
    requires packet { scenario.now.network ≡ Networks.Packet }
    ensures layout { IfOk result (λ cluster. cluster.layout ≡ layout_of scenario.now) }
    ensures good { IfOk result (λ cluster. IsGoodPhase scenario.now cluster.journal) }
    ensures none { IfOk result (λ cluster. scenario.now.turns ≡ 0 → cluster.journal ≡ []) }
    ensures ordered { IfOk result (λ cluster. IsScheduledPhase scenario.now seed cluster.journal) }
{
    let mut crews = open_crews(alloc, scenario)?;
    let mut order = Order::new(alloc, seed, scenario, &crews)?;
    take_turns(alloc, scenario, seed, &mut order, &mut crews);
    unite_crews(alloc, scenario, crews)
}

/// Runs a scenario of the packet network by a seed: its threads, interfaces and drivers take turns one at a time, each as many as the
/// scenario gives, and the next turn is that of a worker that the generator draws among those with turns left; and then comes the
/// drain. What is answered is what a run at the same time may answer: Ok, LogFull and NoMemory are those of `am_cluster::run`. Where
/// memory suffices, the same scenario and seed give the same journal.
#[tactic(auto, using(crate::proofs::Scheduled::fed_run, crate::proofs::Scheduled::scheduled_run))]
pub fn run_scheduled(alloc: Global, scenario: &Scenario, seed: u64) -> Result<Finished, RunFault>
    requires lawful { IsLawful scenario.now }
    requires packet { scenario.now.network ≡ Networks.Packet }
    ensures done { IfOk result (λ finished. IsRunDone scenario.now finished.journal) }
    ensures whole { IfOk result (λ finished. IsWholeRun scenario.now finished.journal) }
    ensures obeys { IfOk result (λ finished. ObeysRunLaws scenario.now finished.journal) }
    ensures stopped { IfErr result (IsRunStopped scenario.now) }
    ensures fed { IsFedRun scenario.now result }
    // It is what the drain makes of a phase in which each worker's turns were taken in the order of the seed.
    ensures ordered { IsScheduledRun scenario.now seed result }
{
    let Ok(cluster) = make_phase(alloc, scenario, seed) else {
        return Err(RunFault::NoMemory);
    };
    drain_phase(scenario, cluster)
}
