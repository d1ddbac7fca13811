//! What runs a scenario: all workers at the same time, the drain alone, or one worker after the other in the order of a seed.

ghost use Rattle.std.specs.Prelude.{◌≡◌, IfErr, IfOk};
ghost use Rattle.std.specs.Thread.{IsSync};
ghost use Rattle.am_scenario_types.specs.Lawful.{IsLawful};
ghost use Rattle.am_scenario_types.specs.declared.parts.Network.TheVariants.{Packet};
ghost use Rattle.am_cluster.specs.Runs.{IsRunStopped};
ghost use Rattle.am_library.specs.Runs.{IsRun};

use am_cluster::{OpenGate, alone, run};
pub use am_cluster::{Finished, RunFault, RunJournal};
use am_cluster_schedule::run_scheduled;
use am_scenario_types::Scenario;
use std::alloc::Global;
use std::thread::Threads;

/// Runs scenarios.
pub trait Runner {
    /// Runs a lawful scenario of the packet network. LogFull: the log of a part is full; the journal has what was made before, and obeys
    /// the laws of runs. NoMemory: there is none for the run. What starts threads may be shared between them.
    fn run<T: Threads + Sync>(
        &self,
        rt: &T,
        alloc: Global,
        scenario: &Scenario,
    ) -> Result<Finished, RunFault>
        requires shared { IsSync T.row }
        requires lawful { IsLawful scenario.now }
        requires packet { scenario.now.network ≡ Packet }
        ensures run { IfOk result (λ finished. IsRun scenario.now finished.journal) }
        ensures stopped { IfErr result (IsRunStopped scenario.now) };
}

/// Threads, interfaces and drivers make their turns at the same time, and then the drain.
#[derive(Drop)]
pub struct AtOnce;

/// The drain alone: no turn is made, whatever the scenario says of turns.
#[derive(Drop)]
pub struct DrainAlone;

/// The workers take their turns one at a time, in an order that is drawn from the seed, and then the drain: the same scenario and seed give
/// the same journal.
#[derive(Drop)]
pub struct BySeed(pub u64);

impl Runner for AtOnce {
    #[tactic(auto, using(crate::proofs::Running::is_run))]
    fn run<T: Threads + Sync>(
        &self,
        rt: &T,
        alloc: Global,
        scenario: &Scenario,
    ) -> Result<Finished, RunFault> {
        run(rt, alloc, scenario, &OpenGate)
    }
}

impl Runner for DrainAlone {
    #[tactic(auto, using(crate::proofs::Running::is_alone, crate::proofs::Running::alone_stops))]
    fn run<T: Threads + Sync>(
        &self,
        _rt: &T,
        alloc: Global,
        scenario: &Scenario,
    ) -> Result<Finished, RunFault> {
        alone(alloc, scenario)
    }
}

impl Runner for BySeed {
    #[tactic(auto, using(crate::proofs::Running::is_run))]
    fn run<T: Threads + Sync>(
        &self,
        _rt: &T,
        alloc: Global,
        scenario: &Scenario,
    ) -> Result<Finished, RunFault> {
        run_scheduled(alloc, scenario, self.0)
    }
}
