//! A whole cluster run by the scripts of its scenario: what its threads make at the same time, and then the drain.
#![tactic(auto)]

ghost use Rattle.am_cluster.specs.Runs.{EndsPhase, IsAloneStopped, IsDrainHalted, IsFedRun, IsRunDone, IsRunStopped, ObeysRunLaws};
ghost use Rattle.am_model_drain.specs.Cut.{IsDrainedWithRoom};
ghost use Rattle.am_model_drain.specs.Follows.{IsGoodPhase};
ghost use Rattle.am_cluster_drainer.specs.Stops.{IsDrainStopped};
ghost use Rattle.am_laws_runs.specs.Turns.Runs.{IsWholeRun};
ghost use Rattle.am_model_scripts.specs.Layout.{layout_of};
ghost use Rattle.am_model.specs.History.{IsHistory};
ghost use Rattle.am_model.specs.Merge.{is_ordered};
ghost use Rattle.am_model.specs.PostOffice.{PostOffice};
ghost use Rattle.am_laws_runs.specs.Left.{LeavesNothing};
ghost use Rattle.am_scenario_types.specs.Lawful.{IsLawful};
ghost use Rattle.am_scenario_types.specs.declared.parts.Network.TheVariants.{Packet};
ghost use Rattle.am_scenario_types.specs.declared.parts.ThreadLine.{ThreadLine};
ghost use Rattle.am_model_scripts.specs.Links.{KeepsLinks, ReceivesInOrder};
ghost use Rattle.am_model_scripts.specs.Scripts.{BeginsScripts, calls_of};
ghost use Rattle.std.specs.Prelude.{◌≡◌, ◌≢◌, [], true, IfErr, IfOk, OnOk, length, map};

mod journals;

pub use crate::journals::RunJournal;
use am_cluster_crew::make_phase;
pub use am_cluster_crew::{Gate, OpenGate};
pub use am_cluster_scripted::calls_made;
use am_cluster_scripted::{ScriptedCluster, drain_cluster, tell_logs};
use am_laws_runs::{
    drains_leave_nothing, drains_receive_all, none_is_refused, runs_with_room_are_whole,
};
use am_machine::Cluster;
use am_model::EntryFault;
use am_office_entries::Part;
use am_scenario_types::Scenario;
use std::alloc::Global;
use std::thread::Threads;
use thiserror::Error;

/// A run that came to its end.
#[derive(Drop)]
pub struct Finished {
    pub journal: RunJournal,
}

/// Why a run did not come to its end.
#[derive(Debug, Drop, Error)]
pub enum RunFault {
    /// The log of this part is full, and the next entry would have to go into it. The journal has the entries before it.
    #[error("a log is full")]
    LogFull { part: Part, journal: RunJournal },
    /// There is no memory for the run.
    #[error("there is no memory for the run")]
    NoMemory,
}

/// Why a drain ended before all was at rest. The entries that were made before it stand.
#[derive(Clone, Copy, PartialEq, Eq, Debug, Error)]
pub enum DrainFault {
    /// The log of this part is full, and the next entry would have to go into it.
    #[error("a log is full")]
    LogFull(Part),
    /// There is no memory for an entry.
    #[error("there is no memory for an entry")]
    NoMemory,
}

/// Does what is left to do when no thread runs any more, until all is at rest. The cluster is that of the scenario, and its
/// journal begins the scripts. `made` has the number of calls that each thread made, in the order of the threads, before and
/// after. Ok: the journal is what the drain makes of the one before, and no entry met a full log; all is at rest, every call of
/// the scripts was made, no packet is left to be received, and no message that was accepted is pending. LogFull: it is what the
/// drain makes before the first entry that meets a full log, which is the part's. NoMemory: it is what the drain makes before an
/// entry that meets no full log, or nothing was made.
pub fn drain(cluster: &mut Cluster, scenario: &Scenario, made: &mut [u32]) -> Result<(), DrainFault>
    requires lawful { IsLawful scenario.now }
    requires packet { scenario.now.network ≡ Packet }
    requires layout { cluster.old.layout ≡ layout_of scenario.now }
    requires scripts { BeginsScripts scenario.now cluster.old.journal }
    requires made { made.old ≡ map (λ (t : ThreadLine). length (calls_of t.id cluster.old.journal)) scenario.now.threads }
    ensures layout { cluster.new.layout ≡ cluster.old.layout }
    ensures history { IsHistory cluster.new.layout cluster.new.journal }
    ensures drained { OnOk result (IsDrainedWithRoom scenario.now cluster.old.journal cluster.new.journal) }
    ensures leaves { OnOk result (LeavesNothing scenario.now cluster.new.journal) }
    ensures links { OnOk result (ReceivesInOrder scenario.now cluster.old.journal → KeepsLinks scenario.now cluster.new.journal) }
    ensures stopped { IfErr result (λ fault. IsDrainHalted scenario.now cluster.old.journal fault cluster.new.journal) }
    ensures made { made.new ≡ map (λ (t : ThreadLine). length (calls_of t.id cluster.new.journal)) scenario.now.threads }
{
    none_is_refused();
    drains_leave_nothing();
    drains_receive_all();
    tell_logs(cluster, scenario);
    cluster.laws();
    let drained = am_cluster_scripted::drain(cluster, scenario, made);
    cluster.laws();
    match drained {
        Ok(()) => Ok(()),
        Err(EntryFault::LogFull(part)) => Err(DrainFault::LogFull(part)),
        Err(EntryFault::NoMemory) => Err(DrainFault::NoMemory),
        Err(EntryFault::NotEnabled(_)) => unreachable!(),
    }
}

/// What the drain of an empty journal comes to, by what it answered and the journal that it left.
#[tactic(auto, using(crate::proofs::Obeying::whole_obeys, crate::proofs::Obeying::alone_is_cut_off))]
fn run_of(
    scenario: &Scenario,
    drained: Result<(), EntryFault>,
    journal: RunJournal,
) -> Result<Finished, RunFault>
    requires lawful { IsLawful scenario.now }
    requires packet { scenario.now.network ≡ Packet }
    requires laws { PostOffice (layout_of scenario.now) journal }
    requires order { is_ordered journal ≡ true }
    requires drained { OnOk drained (IsDrainedWithRoom scenario.now [] journal) }
    requires stopped { IfErr drained (λ fault. IsDrainStopped scenario.now [] fault journal) }
    ensures drained { IfOk result (λ finished. IsDrainedWithRoom scenario.now [] finished.journal) }
    ensures whole { IfOk result (λ finished. IsWholeRun scenario.now finished.journal) }
    ensures obeys { IfOk result (λ finished. ObeysRunLaws scenario.now finished.journal) }
    ensures stopped { IfErr result (IsAloneStopped scenario.now) }
{
    none_is_refused();
    runs_with_room_are_whole();
    match drained {
        Ok(()) => Ok(Finished { journal }),
        Err(EntryFault::LogFull(part)) => Err(RunFault::LogFull { part, journal }),
        Err(EntryFault::NoMemory) => Err(RunFault::NoMemory),
        Err(EntryFault::NotEnabled(_)) => unreachable!(),
    }
}

/// Runs a scenario of the packet network without threads: the drain of an empty journal. Ok: the journal is what that drain
/// makes with no entry meeting a full log, a history that follows the scripts and obeys the laws of runs, and no message that
/// was accepted is pending. LogFull: it is what the drain makes before the first entry that meets a full log, which is the
/// part's, and obeys the laws of runs too. NoMemory: there is no memory for the run.
pub fn alone(alloc: Global, scenario: &Scenario) -> Result<Finished, RunFault>
    requires lawful { IsLawful scenario.now }
    requires packet { scenario.now.network ≡ Packet }
    ensures drained { IfOk result (λ finished. IsDrainedWithRoom scenario.now [] finished.journal) }
    ensures whole { IfOk result (λ finished. IsWholeRun scenario.now finished.journal) }
    ensures obeys { IfOk result (λ finished. ObeysRunLaws scenario.now finished.journal) }
    ensures stopped { IfErr result (IsAloneStopped scenario.now) }
{
    let mut machine = match ScriptedCluster::new(alloc, scenario) {
        Ok(machine) => machine,
        Err(_) => return Err(RunFault::NoMemory),
    };
    let drained = am_cluster_drainer::drain(&mut machine);
    machine.laws();
    run_of(scenario, drained, RunJournal::of(machine.into_cluster()))
}

/// The drain of what the threads of a run made: the cluster is that of the scenario, and its journal is a good phase, which is empty
/// where there are no turns. It answers as `run` does of that phase.
pub fn drain_phase(scenario: &Scenario, mut cluster: Cluster) -> Result<Finished, RunFault>
    requires lawful { IsLawful scenario.now }
    requires packet { scenario.now.network ≡ Packet }
    requires layout { cluster.layout ≡ layout_of scenario.now }
    requires good { IsGoodPhase scenario.now cluster.journal }
    requires none { scenario.now.turns ≡ 0 → cluster.journal ≡ [] }
    ensures ends { EndsPhase scenario.now cluster.journal result }
    ensures done { IfOk result (λ finished. IsRunDone scenario.now finished.journal) }
    ensures whole { IfOk result (λ finished. IsWholeRun scenario.now finished.journal) }
    ensures obeys { IfOk result (λ finished. ObeysRunLaws scenario.now finished.journal) }
    ensures stopped { IfErr result (IsRunStopped scenario.now) }
{
    none_is_refused();
    tell_logs(&cluster, scenario);
    let drained = drain_cluster(&mut cluster, scenario);
    cluster.laws();
    let journal = RunJournal::of(cluster);
    match drained {
        Ok(()) => Ok(Finished { journal }),
        Err(EntryFault::LogFull(full)) => Err(RunFault::LogFull {
            part: full,
            journal,
        }),
        Err(EntryFault::NoMemory) => Err(RunFault::NoMemory),
        Err(EntryFault::NotEnabled(_)) => unreachable!(),
    }
}

/// The run of a scenario without turns: its phase is empty, so the drain is all of it, and no crew is opened.
#[tactic(auto, using(crate::proofs::Obeying::alone_is_done, crate::proofs::Obeying::alone_is_stopped))]
fn run_without_turns(alloc: Global, scenario: &Scenario) -> Result<Finished, RunFault>
    requires lawful { IsLawful scenario.now }
    requires packet { scenario.now.network ≡ Packet }
    ensures done { IfOk result (λ finished. IsRunDone scenario.now finished.journal) }
    ensures whole { IfOk result (λ finished. IsWholeRun scenario.now finished.journal) }
    ensures obeys { IfOk result (λ finished. ObeysRunLaws scenario.now finished.journal) }
    ensures stopped { IfErr result (IsRunStopped scenario.now) }
{
    alone(alloc, scenario)
}

/// Runs a scenario of the packet network: its threads, interfaces and drivers at the same time, each for the scenario's number of
/// turns, and then the drain. Nothing is asked of the turns or of the schedule. Ok: the journal is a good phase, which is empty
/// where there are no turns, and what the drain makes of it with no entry meeting a full log. It is a history that follows the
/// scripts and obeys the laws of runs, and no message that was accepted is pending. LogFull: it is a good phase, and what the drain
/// makes of it before the first entry that meets a full log, which is the part's, and obeys the laws of runs too. NoMemory: there
/// is no memory for the run, and where a worker found none nothing is drained.
#[tactic(auto, using(crate::proofs::Obeying::fed_run))]
pub fn run<R: Threads + Sync, G: Gate + Sync>(
    rt: &R,
    alloc: Global,
    scenario: &Scenario,
    gate: &G,
) -> Result<Finished, RunFault>
    requires lawful { IsLawful scenario.now }
    requires packet { scenario.now.network ≡ Packet }
    ensures done { IfOk result (λ finished. IsRunDone scenario.now finished.journal) }
    ensures whole { IfOk result (λ finished. IsWholeRun scenario.now finished.journal) }
    ensures obeys { IfOk result (λ finished. ObeysRunLaws scenario.now finished.journal) }
    ensures stopped { IfErr result (IsRunStopped scenario.now) }
    ensures fed { scenario.now.turns ≢ 0 → IsFedRun scenario.now result }
{
    if scenario.turns == 0 {
        return run_without_turns(alloc, scenario);
    }
    let Ok(cluster) = make_phase(rt, alloc, scenario, gate) else {
        return Err(RunFault::NoMemory);
    };
    drain_phase(scenario, cluster)
}
