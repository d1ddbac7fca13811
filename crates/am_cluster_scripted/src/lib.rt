//! A cluster that runs the scripts of its scenario: what its links released, what its plan says of their packets, and what its
//! threads are still to call stand beside it, so that the next event of a drain, or whether an event may come next, is told
//! without a look at the journal.
#![tactic(auto)]

ghost use Rattle.am_model_drain.specs.Cut.{IsDrainedWithRoom};
ghost use Rattle.am_cluster_drainer.specs.Stops.{IsDrainEnded, IsDrainStopped};
ghost use Rattle.am_model_scripts.specs.Layout.{layout_of};
ghost use Rattle.am_model.specs.History.{IsHistory};
ghost use Rattle.am_laws_runs.specs.Drained.{HasShortLogs};
ghost use Rattle.am_scenario_types.specs.Lawful.{IsLawful};
ghost use Rattle.am_scenario_types.specs.declared.parts.Network.TheVariants.{Packet};
ghost use Rattle.am_scenario_types.specs.declared.parts.ThreadLine.{ThreadLine};
ghost use Rattle.am_cluster_calls.specs.Threads.{scripted_in, scripted_of};
ghost use Rattle.am_model_scripts.specs.Scripts.{calls_of};
ghost use Rattle.std.specs.Prelude.{◌≡◌, IfErr, IfOk, OnOk, length, map};

mod emissions;
mod end_marks;
mod firsts;
mod links;
mod looks;
mod pair_marks;
mod plan_index;
mod reads;
mod scripted;
mod touched;
mod tries;

use crate::emissions::links_after;
use crate::end_marks::all_shown;
use crate::pair_marks::all_pairs;
pub use crate::scripted::ScriptedCluster;
use crate::scripted::{Beside, Drained, drain_in_place, plan_of};
use am_cluster_calls::{ThreadScript, scripts_after, tell_made};
use am_laws_runs::runs_have_short_logs;
use am_machine::{Cluster, NoMemory};
use am_model::EntryFault;
use am_scenario_types::Scenario;
use std::alloc::Global;

/// Tells how many calls each thread made in the journal of a cluster, which is a history.
fn tell_of(scenario: &Scenario, cluster: &Cluster, threads: &[ThreadScript], made: &mut [u32])
    requires threads { map scripted_in threads.now ≡ map (scripted_of scenario.now cluster.now.journal) scenario.now.threads }
    requires len { length made.old ≡ length threads.now }
    ensures made { made.new ≡ map (λ (t : ThreadLine). length (calls_of t.id cluster.now.journal)) scenario.now.threads }
    ensures history { IsHistory cluster.now.layout cluster.now.journal }
{
    cluster.laws();
    tell_made(threads, made);
}

/// No log of the scenario's cluster has more entries than it may: the cluster keeps that, and nothing is looked at.
pub fn tell_logs(cluster: &Cluster, scenario: &Scenario)
    requires lawful { IsLawful scenario.now }
    requires packet { scenario.now.network ≡ Packet }
    requires layout { cluster.now.layout ≡ layout_of scenario.now }
    ensures { HasShortLogs scenario.now cluster.now.journal }
{
    runs_have_short_logs();
    cluster.laws();
    cluster.logs_are_short();
}

/// Does turns on a cluster of the scenario until no rule applies, and tells what each thread is still to call. NoMemory comes where
/// there is none for what stands beside the cluster, which is as before then.
fn drain_threads(cluster: &mut Cluster, scenario: &Scenario) -> Result<Drained, NoMemory>
    requires lawful { IsLawful scenario.now }
    requires packet { scenario.now.network ≡ Packet }
    requires layout { cluster.old.layout ≡ layout_of scenario.now }
    ensures layout { cluster.new.layout ≡ cluster.old.layout }
    ensures drained { IfOk result (λ drained. OnOk drained.result (IsDrainedWithRoom scenario.now cluster.old.journal cluster.new.journal)) }
    ensures stopped { IfOk result (λ drained. IfErr drained.result (λ fault. IsDrainStopped scenario.now cluster.old.journal fault cluster.new.journal)) }
    ensures threads { IfOk result (λ drained. map scripted_in drained.threads.items ≡ map (scripted_of scenario.now cluster.new.journal) scenario.now.threads) }
    ensures same { IfErr result (λ _. cluster.new ≡ cluster.old) }
{
    tell_logs(cluster, scenario);
    cluster.laws();
    let alloc = *scenario.script.allocator();
    let journal = cluster.journal(alloc)?;
    let entries = journal.entries();
    let plan = plan_of(alloc, scenario)?;
    let links = links_after(alloc, scenario, &plan, entries)?;
    let threads = scripts_after(alloc, scenario, entries)?;
    drop(journal);
    let ends = all_shown(cluster, scenario);
    let pairs = all_pairs(cluster, scenario, &links.all);
    let beside = Beside {
        scenario,
        plan,
        links,
        threads,
        ends,
        pairs,
    };
    Ok(drain_in_place(cluster, beside))
}

/// Does turns on a cluster of the scenario until no rule applies. Ok: the journal is what the drain makes of the one before, and
/// no entry met a full log. LogFull: it is what the drain makes before the first entry that meets a full log, which is the part's.
/// NotEnabled: before the first entry whose event has this condition against it. NoMemory: before an entry that meets no full log, or
/// nothing was made.
#[tactic(auto, using(crate::proofs::Applying::ended_if, crate::proofs::Applying::not_begun))]
pub fn drain_cluster(cluster: &mut Cluster, scenario: &Scenario) -> Result<(), EntryFault>
    requires lawful { IsLawful scenario.now }
    requires packet { scenario.now.network ≡ Packet }
    requires layout { cluster.old.layout ≡ layout_of scenario.now }
    ensures layout { cluster.new.layout ≡ cluster.old.layout }
    ensures drained { OnOk result (IsDrainedWithRoom scenario.now cluster.old.journal cluster.new.journal) }
    ensures stopped { IfErr result (λ fault. IsDrainEnded scenario.now cluster.old.journal fault cluster.new.journal) }
{
    match drain_threads(cluster, scenario) {
        Ok(drained) => drained.result,
        Err(_) => Err(EntryFault::NoMemory),
    }
}

/// The same, with how many calls each thread made: `made` has the numbers in the order of the threads, before and after.
#[tactic(auto, using(crate::proofs::Applying::ended_if, crate::proofs::Applying::not_begun))]
pub fn drain(cluster: &mut Cluster, scenario: &Scenario, made: &mut [u32]) -> Result<(), EntryFault>
    requires lawful { IsLawful scenario.now }
    requires packet { scenario.now.network ≡ Packet }
    requires layout { cluster.old.layout ≡ layout_of scenario.now }
    requires made { made.old ≡ map (λ (t : ThreadLine). length (calls_of t.id cluster.old.journal)) scenario.now.threads }
    ensures layout { cluster.new.layout ≡ cluster.old.layout }
    ensures drained { OnOk result (IsDrainedWithRoom scenario.now cluster.old.journal cluster.new.journal) }
    ensures stopped { IfErr result (λ fault. IsDrainEnded scenario.now cluster.old.journal fault cluster.new.journal) }
    ensures made { made.new ≡ map (λ (t : ThreadLine). length (calls_of t.id cluster.new.journal)) scenario.now.threads }
{
    match drain_threads(cluster, scenario) {
        Ok(drained) => {
            tell_of(scenario, cluster, &drained.threads, made);
            drained.result
        }
        Err(_) => Err(EntryFault::NoMemory),
    }
}

/// How many calls each thread made in the journal of a cluster, in the order of the threads.
pub fn calls_made(
    alloc: Global,
    scenario: &Scenario,
    cluster: &Cluster,
) -> Result<Vec<u32>, NoMemory>
    requires lawful { IsLawful scenario.now }
    requires packet { scenario.now.network ≡ Packet }
    requires layout { cluster.now.layout ≡ layout_of scenario.now }
    ensures { IfOk result (λ made. made.items ≡ map (λ (t : ThreadLine). length (calls_of t.id cluster.now.journal)) scenario.now.threads) }
{
    tell_logs(cluster, scenario);
    cluster.laws();
    let Ok(journal) = cluster.journal(alloc) else {
        return Err(NoMemory);
    };
    let entries = journal.entries();
    let threads = scripts_after(alloc, scenario, entries)?;
    let mut made = vec![in alloc; 0; threads.len()]?;
    tell_of(scenario, cluster, &threads, &mut made);
    Ok(made)
}
