//! Runs whose cluster is taken apart into its nodes and put together between a phase of so many turns and its drain. That the drain then
//! makes just what it would have made anyway, the clauses say.

ghost use Rattle.am_model_scripts.specs.Layout.{layout_of};
ghost use Rattle.am_model.specs.Layout.{AllAre};
ghost use Rattle.am_office_entries.specs.declared.Entry.{Entry as Made};
ghost use Rattle.am_scenario_types.specs.Lawful.{IsLawful};
ghost use Rattle.am_scenario_types.specs.declared.parts.Network.TheVariants.{Packet};
ghost use Rattle.am_model_scripts.specs.Links.{ReceivesInOrder};
ghost use Rattle.std.specs.Prelude.{◌≡◌, ◌≤◌, ◌^◌, IfSome, IsTrue};

use crate::workloads::workload;
use am_cluster::{OpenGate, calls_made, drain};
use am_cluster_crew::make_phase;
use am_machine::Cluster;
use am_office_entries::Entry;
use am_scenario::Scenario;
use std::alloc::Global;
use std::process::Abort;

/// Whether no stamp is above 2^63.
fn are_low(entries: &[Entry]) -> bool
    ensures { IsTrue result → AllAre (λ (x : Made). x.stamp ≤ 2 ^ 63) entries.now }
{
    for entry in entries {
        if entry.stamp > 1 << 63 {
            return false;
        }
    }
    true
}

/// Whether no stamp of a cluster's journal is above 2^63. None: there is no memory.
fn is_low(alloc: Global, cluster: &Cluster) -> Option<bool>
    ensures { IfSome result (λ low. IsTrue low → AllAre (λ (x : Made). x.stamp ≤ 2 ^ 63) cluster.now.journal) }
{
    let logged = cluster.journal(alloc).ok()?;
    let journal = logged.copied(alloc).ok()?;
    Some(are_low(&journal.entries))
}

/// The cluster, taken apart into its nodes and put together again. None: there is no memory.
fn parted(alloc: Global, scenario: &Scenario, cluster: Cluster) -> Option<Cluster>
    requires lawful { IsLawful scenario.now }
    requires packet { scenario.now.network ≡ Packet }
    requires layout { cluster.layout ≡ layout_of scenario.now }
    requires in_order { ReceivesInOrder scenario.now cluster.journal }
    requires low { AllAre (λ (x : Made). x.stamp ≤ 2 ^ 63) cluster.journal }
    ensures layout { IfSome result (λ same. same.layout ≡ layout_of scenario.now) }
    ensures journal { IfSome result (λ same. same.journal ≡ cluster.journal) }
{
    cluster.laws();
    let parts = cluster.split(alloc).ok()?;
    Cluster::unite(alloc, scenario, parts).ok()
}

#[test]
fn a_run_goes_on_after_it_was_taken_apart(rt: HostRuntime) {
    for turns in [0, 1, 7, 60, 500] {
        let Ok(scenario) = workload(rt.alloc(), turns) else {
            rt.panic("no workload")
        };
        let Ok(phase) = make_phase(&rt, rt.alloc(), &scenario, &OpenGate) else {
            rt.panic("no phase")
        };
        let Some(true) = is_low(rt.alloc(), &phase) else {
            rt.panic("a stamp is high")
        };
        let Some(mut cluster) = parted(rt.alloc(), &scenario, phase) else {
            rt.panic("no cluster")
        };
        let Ok(mut made) = calls_made(rt.alloc(), &scenario, &cluster) else {
            rt.panic("no calls")
        };
        assert!(rt; drain(&mut cluster, &scenario, &mut made).is_ok());
    }
}
