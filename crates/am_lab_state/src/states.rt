//! The text of a state.

ghost use Rattle.am_lab_state.specs.Texts.{all_ends, declared_lines, packet_lines, state_text};
ghost use Rattle.am_model_scripts.specs.Layout.{layout_of};
ghost use Rattle.am_scenario_types.specs.Lawful.{IsLawful};
ghost use Rattle.am_scenario_types.specs.declared.parts.Network.TheVariants as Networks;
ghost use Rattle.std.specs.List.{flat_map};
ghost use Rattle.std.specs.Prelude.{◌≡◌, ◌<◌, ◌^◌, ◌++◌, IfOk, OnOk, length};

use crate::accepted::put_message_lines;
use crate::channels::put_channels;
use crate::ends::put_end_lines;
use crate::links::put_links;
use crate::nodes::put_stores;
use crate::threads::put_threads;
use am_lab_reasons::journal::journal_in;
use am_machine::Cluster;
use am_names::NoMemory;
use am_office_entries::Entry;
use am_scenario::{EndLine, Network, Scenario};
use std::alloc::Global;

// Appends these endpoints as they stand.
fn put_ends(
    out: &mut Vec<u8>,
    alloc: Global,
    cluster: &Cluster,
    scenario: &Scenario,
    ends: &[EndLine],
) -> Result<(), NoMemory>
    requires { cluster.now.layout ≡ layout_of scenario.now }
    ensures { OnOk result (out.new.items ≡ out.old.items ++ flat_map (declared_lines scenario.now cluster.now.journal) ends.now) }
{
    for end in ends {
        put_end_lines(out, alloc, cluster, scenario.pool, end.id)?;
    }
    Ok(())
}

// Appends the frames and disks, the channels, the links and the threads of the packet network.
#[tactic(auto, using(std::proofs::Common::append_assoc))]
fn put_packet_lines(
    out: &mut Vec<u8>,
    alloc: Global,
    cluster: &Cluster,
    scenario: &Scenario,
    entries: &[Entry],
) -> Result<(), NoMemory>
    requires lawful { IsLawful scenario.now }
    requires layout { cluster.now.layout ≡ layout_of scenario.now }
    requires packet { scenario.now.network ≡ Networks.Packet }
    requires journal { entries.now ≡ cluster.now.journal }
    ensures { OnOk result (out.new.items ≡ out.old.items ++ packet_lines Networks.Packet scenario.now cluster.now.journal) }
{
    put_stores(out, cluster, scenario)?;
    put_channels(out, cluster, scenario)?;
    put_links(out, alloc, cluster, scenario, entries)?;
    put_threads(out, alloc, cluster, scenario)
}

// Appends what there is in the packet network alone.
fn put_network(
    out: &mut Vec<u8>,
    alloc: Global,
    cluster: &Cluster,
    scenario: &Scenario,
    entries: &[Entry],
) -> Result<(), NoMemory>
    requires lawful { IsLawful scenario.now }
    requires layout { cluster.now.layout ≡ layout_of scenario.now }
    requires journal { entries.now ≡ cluster.now.journal }
    ensures { OnOk result (out.new.items ≡ out.old.items ++ packet_lines scenario.now.network scenario.now cluster.now.journal) }
{
    match scenario.network {
        Network::Direct => Ok(()),
        Network::Packet => put_packet_lines(out, alloc, cluster, scenario, entries),
    }
}

// The text of the state of a cluster with these entries.
#[tactic(auto, using(std::proofs::Common::append_assoc))]
fn text_of(
    alloc: Global,
    cluster: &Cluster,
    scenario: &Scenario,
    entries: &[Entry],
) -> Result<Vec<u8>, NoMemory>
    requires lawful { IsLawful scenario.now }
    requires layout { cluster.now.layout ≡ layout_of scenario.now }
    requires journal { entries.now ≡ cluster.now.journal }
    requires few { length entries.now < 2 ^ 31 }
    ensures { IfOk result (λ text. text.items ≡ state_text scenario.now cluster.now.journal) }
{
    let mut out = Vec::new(alloc);
    put_ends(&mut out, alloc, cluster, scenario, &scenario.ends)?;
    put_network(&mut out, alloc, cluster, scenario, entries)?;
    put_message_lines(&mut out, alloc, cluster, scenario, entries)?;
    Ok(out)
}

/// The text of the state of a cluster of the scenario. `NoMemory` comes where there is none for it.
pub(crate) fn state_text(
    alloc: Global,
    cluster: &Cluster,
    scenario: &Scenario,
) -> Result<Vec<u8>, NoMemory>
    requires lawful { IsLawful scenario.now }
    requires layout { cluster.now.layout ≡ layout_of scenario.now }
    requires few { length cluster.now.journal < 2 ^ 31 }
    ensures { IfOk result (λ text. text.items ≡ state_text scenario.now cluster.now.journal) }
{
    let journal = journal_in(alloc, cluster)?;
    text_of(alloc, cluster, scenario, &journal.entries)
}
