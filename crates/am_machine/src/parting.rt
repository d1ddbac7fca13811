//! A cluster of the packet network taken apart into its nodes, and put together again.

ghost use Rattle.am_model_scripts.specs.Layout.{layout_of};
ghost use Rattle.am_machine_journal.specs.Merge.Joined.{AreOne};
ghost use Rattle.am_machine_journal.specs.Index.View.{IsIndexOf};
ghost use Rattle.am_machine.specs.Parting.{settings_from};
ghost use Rattle.am_machine.specs.Parts.{AreNodeParts, CanUnite};
ghost use Rattle.am_machine.specs.Swaps.{IsTallied};
ghost use Rattle.am_model_merge.specs.Logs.{IsRising};
ghost use Rattle.am_model_merge.specs.Merged.{entries_of};
ghost use Rattle.am_model.specs.Layout.{AllAre};
ghost use Rattle.am_machine.specs.Node.Packets.{GoesWithin};
ghost use Rattle.am_machine.specs.Node.Parts.{all_logs, journal_of};
ghost use Rattle.am_machine.specs.Node.Taken.{HasRoomFor, IsEmpty};
ghost use Rattle.am_scenario_types.specs.Lawful.{IsLawful};
ghost use Rattle.am_scenario_types.specs.declared.parts.Network.TheVariants as Networks;
ghost use Rattle.std.specs.Prelude.{◌≡◌, ◌≤◌, [], false, length, vec_capacity, All, IfErr, IfOk};

use crate::Cluster;
use crate::node::{
    NodePart, TakenParts, assemble, deal, gather, index_of, journal_of, open_shells, room_for,
    take_apart,
};
use crate::parts::short_logs;
use crate::settings::Settings;
use am_endpoint::Endpoint;
use am_machine_journal::index::JournalIndex;
use am_office_entries::NoMemory;
use am_scenario_types::{FaultLine, Scenario};
use std::alloc::Global;

/// The settings of a scenario.
fn settings_from(scenario: &Scenario) -> Settings
    ensures { result ≡ settings_from scenario.now }
{
    Settings {
        network: scenario.network,
        nodes: scenario.nodes,
        frames: scenario.frames,
        channels: scenario.channels,
        tries: scenario.tries,
        bounces: scenario.bounces,
        pool: scenario.pool,
        log: scenario.log,
    }
}

/// What a cluster needs memory for when it is put together: all but what its nodes have.
#[derive(Drop)]
struct Frame {
    faults: Vec<FaultLine>,
    index: JournalIndex,
    taken: TakenParts,
    ends: Vec<Endpoint>,
}

/// Makes room for putting the nodes' parts together, and the index of the journal that their logs merge into.
fn open_frame(alloc: Global, scenario: &Scenario, parts: &[NodePart]) -> Result<Frame, NoMemory>
    requires rising { AllAre IsRising (all_logs parts.now) }
    requires one { AreOne (entries_of (all_logs parts.now)) }
    requires within { AllAre GoesWithin (journal_of parts.now) }
    ensures faults { IfOk result (λ frame. frame.faults.items ≡ scenario.now.faults) }
    ensures index { IfOk result (λ frame. IsIndexOf (journal_of parts.now) frame.index.read) }
    ensures none { IfOk result (λ frame. IsEmpty frame.taken) }
    ensures room { IfOk result (λ frame. HasRoomFor (length parts.now) frame.taken) }
    ensures no_ends { IfOk result (λ frame. frame.ends.items ≡ []) }
    ensures ends { IfOk result (λ frame. length scenario.now.ends ≤ vec_capacity frame.ends) }
{
    let index = index_of(alloc, journal_of(alloc, parts)?.entries())?;
    Ok(Frame {
        faults: Vec::from_slice(alloc, &scenario.faults)?,
        index,
        taken: room_for(alloc, parts.len())?,
        ends: Vec::with_capacity(alloc, scenario.ends.len())?,
    })
}

impl Cluster {
    /// Takes a cluster of the packet network apart into the parts of its nodes, in order. Logs, channel ends, links and disks
    /// stay what they are, and the logs merge into its journal; of each disk's calls those failed that were to fail. Where there is
    /// no memory for it the cluster is handed back.
    pub fn split(self, alloc: Global) -> Result<Vec<NodePart>, Cluster>
        requires packet { self.layout.direct ≡ false }
        ensures parts { IfOk result (λ parts. AreNodeParts self.layout self.journal parts.items) }
        ensures journal { IfOk result (λ parts. journal_of parts.items ≡ self.journal) }
        ensures faults { IfOk result (λ parts. All (λ part. IsTallied part.swap) parts.items) }
        ensures err { IfErr result (λ same. same ≡ self) }
    {
        let Ok(shells) = open_shells(alloc, &self.ends, &self.index, self.settings.nodes) else {
            return Err(self);
        };
        let Ok(parts) = Vec::with_capacity(alloc, self.settings.nodes as usize) else {
            return Err(self);
        };
        let Cluster {
            ends,
            interfaces,
            swaps,
            ..
        } = self;
        Ok(assemble(deal(ends, shells), interfaces, swaps, parts))
    }

    /// Puts the parts of a scenario's cluster together: its journal is the one that their logs merge into. Where there is no
    /// memory for it the parts are handed back.
    pub fn unite(
        alloc: Global,
        scenario: &Scenario,
        parts: Vec<NodePart>,
    ) -> Result<Cluster, Vec<NodePart>>
        requires lawful { IsLawful scenario.now }
        requires packet { scenario.now.network ≡ Networks.Packet }
        requires parts { CanUnite scenario.now parts.items }
        ensures layout { IfOk result (λ cluster. cluster.layout ≡ layout_of scenario.now) }
        ensures journal { IfOk result (λ cluster. cluster.journal ≡ journal_of parts.items) }
        ensures err { IfErr result (λ same. same ≡ parts) }
    {
        let Ok(frame) = open_frame(alloc, scenario, &parts) else {
            return Err(parts);
        };
        let Frame {
            faults,
            index,
            taken,
            ends,
        } = frame;
        let TakenParts {
            ends: groups,
            interfaces,
            swaps,
        } = take_apart(parts, taken);
        let ends = gather(&scenario.ends, groups, ends);
        short_logs(&ends);
        Ok(Cluster {
            alloc,
            settings: settings_from(scenario),
            faults,
            ends,
            index,
            interfaces,
            swaps,
        })
    }
}
