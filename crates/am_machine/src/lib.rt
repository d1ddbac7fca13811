//! The cluster: endpoints and interfaces whose logs are the parts of one journal, and the events that may happen to them.
#![tactic(auto)]

ghost use Rattle.am_model_scripts.specs.Layout.{layout_of};
ghost use Rattle.am_machine.specs.View.{Applies, Makes};
ghost use Rattle.am_model.specs.Cluster.{ClusterInvariant};
ghost use Rattle.am_model.specs.History.{IsHistory, is_in_range};
ghost use Rattle.am_model.specs.Layout as layouts;
ghost use Rattle.am_model.specs.Merge.{is_ordered};
ghost use Rattle.am_model.specs.PostOffice.{PostOffice};
ghost use Rattle.am_scenario_types.specs.Lawful.{IsLawful};
ghost use Rattle.std.specs.Prelude.{◌≡◌, true, [], IfOk};

mod calls;
mod carries;
mod ends;
mod frames;
mod interfaces;
mod lasts;
mod logs;
mod moves;
pub mod node;
mod opening;
mod parting;
mod parts;
mod refusals;
mod settings;
mod swaps;
mod turned;
mod turns;
mod ways;

use crate::interfaces::open_interfaces;
use crate::logs::logs_of;
pub use crate::node::NodePart;
use crate::opening::open_ends;
use crate::settings::Settings;
use crate::swaps::open_swaps;
use am_endpoint::Endpoint;
use am_iface::Interface;
use am_laws::post_office;
use am_laws_cluster::cluster_holds;
use am_machine_journal::index::JournalIndex;
use am_machine_journal::merge::join;
pub use am_model::EntryFault as ApplyFault;
pub use am_office_entries::NoMemory;
use am_office_entries::logged::LoggedJournal;
use am_office_entries::{Entry, Event};
use am_scenario_types::{FaultLine, Scenario};
use am_swap::MemorySwap;
use std::alloc::Global;
use std::marker::Model;

/// A cluster. Contracts see it as the layout in which it began and its journal, which is a history of that layout.
#[derive(Drop)]
pub struct Cluster {
    alloc: Global,
    settings: Settings,
    faults: Vec<FaultLine>,
    ends: Vec<Endpoint>,
    /// What is read off the journal that the logs of endpoints and interfaces merge into.
    index: JournalIndex,
    /// One for each node of the packet network, by its number; none in the direct network.
    interfaces: Vec<Interface>,
    /// The disk of each node of the packet network, by its number; none in the direct network.
    swaps: Vec<MemorySwap>,
}

impl Model for Cluster {
    ghost use Rattle.am_machine.specs.View.{ClusterView};

    ghost Value = { ClusterView };

    ghost use Rattle.am_machine.specs.Kept.{cluster_in, IsCluster};

    ghost view = { cluster_in };

    ghost invariant = { IsCluster };
}

impl Cluster {
    /// The cluster of a lawful scenario, with an empty journal. `NoMemory` comes where there is none for its parts.
    pub fn new(alloc: Global, scenario: &Scenario) -> Result<Cluster, NoMemory>
        requires { IsLawful scenario.now }
        ensures layout { IfOk result (λ cluster. cluster.layout ≡ layout_of scenario.now) }
        ensures journal { IfOk result (λ cluster. cluster.journal ≡ []) }
    {
        let settings = Settings {
            network: scenario.network,
            nodes: scenario.nodes,
            frames: scenario.frames,
            channels: scenario.channels,
            tries: scenario.tries,
            bounces: scenario.bounces,
            pool: scenario.pool,
            log: scenario.log,
        };
        let ends = open_ends(alloc, &settings, &scenario.ends)?;
        let Ok(faults) = Vec::from_slice(alloc, &scenario.faults) else {
            return Err(NoMemory);
        };
        let index = JournalIndex::new(alloc)?;
        let interfaces = open_interfaces(alloc, &settings, &scenario.ends)?;
        let swaps = open_swaps(alloc, &settings, &scenario.faults, &scenario.ends)?;
        Ok(Cluster {
            alloc,
            settings,
            faults,
            ends,
            index,
            interfaces,
            swaps,
        })
    }

    /// Applies an event: Ok is the one entry that the definitions give, and a refusal names the first condition that
    /// doesn't hold, or the log that is full, or tells that there is no memory for the entry. A refusal changes nothing.
    pub fn apply(&mut self, event: &Event) -> Result<Entry, ApplyFault>
        requires in_range { is_in_range self.old.layout event.now ≡ true }
        ensures { Applies self.old self.new event.now result }
    {
        match self.make(event) {
            Ok(()) => match self.last_of(event) {
                Some(entry) => Ok(*entry),
                None => unreachable!(),
            },
            Err(fault) => Err(fault),
        }
    }

    /// Makes the entry of an event, as `apply` does, and answers no copy of it.
    pub fn make(&mut self, event: &Event) -> Result<(), ApplyFault>
        requires in_range { is_in_range self.old.layout event.now ≡ true }
        ensures { Makes self.old self.new event.now result }
    {
        match *event {
            Event::Call { actor, end, call } => self.call(actor, end, call),
            Event::Want { actor, end } => self.want(actor, end),
            Event::Carry { end } => self.carry(end),
            Event::Bind { node, end } => self.bind(node, end),
            Event::Expire {
                node,
                peer,
                channel,
            } => self.expire(node, peer, channel),
            Event::Receive { node, peer, number } => self.receive(node, peer, number),
            Event::Drain { node, end }
            | Event::Unload { node, end }
            | Event::Load { node, end, .. }
            | Event::PageOut { node, end }
            | Event::PageIn { node, end } => self.make_move(*event, node, end),
        }
    }

    /// The entries in the order of stamp and then part, which are a history of a lawful layout, obey the laws of the post office and
    /// keep the invariant of the cluster. The logs of endpoints and interfaces are merged, and the entries stay in them: `NoMemory`
    /// comes where there is none for references to them.
    pub fn journal<'a>(&'a self, alloc: Global) -> Result<LoggedJournal<'a>, NoMemory>
        ensures journal { IfOk result (λ journal. journal ≡ self.now.journal) }
        ensures order { IfOk result (λ journal. is_ordered journal ≡ true) }
        ensures lawful { layouts.IsLawful self.now.layout }
        ensures history { IfOk result (λ journal. IsHistory self.now.layout journal) }
        ensures laws { IfOk result (λ journal. PostOffice self.now.layout journal) }
        ensures invariant { IfOk result (λ journal. ClusterInvariant self.now.layout journal) }
    {
        post_office();
        cluster_holds();
        let logs = logs_of(alloc, &self.ends, &self.interfaces)?;
        join(alloc, &logs)
    }
}
