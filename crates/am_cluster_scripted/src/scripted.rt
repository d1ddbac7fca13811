//! A cluster that runs the scripts of a scenario: the machine of a drain.

ghost use Rattle.am_cluster_scripted.specs.EndMarks.{AreMarked};
ghost use Rattle.am_cluster_scripted.specs.Links.{AreFed, IsSpared, released_in};
ghost use Rattle.am_cluster_scripted.specs.PairMarks.{ArePaired};
ghost use Rattle.am_machine.specs.View.{Applies, Makes};
ghost use Rattle.am_model.specs.History.{IsHistory, is_in_range};
ghost use Rattle.am_model.specs.Merge.{is_ordered};
ghost use Rattle.am_cluster_scripted.specs.Scripted.{AreParts, cluster_of};
ghost use Rattle.am_cluster_scripted.specs.Tries.{IsLastIfMade};
ghost use Rattle.am_cluster_calls.specs.Threads.{scripted_in, scripted_of};
ghost use Rattle.am_model_drain.specs.Cut.{IsDrainedWithRoom};
ghost use Rattle.am_laws_runs.specs.Turns.Work.{work};
ghost use Rattle.am_cluster_drainer.specs.Stops.{IsDrainStopped};
ghost use Rattle.am_model_scripts.specs.Layout.{layout_of};
ghost use Rattle.am_model.specs.PostOffice.{PostOffice};
ghost use Rattle.am_scenario_types.specs.Lawful.{IsLawful};
ghost use Rattle.am_scenario_types.specs.declared.parts.Network.TheVariants.{Packet};
ghost use Rattle.am_model_scripts.specs.Follows.{is_thread};
ghost use Rattle.am_model_scripts.specs.Scripts.{call_left};
ghost use Rattle.std.specs.Prelude.{◌≡◌, ◌≤◌, ◌*◌, [], IfErr, IfOk, OnOk, length, map, true};

use crate::emissions::{due_on, feed_entry};
use crate::end_marks::{EndMarks, all_shown, mark_touched};
use crate::firsts::{first_bound, first_due, first_missed, next_end, turn_falls};
use crate::links::{LinkTable, make_all_room, no_links};
use crate::looks::{has_bound, head_at, head_by, home, is_frame_held, mail_at, received_requests};
use crate::pair_marks::{PairMarks, all_pairs, mark_pair};
use crate::plan_index::PlanIndex;
use crate::tries::is_last;
use am_cluster_calls::{
    LowMark, ThreadScript, all_scripts, count_event, fewest_from, low_after, next_call, no_low,
};
use am_cluster_drainer::{Drainable, EndHead, EndMail, EndTest, LeftCall, NodePair};
use am_machine::Cluster;
use am_model::{EntryFault, Head};
use am_names::{EndpointId, NodeId};
use am_office_entries::logged::LoggedJournal;
use am_office_entries::{Entry, Event, NoMemory};
use am_scenario_types::{Scenario, ScriptCall};
use core::mem::replace_with;
use std::alloc::Global;
use std::marker::Model;

/// A cluster, the scenario that it runs, and what a drain asks of them beside what the cluster tells. Contracts see it as the
/// scenario and the journal, which is a history of the scenario.
#[derive(Drop)]
pub struct ScriptedCluster<'a> {
    scenario: &'a Scenario,
    plan: PlanIndex<'a>,
    cluster: Cluster,
    /// What each link released.
    links: LinkTable,
    /// What each thread is still to call.
    threads: Vec<ThreadScript>,
    /// Where the thread that made the fewest calls is looked for, while a call is left to any.
    low: Option<LowMark>,
    /// What each endpoint shows.
    ends: EndMarks,
    /// What is due and bound between nodes.
    pairs: PairMarks,
}

impl<'a> Model for ScriptedCluster<'a> {
    ghost use Rattle.am_cluster_scripted.specs.Scripted.{RunView};

    ghost Value = { RunView };

    ghost use Rattle.am_cluster_scripted.specs.Scripted.{IsScripted, view_of};

    ghost view = { view_of };

    ghost invariant = { IsScripted };
}

impl<'a> ScriptedCluster<'a> {
    /// The fresh cluster of a scenario of the packet network. `NoMemory` comes where there is none for its parts.
    pub fn new(alloc: Global, scenario: &'a Scenario) -> Result<ScriptedCluster<'a>, NoMemory>
        requires lawful { IsLawful scenario.now }
        requires packet { scenario.now.network ≡ Packet }
        ensures scenario { IfOk result (λ one. one.scenario ≡ scenario.now) }
        ensures journal { IfOk result (λ one. one.journal ≡ []) }
    {
        let plan = plan_of(alloc, scenario)?;
        let cluster = Cluster::new(alloc, scenario)?;
        let links = no_links(alloc)?;
        let threads = all_scripts(alloc, scenario)?;
        let ends = all_shown(&cluster, scenario);
        let pairs = all_pairs(&cluster, scenario, &links.all);
        Ok(ScriptedCluster {
            scenario,
            plan,
            cluster,
            links,
            threads,
            low: no_low(),
            ends,
            pairs,
        })
    }

    /// The entries in the order of stamp and then part, which obey the laws of the post office. They stay where they
    /// are logged: `NoMemory` comes where there is none for references to them.
    pub fn journal<'b>(&'b self, alloc: Global) -> Result<LoggedJournal<'b>, NoMemory>
        ensures journal { IfOk result (λ journal. journal ≡ self.now.journal) }
        ensures order { IfOk result (λ journal. is_ordered journal ≡ true) }
        ensures laws { IfOk result (λ journal. PostOffice (layout_of self.now.scenario) journal) }
    {
        self.cluster.journal(alloc)
    }

    /// The cluster alone, with all the entries.
    pub fn into_cluster(self) -> Cluster
        ensures layout { result.layout ≡ layout_of self.entry.scenario }
        ensures journal { result.journal ≡ self.entry.journal }
    {
        let ScriptedCluster {
            scenario: _,
            plan: _,
            cluster,
            links: _,
            threads: _,
            low: _,
            ends: _,
            pairs: _,
        } = self;
        cluster
    }

    /// Its scenario is lawful and of the packet network, and its journal is a history of the scenario, stands in the
    /// order of stamp and then part, and obeys the laws of the post office.
    pub fn laws(&self)
        ensures lawful { IsLawful self.now.scenario }
        ensures packet { self.now.scenario.network ≡ Packet }
        ensures history { IsHistory (layout_of self.now.scenario) self.now.journal }
        ensures order { is_ordered self.now.journal ≡ true }
        ensures laws { PostOffice (layout_of self.now.scenario) self.now.journal }
    {
        self.cluster.laws();
    }

    /// The scenario that it runs.
    pub fn scenario(&self) -> &Scenario
        ensures { result.now ≡ self.now.scenario }
    {
        self.scenario
    }

    /// The next call of a declared thread, if one is left.
    pub fn next_call(&self, thread: u8) -> Option<ScriptCall>
        requires { is_thread self.now.scenario thread ≡ true }
        ensures { result ≡ call_left self.now.scenario self.now.journal thread }
    {
        next_call(&self.threads, thread)
    }

    /// Whether the entry of an event, where nothing keeps it from happening, is of a kind that is left to the end.
    pub fn is_last(&self, event: Event) -> bool
        requires { is_in_range (layout_of self.now.scenario) event ≡ true }
        ensures { IsLastIfMade self.now.scenario self.now.journal event result }
    {
        is_last(&self.cluster, self.scenario, event)
    }

    /// Makes the entry of an event. A fault says what keeps it from happening, and changes nothing.
    pub fn step(&mut self, event: Event) -> Result<Entry, EntryFault>
        requires { is_in_range (layout_of self.old.scenario) event ≡ true }
        ensures scenario { self.new.scenario ≡ self.old.scenario }
        ensures applies { Applies (cluster_of self.old) (cluster_of self.new) event result }
        ensures short { OnOk result (length self.new.journal ≤ 272 * self.new.scenario.log) }
    {
        match self.advance(&event) {
            Ok(()) => {}
            Err(fault) => return Err(fault),
        }
        let Some(entry) = self.cluster.last_of(&event) else {
            unreachable!()
        };
        Ok(*entry)
    }

    /// Makes the entry of an event, as `step` does, and answers no copy of it.
    fn advance(&mut self, event: &Event) -> Result<(), EntryFault>
        requires { is_in_range (layout_of self.old.scenario) event.now ≡ true }
        ensures scenario { self.new.scenario ≡ self.old.scenario }
        ensures makes { Makes (cluster_of self.old) (cluster_of self.new) event.now result }
        ensures short { OnOk result (length self.new.journal ≤ 272 * self.new.scenario.log) }
    {
        self.cluster.laws();
        if make_all_room(&mut self.links).is_err() {
            return Err(self.cluster.refusal(event).unwrap_or(EntryFault::NoMemory));
        }
        match self.cluster.make(event) {
            Ok(()) => {
                self.cluster.laws();
                let Some(entry) = self.cluster.last_of(event) else {
                    unreachable!()
                };
                feed_entry(&mut self.links, &self.plan, entry);
                count_event(&mut self.threads, event);
                self.low = low_after(&self.threads, self.low, event);
                mark_touched(&mut self.ends, &self.cluster, self.scenario, entry);
                mark_pair(
                    &mut self.pairs,
                    &self.cluster,
                    self.scenario,
                    &self.links.all,
                    entry,
                );
                Ok(())
            }
            Err(fault) => Err(fault),
        }
    }
}

/// The plan of a scenario.
pub(crate) fn plan_of<'a>(alloc: Global, scenario: &'a Scenario) -> Result<PlanIndex<'a>, NoMemory>
    requires { IsLawful scenario.now }
    ensures { IfOk result (λ plan. plan ≡ scenario.now.plan) }
{
    PlanIndex::new(alloc, &scenario.plan)
}

/// What is kept beside a cluster that has made entries.
#[derive(Drop)]
pub(crate) struct Beside<'a> {
    pub(crate) scenario: &'a Scenario,
    pub(crate) plan: PlanIndex<'a>,
    pub(crate) links: LinkTable,
    pub(crate) threads: Vec<ThreadScript>,
    pub(crate) ends: EndMarks,
    pub(crate) pairs: PairMarks,
}

/// How a drain ended, and what each thread is still to call.
#[derive(Drop)]
pub(crate) struct Drained {
    pub(crate) result: Result<(), EntryFault>,
    pub(crate) threads: Vec<ThreadScript>,
}

/// The drain of a cluster that has made entries.
pub(crate) fn drain_owned<'a>(cluster: Cluster, beside: Beside<'a>) -> (Cluster, Drained)
    requires plan { beside.plan ≡ beside.scenario.now.plan }
    requires spared { IsSpared beside.links }
    requires parts { AreParts beside.scenario.now cluster }
    requires fed { AreFed beside.scenario.now.plan cluster.journal (map released_in beside.links.all.items) }
    requires threads { map scripted_in beside.threads.items ≡ map (scripted_of beside.scenario.now cluster.journal) beside.scenario.now.threads }
    requires ends { AreMarked (layout_of beside.scenario.now) cluster.journal beside.ends }
    requires pairs { ArePaired beside.scenario.now cluster.journal beside.pairs }
    ensures parts { AreParts beside.entry.scenario.now result.0 }
    ensures threads { map scripted_in result.1.threads.items ≡ map (scripted_of beside.entry.scenario.now result.0.journal) beside.entry.scenario.now.threads }
    ensures drained { OnOk result.1.result (IsDrainedWithRoom beside.entry.scenario.now cluster.journal result.0.journal) }
    ensures stopped { IfErr result.1.result (λ fault. IsDrainStopped beside.entry.scenario.now cluster.journal fault result.0.journal) }
{
    let Beside {
        scenario,
        plan,
        links,
        threads,
        ends,
        pairs,
    } = beside;
    let mut machine = ScriptedCluster {
        scenario,
        plan,
        cluster,
        links,
        threads,
        low: no_low(),
        ends,
        pairs,
    };
    let result = am_cluster_drainer::drain(&mut machine);
    let ScriptedCluster {
        scenario: _,
        plan: _,
        cluster,
        links: _,
        threads,
        low: _,
        ends: _,
        pairs: _,
    } = machine;
    (cluster, Drained { result, threads })
}

/// The same, of a cluster that stays where it is.
pub(crate) fn drain_in_place<'a>(cluster: &mut Cluster, beside: Beside<'a>) -> Drained
    requires plan { beside.plan ≡ beside.scenario.now.plan }
    requires spared { IsSpared beside.links }
    requires parts { AreParts beside.scenario.now cluster.old }
    requires fed { AreFed beside.scenario.now.plan cluster.old.journal (map released_in beside.links.all.items) }
    requires threads { map scripted_in beside.threads.items ≡ map (scripted_of beside.scenario.now cluster.old.journal) beside.scenario.now.threads }
    requires ends { AreMarked (layout_of beside.scenario.now) cluster.old.journal beside.ends }
    requires pairs { ArePaired beside.scenario.now cluster.old.journal beside.pairs }
    ensures parts { AreParts beside.entry.scenario.now cluster.new }
    ensures threads { map scripted_in result.threads.items ≡ map (scripted_of beside.entry.scenario.now cluster.new.journal) beside.entry.scenario.now.threads }
    ensures drained { OnOk result.result (IsDrainedWithRoom beside.entry.scenario.now cluster.old.journal cluster.new.journal) }
    ensures stopped { IfErr result.result (λ fault. IsDrainStopped beside.entry.scenario.now cluster.old.journal fault cluster.new.journal) }
{
    replace_with(cluster, beside, drain_owned)
}

impl<'a> Drainable for ScriptedCluster<'a> {
    ghost scenario = { λ m. m.scenario };

    ghost journal = { λ m. m.journal };

    ghost work = { work };

    fn channels(&self) -> u8 {
        let scenario = self.scenario;
        scenario.channels
    }

    fn frames(&self) -> u8 {
        let scenario = self.scenario;
        scenario.frames
    }

    fn keep(&self) -> u8 {
        let scenario = self.scenario;
        scenario.keep
    }

    fn faults(&self) -> u32 {
        let scenario = self.scenario;
        scenario.faults.len() as u32
    }

    fn due(&self, node: NodeId, peer: NodeId) -> Option<u32> {
        due_on(&self.cluster, self.scenario, &self.links.all, node, peer)
    }

    fn is_bound(&self, node: NodeId, peer: NodeId, channel: u8) -> bool {
        has_bound(&self.cluster, self.scenario, node, peer, channel)
    }

    fn first_due(&self) -> Option<NodePair> {
        first_due(&self.cluster, self.scenario, &self.pairs)
    }

    fn first_bound(&self) -> Option<NodePair> {
        first_bound(&self.cluster, self.scenario, &self.pairs)
    }

    fn ends_len(&self) -> usize {
        let scenario = self.scenario;
        scenario.ends.len()
    }

    fn head(&self, index: usize) -> EndHead {
        head_at(&self.cluster, self.scenario, index)
    }

    fn first_missed(&self) -> Option<usize> {
        first_missed(&self.cluster, self.scenario, &self.ends)
    }

    fn next_end(&self, test: EndTest, from: usize) -> Option<usize> {
        next_end(&self.cluster, self.scenario, &self.ends, test, from)
    }

    fn mail(&self, index: usize) -> EndMail {
        mail_at(&self.cluster, self.scenario, index)
    }

    fn home(&self, end: EndpointId) -> Option<NodeId> {
        home(&self.cluster, self.scenario, end)
    }

    fn head_by(&self, end: EndpointId) -> Head {
        head_by(&self.cluster, self.scenario, end)
    }

    fn received_requests(&self, end: EndpointId) -> u8 {
        received_requests(&self.cluster, self.scenario, end)
    }

    fn is_frame_held(&self, node: NodeId, frame: u8) -> bool {
        is_frame_held(&self.cluster, self.scenario, node, frame)
    }

    fn fewest(&self) -> Option<LeftCall> {
        fewest_from(&self.threads, self.low)
    }

    fn apply(&mut self, event: Event) -> Result<(), EntryFault> {
        self.advance(&event)
    }

    fn turns_fall(&self) {
        turn_falls(&self.cluster, self.scenario);
    }
}
