//! A scenario of the packet network made in code, declaration by declaration and call by call. It is lawful at every place, so what runs
//! it asks nothing more of the caller.

ghost use Rattle.std.specs.Prelude.{◌≡◌, ◌==◌, ◌<◌, ◌^◌, ◌∷◌, ◌++◌, [], IfOk, OnErr, OnOk, find, length};
ghost use Rattle.std.specs.List.{list_any};
ghost use Rattle.am_model.specs.Choice.{first_holding};
ghost use Rattle.am_model.specs.Layout.{end_at};
ghost use Rattle.am_scenario_types.specs.Lawful.{IsLawful, IsOfForm, node_of, thread_node};
ghost use Rattle.am_office_entries.specs.declared.Call.TheVariants.{Map, Poll, Request, SetHandler};
ghost use Rattle.am_scenario_plan.specs.declared.plan.LinkFault.TheVariants.{Late, Lose, Repeat};
ghost use Rattle.am_scenario_types.specs.declared.parts.Form.TheVariants.{Run};
ghost use Rattle.am_scenario_types.specs.declared.parts.Network.TheVariants as Networks;
ghost use Rattle.am_library_drafts.specs.Drafts as draft;
ghost use Rattle.am_library_drafts.specs.Drafts.{IsRefusedFor, IsTyped, started, with_call, with_end, with_plan, with_setting, with_thread};

use am_names::{EndpointId, NodeId, Tag, Words};
use am_office_entries::{Call, HandlerKind};
use am_scenario_types::{EndLine, LinkFault, Network, PlanLine, Scenario, ScriptCall, ThreadLine};
use std::alloc::{AllocError, Global};
use std::marker::Model;
use thiserror::Error;

/// Why a draft did not take something. It is as it was.
#[derive(Clone, Copy, Debug, Error)]
pub enum DraftFault {
    /// There is no such node.
    #[error("there is no such node")]
    NoNode,
    /// The thread isn't declared.
    #[error("the thread isn't declared")]
    NoThread,
    /// The endpoint, or the one that a map names, isn't declared.
    #[error("the endpoint isn't declared")]
    NoEndpoint,
    /// The thread and the endpoint are on different nodes.
    #[error("the endpoint is on another node than the thread")]
    OtherNode,
    /// A number is out of its range.
    #[error("a number is out of its range")]
    BadNumber,
    /// The plan has a line of this packet.
    #[error("the packet has its line in the plan")]
    Planned,
    /// There are as many as there may be: 256 endpoints, 64 on a node; 64 threads, 4 on a node; 16,384 calls; 4,096 lines of the plan.
    #[error("there are as many as there may be")]
    Full,
    /// There is no memory.
    #[error("there is no memory")]
    NoMemory,
}

/// A number that a run has. Each has a value before it is set.
#[derive(Clone, Copy)]
pub enum Setting {
    /// How many frames each node has, 2 to 16; 2 where it isn't set.
    Frames(u8),
    /// How many channels lead from each node to each, 1 to 4; 1.
    Channels(u8),
    /// How often a binding is tried, 2 to 16; 4.
    Tries(u8),
    /// How often a message goes back to its queue, 0 to 16; 3.
    Bounces(u8),
    /// How many endpoints of a node are kept on the host, 0 to 64; 64.
    Keep(u8),
    /// How many entries a log takes, 1 to 65,536; 65,536.
    Log(u32),
    /// How many turns each worker makes before the drain, 0 to 10,000; 0.
    Turns(u32),
}

/// A scenario in the making. Contracts see what it says so far.
#[derive(Drop)]
pub struct Draft {
    scenario: Scenario,
}

impl Model for Draft {
    ghost use Rattle.am_scenario_types.specs.Lists.{ScenarioLists};
    ghost use Rattle.am_library_drafts.specs.Drafts.{IsDraft};

    ghost Value = { ScenarioLists };

    ghost view = { λ draft. draft.scenario };

    ghost invariant = { λ draft. IsDraft draft.scenario };
}

// The first condition that holds, with its fault.
fn holding(conditions: &[(bool, DraftFault)]) -> Option<(bool, DraftFault)>
    ensures { result ≡ find (λ condition. condition.0) conditions.now }
{
    conditions.iter().copied().find(|condition| condition.0)
}

// The fault of the first condition that holds.
#[tactic(auto, using(crate::proofs::Faulty::fault_found, crate::proofs::Faulty::no_fault))]
fn first_fault(conditions: &[(bool, DraftFault)]) -> Option<DraftFault>
    ensures { result ≡ first_holding conditions.now }
{
    match holding(conditions) {
        Some(condition) => Some(condition.1),
        None => None,
    }
}

fn is_within(low: u32, high: u32, n: u32) -> bool
    ensures { result ≡ draft.is_within low high n }
{
    low <= n && n <= high
}

fn is_good_setting(setting: Setting) -> bool
    ensures { result ≡ draft.is_good_setting setting }
{
    match setting {
        Setting::Frames(n) | Setting::Tries(n) => is_within(2, 16, u32::from(n)),
        Setting::Channels(n) => is_within(1, 4, u32::from(n)),
        Setting::Bounces(n) => n <= 16,
        Setting::Keep(n) => n <= 64,
        Setting::Log(n) => is_within(1, 65_536, n),
        Setting::Turns(n) => n <= 10_000,
    }
}

fn put_setting(scenario: &mut Scenario, setting: Setting)
    ensures { scenario.new ≡ with_setting scenario.old setting }
{
    match setting {
        Setting::Frames(n) => scenario.frames = n,
        Setting::Channels(n) => scenario.channels = n,
        Setting::Tries(n) => scenario.tries = n,
        Setting::Bounces(n) => scenario.bounces = n,
        Setting::Keep(n) => scenario.keep = n,
        Setting::Log(n) => scenario.log = n,
        Setting::Turns(n) => scenario.turns = n,
    }
}

fn end_count(scenario: &Scenario) -> usize
    ensures { result ≡ length scenario.now.ends }
{
    scenario.ends.len()
}

fn thread_count(scenario: &Scenario) -> usize
    ensures { result ≡ length scenario.now.threads }
{
    scenario.threads.len()
}

fn ends_on(scenario: &Scenario, node: NodeId) -> usize
    ensures { result ≡ draft.ends_on scenario.now node }
{
    scenario
        .ends
        .iter()
        .filter(|end| end.node.0 == node.0)
        .count()
}

fn end_fault(scenario: &Scenario, node: NodeId) -> Option<DraftFault>
    ensures { result ≡ draft.end_fault scenario.now node }
{
    first_fault(&[
        (scenario.nodes <= node.0, DraftFault::NoNode),
        (256 <= end_count(scenario), DraftFault::Full),
        (64 <= ends_on(scenario, node), DraftFault::Full),
    ])
}

fn threads_on(scenario: &Scenario, node: NodeId) -> usize
    ensures { result ≡ draft.threads_on scenario.now node }
{
    scenario
        .threads
        .iter()
        .filter(|thread| thread.node.0 == node.0)
        .count()
}

fn thread_fault(scenario: &Scenario, node: NodeId) -> Option<DraftFault>
    ensures { result ≡ draft.thread_fault scenario.now node }
{
    first_fault(&[
        (scenario.nodes <= node.0, DraftFault::NoNode),
        (64 <= thread_count(scenario), DraftFault::Full),
        (4 <= threads_on(scenario, node), DraftFault::Full),
    ])
}

fn end_of(ends: &[EndLine], id: EndpointId) -> Option<EndLine>
    ensures { result ≡ find (λ end. end.id.0 == id.0) ends.now }
{
    ends.iter().copied().find(|end| end.id.0 == id.0)
}

// The node of an endpoint.
fn node_of(ends: &[EndLine], id: EndpointId) -> Option<NodeId>
    ensures { result ≡ node_of ends.now id }
{
    match end_of(ends, id) {
        Some(end) => Some(end.node),
        None => None,
    }
}

fn thread_of(threads: &[ThreadLine], id: u8) -> Option<ThreadLine>
    ensures { result ≡ find (λ thread. thread.id == id) threads.now }
{
    threads.iter().copied().find(|thread| thread.id == id)
}

// The node of a thread.
fn thread_node(threads: &[ThreadLine], id: u8) -> Option<NodeId>
    ensures { result ≡ thread_node threads.now id }
{
    match thread_of(threads, id) {
        Some(thread) => Some(thread.node),
        None => None,
    }
}

fn are_together(node: Option<NodeId>, other: Option<NodeId>) -> bool
    ensures { result ≡ draft.are_together node other }
{
    match (node, other) {
        (Some(node), Some(other)) => node.0 == other.0,
        _ => false,
    }
}

fn is_good_kind(kind: HandlerKind) -> bool
    ensures { result ≡ draft.is_good_kind kind }
{
    match kind {
        HandlerKind::Note => true,
        HandlerKind::Echo(to) | HandlerKind::Add(to) => is_within(1, 15, u32::from(to)),
    }
}

fn is_good_call(call: Call) -> bool
    ensures { result ≡ draft.is_good_call call }
{
    match call {
        Call::Map { credits, .. } => is_within(1, 8, u32::from(credits)),
        Call::SetHandler { kind, .. } => is_good_kind(kind),
        _ => true,
    }
}

fn names_nothing(ends: &[EndLine], call: Call) -> bool
    ensures { result ≡ draft.names_nothing ends.now call }
{
    match call {
        Call::Map { name, .. } => node_of(ends, name).is_none(),
        _ => false,
    }
}

fn call_fault(scenario: &Scenario, made: ScriptCall) -> Option<DraftFault>
    ensures { result ≡ draft.call_fault scenario.now made }
{
    let on = thread_node(&scenario.threads, made.thread);
    let at = node_of(&scenario.ends, made.endpoint);
    let nothing = at.is_none() || names_nothing(&scenario.ends, made.call);
    first_fault(&[
        (on.is_none(), DraftFault::NoThread),
        (nothing, DraftFault::NoEndpoint),
        (!are_together(on, at), DraftFault::OtherNode),
        (!is_good_call(made.call), DraftFault::BadNumber),
        (16_384 <= scenario.script.len(), DraftFault::Full),
    ])
}

fn is_good_fault(fault: LinkFault) -> bool
    ensures { result ≡ draft.is_good_fault fault }
{
    match fault {
        LinkFault::Lose | LinkFault::Repeat => true,
        LinkFault::Late(by) => is_within(1, 16, u32::from(by)),
    }
}

fn is_planned(plan: &[PlanLine], line: PlanLine) -> bool
    ensures { result ≡ list_any (draft.is_same_packet line) plan.now }
{
    plan.iter().any(|other| {
        other.from.0 == line.from.0 && other.to.0 == line.to.0 && other.number == line.number
    })
}

fn plan_fault(scenario: &Scenario, line: PlanLine) -> Option<DraftFault>
    ensures { result ≡ draft.plan_fault scenario.now line }
{
    let nowhere = scenario.nodes <= line.from.0 || scenario.nodes <= line.to.0;
    let good = is_within(1, 65_536, line.number) && is_good_fault(line.fault);
    first_fault(&[
        (nowhere, DraftFault::NoNode),
        (!good, DraftFault::BadNumber),
        (is_planned(&scenario.plan, line), DraftFault::Planned),
        (4_096 <= scenario.plan.len(), DraftFault::Full),
    ])
}

// The numbers of a call are in the ranges of their types.
fn call_is_typed(call: Call)
    ensures { IsTyped call }
{
    match call {
        Call::Request { .. } => {}
        Call::Poll | Call::Close | Call::Test(_) => {}
        Call::SetTag(_) => {}
        Call::Map { .. } => {}
        Call::Unmap(_) => {}
        Call::SetHandler { .. } => {}
        Call::GiveUp(_) => {}
    }
}

fn tag_is_typed(tag: Tag)
    ensures { tag.0 < 2 ^ 64 }
{}

fn put_end(scenario: &mut Scenario, line: EndLine) -> Result<(), AllocError>
    ensures ok { OnOk result (scenario.new ≡ record scenario.old { ends = scenario.old.ends ++ line ∷ [] }) }
    ensures err { OnErr result (scenario.new ≡ scenario.old) }
{
    scenario.ends.push(line)?;
    Ok(())
}

fn put_thread(scenario: &mut Scenario, line: ThreadLine) -> Result<(), AllocError>
    ensures ok { OnOk result (scenario.new ≡ record scenario.old { threads = scenario.old.threads ++ line ∷ [] }) }
    ensures err { OnErr result (scenario.new ≡ scenario.old) }
{
    scenario.threads.push(line)?;
    Ok(())
}

fn put_call(scenario: &mut Scenario, made: ScriptCall) -> Result<(), AllocError>
    ensures ok { OnOk result (scenario.new ≡ with_call scenario.old made) }
    ensures err { OnErr result (scenario.new ≡ scenario.old) }
{
    scenario.script.push(made)?;
    Ok(())
}

fn put_line(scenario: &mut Scenario, line: PlanLine) -> Result<(), AllocError>
    ensures ok { OnOk result (scenario.new ≡ with_plan scenario.old line) }
    ensures err { OnErr result (scenario.new ≡ scenario.old) }
{
    scenario.plan.push(line)?;
    Ok(())
}

impl Draft {
    /// A scenario with so many nodes, 1 to 16, and nothing else. BadNumber: there are none, or more.
    pub fn new(alloc: Global, nodes: u8) -> Result<Draft, DraftFault>
        ensures ok { IfOk result (λ made. made ≡ started nodes) }
        ensures refused { IsRefusedFor result (draft.start_fault nodes) }
    {
        if !is_within(1, 16, u32::from(nodes)) {
            return Err(DraftFault::BadNumber);
        }
        Ok(Draft {
            scenario: Scenario {
                network: Network::Packet,
                nodes,
                frames: 2,
                channels: 1,
                tries: 4,
                bounces: 3,
                pool: None,
                keep: 64,
                log: 65_536,
                turns: 0,
                ends: Vec::new(alloc),
                bundles: Vec::new(alloc),
                threads: Vec::new(alloc),
                plan: Vec::new(alloc),
                faults: Vec::new(alloc),
                script: Vec::new(alloc),
                steps: Vec::new(alloc),
            },
        })
    }

    /// How many nodes it has.
    pub fn nodes(&self) -> u8
        ensures { result ≡ self.now.nodes }
    {
        self.scenario.nodes
    }

    /// Sets a number of the run. BadNumber: it is out of its range.
    pub fn set(&mut self, setting: Setting) -> Result<(), DraftFault>
        ensures ok { OnOk result (self.new ≡ with_setting self.old setting) }
        ensures err { OnErr result (self.new ≡ self.old) }
        ensures refused { IsRefusedFor result (draft.setting_fault setting) }
    {
        if !is_good_setting(setting) {
            return Err(DraftFault::BadNumber);
        }
        put_setting(&mut self.scenario, setting);
        Ok(())
    }

    /// Declares an endpoint on a node, with its own tag. It gets the next number, from 0 on.
    pub fn endpoint(&mut self, node: NodeId, tag: Tag) -> Result<EndpointId, DraftFault>
        ensures id { IfOk result (λ id. id ≡ end_at (length self.old.ends)) }
        ensures ok { OnOk result (self.new ≡ with_end self.old node tag) }
        ensures err { OnErr result (self.new ≡ self.old) }
        ensures refused { IsRefusedFor result (draft.end_fault self.old node) }
    {
        match end_fault(&self.scenario, node) {
            Some(fault) => return Err(fault),
            None => {}
        }
        tag_is_typed(tag);
        let id = EndpointId(end_count(&self.scenario) as u8);
        let line = EndLine {
            id,
            node,
            tag,
            disk: false,
        };
        match put_end(&mut self.scenario, line) {
            Ok(()) => Ok(id),
            Err(_) => Err(DraftFault::NoMemory),
        }
    }

    /// Declares a thread on a node. It gets the next number, from 0 on.
    pub fn thread(&mut self, node: NodeId) -> Result<u8, DraftFault>
        ensures id { IfOk result (λ id. id ≡ length self.old.threads) }
        ensures ok { OnOk result (self.new ≡ with_thread self.old node) }
        ensures err { OnErr result (self.new ≡ self.old) }
        ensures refused { IsRefusedFor result (draft.thread_fault self.old node) }
    {
        match thread_fault(&self.scenario, node) {
            Some(fault) => return Err(fault),
            None => {}
        }
        let id = thread_count(&self.scenario) as u8;
        match put_thread(&mut self.scenario, ThreadLine { id, node }) {
            Ok(()) => Ok(id),
            Err(_) => Err(DraftFault::NoMemory),
        }
    }

    /// The next call of a thread.
    pub fn call(&mut self, made: ScriptCall) -> Result<(), DraftFault>
        ensures ok { OnOk result (self.new ≡ with_call self.old made) }
        ensures err { OnErr result (self.new ≡ self.old) }
        ensures refused { IsRefusedFor result (draft.call_fault self.old made) }
    {
        match call_fault(&self.scenario, made) {
            Some(fault) => return Err(fault),
            None => {}
        }
        call_is_typed(made.call);
        match put_call(&mut self.scenario, made) {
            Ok(()) => Ok(()),
            Err(_) => Err(DraftFault::NoMemory),
        }
    }

    /// A thread sets what a handler of an endpoint does, 1 to 15.
    pub fn handler(
        &mut self,
        thread: u8,
        endpoint: EndpointId,
        index: u8,
        kind: HandlerKind,
    ) -> Result<(), DraftFault>
        ensures ok { OnOk result (self.new ≡ with_call self.old (draft.made thread endpoint (SetHandler index kind))) }
        ensures err { OnErr result (self.new ≡ self.old) }
        ensures refused { IsRefusedFor result (draft.call_fault self.old (draft.made thread endpoint (SetHandler index kind))) }
    {
        self.call(ScriptCall {
            thread,
            endpoint,
            call: Call::SetHandler { index, kind },
        })
    }

    /// A thread makes an index of an endpoint, 0 to 15, name another, with the tag that its requests carry and 1 to 8 credits.
    pub fn map(
        &mut self,
        thread: u8,
        endpoint: EndpointId,
        index: u8,
        name: EndpointId,
        tag: Tag,
        credits: u8,
    ) -> Result<(), DraftFault>
        ensures ok { OnOk result (self.new ≡ with_call self.old (draft.made thread endpoint (Map index name tag credits))) }
        ensures err { OnErr result (self.new ≡ self.old) }
        ensures refused { IsRefusedFor result (draft.call_fault self.old (draft.made thread endpoint (Map index name tag credits))) }
    {
        self.call(ScriptCall {
            thread,
            endpoint,
            call: Call::Map {
                index,
                name,
                tag,
                credits,
            },
        })
    }

    /// A thread sends a request by an index of an endpoint, for a handler of the endpoint that the index names.
    pub fn request(
        &mut self,
        thread: u8,
        endpoint: EndpointId,
        index: u8,
        handler: u8,
        words: Words,
    ) -> Result<(), DraftFault>
        ensures ok { OnOk result (self.new ≡ with_call self.old (draft.made thread endpoint (Request index handler words))) }
        ensures err { OnErr result (self.new ≡ self.old) }
        ensures refused { IsRefusedFor result (draft.call_fault self.old (draft.made thread endpoint (Request index handler words))) }
    {
        self.call(ScriptCall {
            thread,
            endpoint,
            call: Call::Request {
                index,
                handler,
                words,
            },
        })
    }

    /// A thread runs what is next at an endpoint.
    pub fn poll(&mut self, thread: u8, endpoint: EndpointId) -> Result<(), DraftFault>
        ensures ok { OnOk result (self.new ≡ with_call self.old (draft.made thread endpoint (Poll))) }
        ensures err { OnErr result (self.new ≡ self.old) }
        ensures refused { IsRefusedFor result (draft.call_fault self.old (draft.made thread endpoint (Poll))) }
    {
        self.call(ScriptCall {
            thread,
            endpoint,
            call: Call::Poll,
        })
    }

    /// What a link does with a packet, by its place among those that it carries, from 1.
    pub fn plan(&mut self, line: PlanLine) -> Result<(), DraftFault>
        ensures ok { OnOk result (self.new ≡ with_plan self.old line) }
        ensures err { OnErr result (self.new ≡ self.old) }
        ensures refused { IsRefusedFor result (draft.plan_fault self.old line) }
    {
        match plan_fault(&self.scenario, line) {
            Some(fault) => return Err(fault),
            None => {}
        }
        match put_line(&mut self.scenario, line) {
            Ok(()) => Ok(()),
            Err(_) => Err(DraftFault::NoMemory),
        }
    }

    /// The packet with this number, 1 to 65,536, among those that go from a node to a node is lost.
    pub fn lose(&mut self, from: NodeId, to: NodeId, number: u32) -> Result<(), DraftFault>
        ensures ok { OnOk result (self.new ≡ with_plan self.old (draft.planned from to number Lose)) }
        ensures err { OnErr result (self.new ≡ self.old) }
        ensures refused { IsRefusedFor result (draft.plan_fault self.old (draft.planned from to number Lose)) }
    {
        self.plan(PlanLine {
            from,
            to,
            number,
            fault: LinkFault::Lose,
        })
    }

    /// It comes twice.
    pub fn repeat(&mut self, from: NodeId, to: NodeId, number: u32) -> Result<(), DraftFault>
        ensures ok { OnOk result (self.new ≡ with_plan self.old (draft.planned from to number Repeat)) }
        ensures err { OnErr result (self.new ≡ self.old) }
        ensures refused { IsRefusedFor result (draft.plan_fault self.old (draft.planned from to number Repeat)) }
    {
        self.plan(PlanLine {
            from,
            to,
            number,
            fault: LinkFault::Repeat,
        })
    }

    /// It comes so many packets later, 1 to 16.
    pub fn late(&mut self, from: NodeId, to: NodeId, number: u32, by: u8) -> Result<(), DraftFault>
        ensures ok { OnOk result (self.new ≡ with_plan self.old (draft.planned from to number (Late by))) }
        ensures err { OnErr result (self.new ≡ self.old) }
        ensures refused { IsRefusedFor result (draft.plan_fault self.old (draft.planned from to number (Late by))) }
    {
        self.plan(PlanLine {
            from,
            to,
            number,
            fault: LinkFault::Late(by),
        })
    }

    /// The scenario. It is lawful, and of the packet network.
    pub fn finish(self) -> Scenario
        ensures same { result ≡ self }
        ensures lawful { IsLawful result }
        ensures of_form { IsOfForm Run result }
        ensures packet { result.network ≡ Networks.Packet }
    {
        self.scenario
    }
}
