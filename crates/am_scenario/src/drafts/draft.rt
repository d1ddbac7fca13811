//! What the lines of a text have said so far.

ghost use Rattle.std.specs.Prelude.{◌≡◌, ◌==◌, ◌&&◌, OnOk, IfOk, MatchOption, count_by, map, find, ◌++◌, Some, None};
ghost use Rattle.am_scenario.specs.Drafts.Said.{nothing, with_line, end_of, thread_of, bundle_of, script_call, is_planned, is_faulty};
ghost use Rattle.am_scenario.specs.Drafts.Drafts.{said};

use crate::drafts::line::Line;
use crate::drafts::plan::Plan;
use crate::drafts::settings::{Settings, Version};
use am_names::{EndpointId, NodeId};
use am_office_entries::Call;
use am_scenario_types::{Bundle, EndLine, FaultLine, ScriptCall, StepLine, ThreadLine};
use std::alloc::{AllocError, Global};

/// What the lines so far have said.
#[derive(Drop)]
pub struct Draft {
    /// The section of the last line that said something, 1 to 4, or 0.
    pub section: u8,
    pub version: Option<Version>,
    pub settings: Settings,
    pub ends: Vec<EndLine>,
    pub bundles: Vec<Bundle>,
    pub threads: Vec<ThreadLine>,
    pub plan: Plan,
    pub faults: Vec<FaultLine>,
    pub script: Vec<ScriptCall>,
    pub steps: Vec<StepLine>,
}

fn add_calls(
    script: &mut Vec<ScriptCall>,
    thread: u8,
    calls: &[(EndpointId, Call)],
) -> Result<(), AllocError>
    ensures { IfOk result (λ _. script.new.items ≡ script.old.items ++ map (script_call thread) calls.now) }
{
    for call in calls {
        script.push(ScriptCall {
            thread,
            endpoint: call.0,
            call: call.1,
        })?;
    }
    Ok(())
}

fn find_bundle(bundles: &[Bundle], id: u64) -> Option<&Bundle>
    ensures { MatchOption result (find (λ bundle. bundle.id == id) bundles.now ≡ None) (λ bundle. find (λ bundle. bundle.id == id) bundles.now ≡ Some bundle.now) }
{
    let mut rest = bundles;
    while let Some((first, others)) = rest.split_first() {
        if u64::from(first.id) == id {
            return Some(first);
        }
        rest = others;
    }
    None
}

impl Draft {
    /// Nothing was said.
    pub fn new(alloc: Global) -> Draft
        ensures { said result ≡ nothing }
    {
        Draft {
            section: 0,
            version: None,
            settings: Settings::new(),
            ends: Vec::new(alloc),
            bundles: Vec::new(alloc),
            threads: Vec::new(alloc),
            plan: Plan::new(alloc),
            faults: Vec::new(alloc),
            script: Vec::new(alloc),
            steps: Vec::new(alloc),
        }
    }

    /// The line that declared an endpoint.
    pub fn end_of(&self, id: u64) -> Option<EndLine>
        ensures { result ≡ end_of (said self.now) id }
    {
        self.ends
            .iter()
            .copied()
            .find(|end| u64::from(end.id.0) == id)
    }

    /// The line that declared a thread.
    pub fn thread_of(&self, id: u64) -> Option<ThreadLine>
        ensures { result ≡ thread_of (said self.now) id }
    {
        self.threads
            .iter()
            .copied()
            .find(|thread| u64::from(thread.id) == id)
    }

    /// The bundle of a number.
    pub fn bundle_of(&self, id: u64) -> Option<&Bundle>
        ensures { MatchOption result (bundle_of (said self.now) id ≡ None) (λ bundle. bundle_of (said self.now) id ≡ Some bundle.now) }
    {
        find_bundle(&self.bundles, id)
    }

    /// Whether a link's packet has a plan line.
    pub fn is_planned(&self, from: NodeId, to: NodeId, number: u32) -> bool
        ensures { result ≡ is_planned (said self.now).plan from to number }
    {
        self.plan.is_planned(from, to, number)
    }

    /// Whether a node's page call has a fault line.
    pub fn is_faulty(&self, node: NodeId, number: u32) -> bool
        ensures { result ≡ is_faulty (said self.now).faults node number }
    {
        self.faults
            .iter()
            .any(|line| line.node.0 == node.0 && line.number == number)
    }

    /// How many endpoints are on a node.
    pub fn ends_of(&self, node: u8) -> usize
        ensures { result ≡ count_by (λ end. end.node.0 == node) (said self.now).ends }
    {
        self.ends.iter().filter(|end| end.node.0 == node).count()
    }

    /// How many threads are on a node.
    pub fn threads_of(&self, node: u8) -> usize
        ensures { result ≡ count_by (λ thread. thread.node.0 == node) (said self.now).threads }
    {
        self.threads
            .iter()
            .filter(|thread| thread.node.0 == node)
            .count()
    }

    /// Adds what a line says. Where memory runs out some of the line's calls may have been added, so the draft is of no
    /// further use.
    pub fn add(&mut self, number: u32, line: Line) -> Result<(), AllocError>
        ensures { OnOk result (said self.new ≡ with_line number (said self.old) line) }
    {
        match line {
            Line::Version(version) => self.version = Some(version),
            Line::Setting(setting) => self.settings.set(setting),
            Line::End(end) => self.ends.push(end)?,
            Line::Bundle(bundle) => self.bundles.push(bundle)?,
            Line::Thread(thread) => self.threads.push(thread)?,
            Line::Plan(line) => self.plan.push(line)?,
            Line::Fault(line) => self.faults.push(line)?,
            Line::Call(call) => self.script.push(call)?,
            Line::Calls { thread, calls } => add_calls(&mut self.script, thread, &calls.list)?,
            Line::Step(event) => self.steps.push(StepLine {
                line: number,
                event,
            })?,
        }
        Ok(())
    }
}
