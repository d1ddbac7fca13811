//! Scenarios: what a run begins with and what it is to do.
#![tactic(auto)]

mod faults;
mod parts;

pub use am_bundle::Bundle;
pub use am_lexer::What;
pub use am_scenario_plan::{LinkFault, PlanLine};
pub use faults::{ReadFault, ScenarioFault};
pub use parts::{EndLine, FaultLine, Form, Network, ScriptCall, StepLine, ThreadLine};
use std::fmt;
use std::fmt::Debug;
use std::marker::Model;

/// What a run begins with and what it is to do.
#[derive(Drop)]
pub struct Scenario {
    /// How the messages go.
    pub network: Network,
    /// How many nodes there are, 1 to 16.
    pub nodes: u8,
    /// How many frames each node has, 2 to 16.
    pub frames: u8,
    /// How many channels lead from each node to each, 1 to 4.
    pub channels: u8,
    /// How often a binding is tried, 2 to 16.
    pub tries: u8,
    /// How often a message goes back to its queue, 0 to 16.
    pub bounces: u8,
    /// How many records an endpoint has above its shares, 0 to 32; none in version 1.
    pub pool: Option<u8>,
    /// How many endpoints of a node are kept on the host, 0 to 64.
    pub keep: u8,
    /// How many entries a log takes, 1 to 65,536.
    pub log: u32,
    /// How many turns each worker makes, 0 to 10,000.
    pub turns: u32,
    /// The endpoints, by their numbers.
    pub ends: Vec<EndLine>,
    /// The bundles, as they were declared.
    pub bundles: Vec<Bundle>,
    /// The threads, by their numbers.
    pub threads: Vec<ThreadLine>,
    /// What the links do with packets.
    pub plan: Vec<PlanLine>,
    /// The page calls that fail.
    pub faults: Vec<FaultLine>,
    /// The threads' calls, in the order of the lines.
    pub script: Vec<ScriptCall>,
    /// The events of a step script, in the order of the lines.
    pub steps: Vec<StepLine>,
}

impl Model for Scenario {
    ghost use Rattle.am_scenario_types.specs.Lists.{ScenarioLists};

    ghost Value = { ScenarioLists };

    ghost view = { λ s. record {
      network = s.network;
      nodes = s.nodes;
      frames = s.frames;
      channels = s.channels;
      tries = s.tries;
      bounces = s.bounces;
      pool = s.pool;
      keep = s.keep;
      log = s.log;
      turns = s.turns;
      ends = s.ends.items;
      bundles = s.bundles.items;
      threads = s.threads.items;
      plan = s.plan.items;
      faults = s.faults.items;
      script = s.script.items;
      steps = s.steps.items;
    } };
}

impl Debug for Scenario {
    fn fmt<W: fmt::Write>(&self, f: &mut fmt::Formatter<W>) -> fmt::Result {
        f.write_str("Scenario")
    }
}
