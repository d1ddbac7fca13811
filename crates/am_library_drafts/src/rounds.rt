//! All nodes, a whole script or a whole plan at once.

ghost use Rattle.std.specs.Prelude.{IfErr, OnOk, ◌≡◌};
ghost use Rattle.am_library_drafts.specs.Drafts.{IsCallRefused, IsLineRefused, IsNodeRefused, with_calls, with_nodes, with_plans};

use crate::draft::{Draft, DraftFault};
use am_names::{NodeId, Tag};
use am_scenario_types::{PlanLine, ScriptCall};

impl Draft {
    /// An endpoint with this tag and a thread on each node, in the order of the nodes. Where one is refused, those before it are taken.
    pub fn on_each_node(&mut self, tag: Tag) -> Result<(), DraftFault>
        ensures ok { OnOk result (self.new ≡ with_nodes self.old tag self.old.nodes) }
        ensures refused { IfErr result (IsNodeRefused self.old tag self.new) }
    {
        for node in 0..self.nodes() {
            self.endpoint(NodeId(node), tag)?;
            self.thread(NodeId(node))?;
        }
        Ok(())
    }

    /// The next calls of threads, in order. Where one is refused, those before it are taken.
    pub fn calls(&mut self, calls: &[ScriptCall]) -> Result<(), DraftFault>
        ensures ok { OnOk result (self.new ≡ with_calls self.old calls.now) }
        ensures refused { IfErr result (IsCallRefused self.old calls.now self.new) }
    {
        for made in calls {
            self.call(*made)?;
        }
        Ok(())
    }

    /// The lines of a plan. Where one is refused, those before it are taken.
    pub fn plans(&mut self, lines: &[PlanLine]) -> Result<(), DraftFault>
        ensures ok { OnOk result (self.new ≡ with_plans self.old lines.now) }
        ensures refused { IfErr result (IsLineRefused self.old lines.now self.new) }
    {
        for line in lines {
            self.plan(*line)?;
        }
        Ok(())
    }
}
