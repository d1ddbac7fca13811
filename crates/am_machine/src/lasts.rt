//! The entry that was made last, read in a log that it went to.

ghost use Rattle.am_machine.specs.Lasts.{end_named};
ghost use Rattle.am_office_entries.specs.Entries.{node_touched};
ghost use Rattle.am_office_entries.specs.declared.Entry.{Entry};
ghost use Rattle.std.specs.Option.{option_copied};
ghost use Rattle.std.specs.Prelude.{◌≡◌, [], ◌∷◌, ◌++◌, List, Some};

use crate::Cluster;
use am_names::{EndpointId, NodeId};
use am_office_entries::{Entry, Event};

/// The endpoint in whose log the entry of an event is read.
fn end_named(event: &Event) -> Option<EndpointId>
    ensures { result ≡ end_named event.now }
{
    match *event {
        Event::Call { end, .. } => Some(end),
        Event::Want { end, .. } => Some(end),
        Event::Carry { end } => Some(end),
        Event::Drain { end, .. } => Some(end),
        Event::Unload { end, .. } => Some(end),
        Event::Load { end, .. } => Some(end),
        Event::PageOut { end, .. } => Some(end),
        Event::PageIn { end, .. } => Some(end),
        _ => None,
    }
}

/// The node in whose interface's log the entry of an event is read.
fn node_named(event: &Event) -> Option<NodeId>
    ensures { result ≡ node_touched event.now }
{
    match *event {
        Event::Bind { node, .. } => Some(node),
        Event::Expire { node, .. } => Some(node),
        Event::Receive { node, .. } => Some(node),
        _ => None,
    }
}

impl Cluster {
    /// The last entry of an endpoint's log.
    fn last_there(&self, end: EndpointId) -> Option<&Entry>
        ensures { (past : List Entry) (x : Entry) → self.now.journal ≡ past ++ x ∷ [] → end_named x.event ≡ Some end → option_copied result ≡ Some x }
    {
        self.laws();
        match self.end(end) {
            Some(one) => one.log().last(),
            None => None,
        }
    }

    /// The last entry of the log of a node's interface.
    fn last_here(&self, node: NodeId) -> Option<&Entry>
        ensures { (past : List Entry) (x : Entry) → self.now.journal ≡ past ++ x ∷ [] → node_touched x.event ≡ Some node → option_copied result ≡ Some x }
    {
        match self.interfaces.get(node.0 as usize) {
            Some(interface) => interface.last_entry(),
            None => None,
        }
    }

    /// The last entry of a log that the entry of such an event goes to: the entry of this event where it was made last.
    pub fn last_of(&self, event: &Event) -> Option<&Entry>
        ensures { (past : List Entry) (x : Entry) → self.now.journal ≡ past ++ x ∷ [] → x.event ≡ event.now → option_copied result ≡ Some x }
    {
        match end_named(event) {
            Some(end) => self.last_there(end),
            None => match node_named(event) {
                Some(node) => self.last_here(node),
                None => None,
            },
        }
    }
}
