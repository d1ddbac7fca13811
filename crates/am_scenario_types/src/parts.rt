//! The parts of a scenario.

use am_names::{EndpointId, NodeId, Tag};
use am_office_entries::{Call, Event};

/// What a scenario is written for.
#[derive(Clone, Copy, PartialEq, Eq, Debug)]
pub enum Form {
    /// Its events are given one by one.
    Step,
    /// Its threads make calls, and the machine does the rest.
    Run,
}

/// How the messages go.
#[derive(Clone, Copy, PartialEq, Eq)]
pub enum Network {
    /// From endpoint to endpoint at once.
    Direct,
    /// As packets on links between the nodes.
    Packet,
}

/// An endpoint, as it is declared.
#[derive(Clone, Copy, PartialEq, Eq)]
pub struct EndLine {
    pub id: EndpointId,
    /// The node that it is on.
    pub node: NodeId,
    /// Its own tag.
    pub tag: Tag,
    /// Whether it begins on disk, and not on the host.
    pub disk: bool,
}

/// A thread, as it is declared.
#[derive(Clone, Copy, PartialEq, Eq)]
pub struct ThreadLine {
    /// The thread's number, 0 to 63.
    pub id: u8,
    /// The node that it is on.
    pub node: NodeId,
}

/// A page call of a node that fails.
#[derive(Clone, Copy, PartialEq, Eq)]
pub struct FaultLine {
    pub node: NodeId,
    /// The call's place among the page calls of the node, 1 to 65,536.
    pub number: u32,
}

/// A call of a thread.
#[derive(Clone, Copy, PartialEq, Eq)]
pub struct ScriptCall {
    /// The thread that makes it.
    pub thread: u8,
    /// The endpoint that it is made on.
    pub endpoint: EndpointId,
    pub call: Call,
}

/// An event of a step script.
#[derive(Clone, Copy, PartialEq, Eq)]
pub struct StepLine {
    /// The line that it stands in, from 1.
    pub line: u32,
    pub event: Event,
}
