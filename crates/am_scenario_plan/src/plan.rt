//! The lines of a loss plan.

use am_names::NodeId;

/// What a link does with a packet.
#[derive(Clone, Copy, PartialEq, Eq)]
pub enum LinkFault {
    /// The packet is never released.
    Lose,
    /// The packet is released twice in a row.
    Repeat,
    /// The packet is released so many emissions later, 1 to 16.
    Late(u8),
}

/// A packet of a link, by its place among those emitted there, and what becomes of it.
#[derive(Clone, Copy, PartialEq, Eq)]
pub struct PlanLine {
    /// The node that emits on the link.
    pub from: NodeId,
    /// The node that receives from it.
    pub to: NodeId,
    /// The packet's place, 1 to 65,536.
    pub number: u32,
    /// What becomes of it.
    pub fault: LinkFault,
}
