//! What an interface may do next.

ghost use Rattle.am_model_parts.specs.Interface.{stamp_in};
ghost use Rattle.std.specs.Prelude.{◌≡◌};

use am_names::{EndpointId, NodeId, Packet};

/// What an interface may do next. Its event, its outcome and the endpoint that it touches are found by the interface's
/// own log, the state of one endpoint and the packet in hand.
#[derive(Clone, Copy, PartialEq, Eq)]
pub enum Work {
    /// Receives a packet that came out of a link to this node.
    Receive(Packet),
    /// Binds the front message of an endpoint of this node to the lowest free channel to its destination's node.
    Bind(EndpointId),
    /// Lets a channel, 0 to 3, to a node time out.
    Expire { peer: NodeId, channel: u8 },
}

impl Work {
    /// The stamp of the packet in hand, and 0 where there is none.
    pub fn stamp(&self) -> u64
        ensures { result ≡ stamp_in self.now }
    {
        match self {
            Work::Receive(packet) => packet.stamp(),
            Work::Bind(_) | Work::Expire { .. } => 0,
        }
    }
}
