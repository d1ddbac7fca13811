//! What an event does to a session.

use crate::ends::{Receiver, Sender};
use crate::events::SessionOutcome;
use crate::packets::{ReceiverPacket, SenderPacket};

/// What becomes of the queue and of what was emitted.
#[derive(Clone, Copy)]
pub enum Change {
    Nothing,
    /// The next message goes to the queue's tail.
    Offers,
    /// This message goes to the queue's tail again.
    Requeues(u32),
    /// The queue's front leaves it, and the sender emits this packet.
    Binds(SenderPacket),
    /// The sender emits this packet.
    Sends(SenderPacket),
    /// The receiver emits this packet.
    Answers(ReceiverPacket),
}

/// What an event does: its outcome, what both interfaces know after it, and what it changes beside them.
#[derive(Clone, Copy)]
pub struct SessionMove {
    pub outcome: SessionOutcome,
    pub sender: Sender,
    pub receiver: Receiver,
    pub change: Change,
}
