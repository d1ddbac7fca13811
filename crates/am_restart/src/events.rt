//! What may happen in a session, and what came of it: plain data.

use thiserror::Error;

/// What the receiver says of a fresh parcel.
#[derive(Clone, Copy, PartialEq, Eq)]
pub enum Say {
    /// The message is put.
    Accept,
    /// The message is refused for now: its sender queues it again.
    Full,
    /// The message is refused for good: its sender returns it.
    Bad,
}

/// An event of a session. Packets of each side are numbered from 1 in order of emission.
#[derive(Clone, Copy, PartialEq, Eq)]
pub enum SessionEvent {
    /// The sender's host offers the next message.
    Offer,
    /// The sender asks for the receiver's incarnation.
    Hello,
    /// The sender binds the message at the queue's front.
    Bind,
    /// The sender got no answer in time.
    Expire,
    /// The sender receives this packet of the receiver's, for the first time or again.
    SenderReceive { number: u32 },
    /// The sender forgets all but its incarnation, which rises.
    SenderRestart,
    /// The receiver receives this packet of the sender's, for the first time or again.
    ReceiverReceive { number: u32, say: Say },
    /// The receiver forgets all but its incarnation, which rises.
    ReceiverRestart,
}

/// What came of an event. A message goes by its number: they are offered as 1, 2 and so on. A packet goes by its number
/// among those of its side.
#[derive(Clone, Copy, PartialEq, Eq)]
pub enum SessionOutcome {
    /// It happened, and there is no more to say.
    Done,
    /// This message was queued.
    Offered(u32),
    /// A hello was emitted as this packet.
    Hello(u32),
    /// A parcel was emitted as this packet.
    Sent {
        message: u32,
        /// The number of its binding since the sender's end was new, from 1.
        seq: u32,
        /// How many tries the binding had used before.
        attempt: u8,
        number: u32,
    },
    /// This message is given up, and nobody knows whether it was put.
    Unknown(u32),
    /// This incarnation of the receiver is now known. Where a message was bound, it is unknown.
    Peer {
        incarnation: u32,
        unknown: Option<u32>,
    },
    /// This message was accepted.
    Delivered(u32),
    /// This message is queued again.
    Requeued(u32),
    /// This message is returned.
    Returned(u32),
    /// The packet counts for nothing.
    Nothing,
    /// The packet is one of the past.
    Stale,
    /// A welcome was emitted as this packet.
    Welcome(u32),
    /// This message's verdict was given before, and is given again in this packet.
    Again {
        message: u32,
        answer: u32,
    },
    /// This message was put, and this packet says so.
    Accepted {
        message: u32,
        answer: u32,
    },
    /// This message was refused, and this packet says so.
    Refused {
        message: u32,
        answer: u32,
    },
}

/// An event with its outcome.
#[derive(Clone, Copy, PartialEq, Eq)]
pub struct SessionEntry {
    pub event: SessionEvent,
    pub outcome: SessionOutcome,
}

/// What an event needs and doesn't find. The first that fails, in this order, is told.
#[derive(Clone, Copy, PartialEq, Eq, Debug)]
pub enum SessionCondition {
    /// The sender knows no incarnation of the receiver.
    UnknownPeer,
    /// A message is bound.
    Bound,
    /// No message is queued.
    NoMessage,
    /// No message is bound.
    Idle,
    /// No packet was emitted under this number.
    NoPacket,
}

/// Why an event didn't happen.
#[derive(Clone, Copy, PartialEq, Eq, Debug, Error)]
pub enum SessionFault {
    /// This is the first of the event's conditions that fails.
    #[error("the event can't happen")]
    NotEnabled(SessionCondition),
    /// There is no memory for what it emits or queues.
    #[error("there is no memory for the event")]
    NoMemory,
}
