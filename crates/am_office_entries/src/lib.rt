//! The entries of a journal as plain data, what they do, and the fates of its messages.
#![tactic(auto)]

mod endings;
mod fates;
mod growing;
pub mod logged;
mod roles;
mod touched;

pub use am_names::NoMemory;
use am_names::{Cause, EndpointId, Message, NodeId, Serial, Tag, Verdict, Why, Words};
pub use endings::Fate;
pub use fates::fate;
pub use growing::growth;
pub use roles::{accepted_of, given_up_of, return_of, run_of, unknown_of};
use std::fmt;
use std::fmt::Debug;
use std::marker::Model;
pub use touched::node_touched;

/// What a handler does when a message runs it.
#[derive(Clone, Copy, PartialEq, Eq)]
pub enum HandlerKind {
    /// It does nothing more than run.
    Note,
    /// It replies to this handler, 1 to 15, with the same words.
    Echo(u8),
    /// It adds the first word to the endpoint's sum modulo 2^64, and replies to this handler, 1 to 15, with the new
    /// sum and the other three words.
    Add(u8),
}

/// Which events of its endpoints a bundle tells.
#[derive(Clone, Copy, PartialEq, Eq)]
pub enum Mask {
    /// None.
    NoEvents,
    /// That there is a notice or a received message to poll.
    NotEmpty,
}

/// A call that an application makes on an endpoint.
#[derive(Clone, Copy, PartialEq, Eq)]
pub enum Call {
    /// Sends a request by a mapped index, 0 to 15, for a handler, 0 to 255, of the endpoint that the index names.
    Request {
        index: u8,
        handler: u8,
        words: Words,
    },
    /// Runs what is next: a notice, a received reply or a received request.
    Poll,
    /// Sets the own tag.
    SetTag(Tag),
    /// Makes an index, 0 to 15, name an endpoint, with the tag that its requests carry and its credits, 1 to 8. With a
    /// pool these are the index's least share, 0 to 8.
    Map {
        index: u8,
        name: EndpointId,
        tag: Tag,
        credits: u8,
    },
    /// Takes an index's name away.
    Unmap(u8),
    /// Sets what the handler with this index, 1 to 15, does.
    SetHandler {
        index: u8,
        kind: HandlerKind,
    },
    /// Drops the waiting record of a request.
    GiveUp(Serial),
    /// Closes the endpoint for good.
    Close,
    /// Asks whether there is an event.
    Test(Mask),
}

/// Who makes a call.
#[derive(Clone, Copy, PartialEq, Eq)]
pub enum Actor {
    /// The thread with this number, 0 to 63, by its script.
    Thread(u8),
    /// Anyone else: a step, or the drain.
    Outside,
}

/// Something that keeps a log.
#[derive(Clone, Copy, PartialEq, Eq, Debug)]
pub enum Part {
    Endpoint(EndpointId),
    Interface(NodeId),
}

/// Where an endpoint lies.
#[derive(Clone, Copy, PartialEq, Eq)]
pub enum Place {
    Host,
    Disk,
    /// The frame of its node with this number, 0 to 15.
    Frame(u8),
    /// Nowhere in particular: in the direct network.
    Direct,
}

/// What keeps an event from happening. Which conditions an event has, and in which order, is defined above, by the
/// machine.
#[derive(Clone, Copy, PartialEq, Eq, Debug)]
pub enum Condition {
    OnDisk,
    NotOnDisk,
    NotDirect,
    NoMessage,
    NotPacket,
    OtherNode,
    NotResident,
    Draining,
    NoChannel,
    Idle,
    NoPacket,
    NotDraining,
    InFlight,
    NotOnHost,
    Closed,
    FrameHeld,
}

/// What may happen. `end` is the endpoint that it happens to, `node` the node whose interface or driver acts, and
/// `peer` the node at the other end.
#[derive(Clone, Copy, PartialEq, Eq)]
pub enum Event {
    /// An application makes a call.
    Call {
        actor: Actor,
        end: EndpointId,
        call: Call,
    },
    /// Someone wants the endpoint in a frame.
    Want {
        actor: Actor,
        end: EndpointId,
    },
    /// In the direct network, the front message of the endpoint goes to its destination at once.
    Carry {
        end: EndpointId,
    },
    /// The front message is bound to a free channel and sent.
    Bind {
        node: NodeId,
        end: EndpointId,
    },
    /// The time of a bound channel is over.
    Expire {
        node: NodeId,
        peer: NodeId,
        channel: u8,
    },
    /// The packet with this number, from 1, on the link from the peer arrives.
    Receive {
        node: NodeId,
        peer: NodeId,
        number: u32,
    },
    /// The endpoint binds no message from now on.
    Drain {
        node: NodeId,
        end: EndpointId,
    },
    /// The endpoint leaves its frame.
    Unload {
        node: NodeId,
        end: EndpointId,
    },
    /// The endpoint enters this frame.
    Load {
        node: NodeId,
        end: EndpointId,
        frame: u8,
    },
    /// The endpoint goes to disk.
    PageOut {
        node: NodeId,
        end: EndpointId,
    },
    /// The endpoint comes back from disk.
    PageIn {
        node: NodeId,
        end: EndpointId,
    },
}

/// Why a call did nothing. Which refusals a call has, and in which order, is defined above, by the machine.
#[derive(Clone, Copy, PartialEq, Eq)]
pub enum Refusal {
    Closed,
    OwnTagNone,
    BadIndex,
    NotMapped,
    NoCredit,
    TableFull,
    SendFull,
    /// The index of a map is mapped.
    InUse,
    /// The shares of the mapped indexes, whose sum this is, leave no room for the new one beside the pool.
    OverShare(u8),
    /// The endpoint holds messages or records: received ones; those in requests, replies, in flight and notices; and
    /// outstanding records.
    Held {
        received: u8,
        messages: u8,
        outstanding: u8,
    },
    /// The index has so many records.
    Outstanding(u8),
    /// Handler 0 can't be set.
    Reserved,
    NoRequest,
}

/// What came of the receipt of a packet.
#[derive(Clone, Copy, PartialEq, Eq)]
pub enum Received {
    /// A fresh message was put at its destination. The answer with this number goes back.
    Accepted {
        message: Message,
        answer: u32,
    },
    /// A fresh message was refused by its destination. The answer with this number goes back.
    Refused {
        message: Message,
        cause: Cause,
        answer: u32,
    },
    /// A message came again, and the same verdict goes back.
    Again {
        serial: Serial,
        verdict: Verdict,
        answer: u32,
    },
    /// A message of the past came: no answer.
    Stale,
    /// An answer said that the message was accepted.
    Delivered(Serial),
    /// An answer refused the message for a cause that passes, and it was queued again, so often by now.
    Requeued {
        serial: Serial,
        cause: Cause,
        used: u8,
    },
    /// An answer refused the message for good.
    Returned {
        serial: Serial,
        cause: Cause,
    },
    /// An answer that counts for nothing.
    Nothing,
}

impl Received {
    ghost use Rattle.std.specs.Prelude.{◌≡◌};
    ghost use Rattle.am_office_entries.specs.Entries.{received_about};

    /// The message that it is about: the one that was put, refused, judged again, settled, queued again or returned.
    pub fn about(self) -> Option<Serial>
        ensures { result ≡ received_about self }
    {
        match self {
            Received::Accepted { message, .. } | Received::Refused { message, .. } => {
                Some(message.serial)
            }
            Received::Again { serial, .. }
            | Received::Delivered(serial)
            | Received::Requeued { serial, .. }
            | Received::Returned { serial, .. } => Some(serial),
            Received::Stale | Received::Nothing => None,
        }
    }
}

/// What came of an event. It carries the whole message where one is accepted, put, refused, sent or run, and how often
/// a message was queued again where it is.
#[derive(Clone, Copy, PartialEq, Eq)]
pub enum Outcome {
    /// An event that prints no outcome.
    Silent,
    /// It was done.
    Done,
    /// A call accepted this request.
    Requested(Message),
    /// A call did nothing.
    Refused(Refusal),
    /// A poll ran handler 0 for a message that is unknown or came back.
    Zero {
        serial: Serial,
        why: Why,
    },
    /// A poll ran this message: by a handler, if one stands, which made a reply, if the message is a request. (The handler
    /// stands first, where it takes no room of its own: a log has an entry for each of these.)
    Ran {
        handler: Option<u8>,
        message: Message,
        sends: Option<Message>,
    },
    /// A poll found a request and no room for its reply.
    Blocked,
    /// A poll found nothing.
    Empty,
    /// There is an event.
    Ready,
    /// There is none.
    Quiet,
    /// The swap device failed.
    Failed,
    /// A carry put this message.
    Accepted(Message),
    /// A carry queued the message again, so often by now.
    Requeued {
        message: Message,
        cause: Cause,
        used: u8,
    },
    /// A carry returned the message.
    Returned {
        message: Message,
        cause: Cause,
    },
    /// The message was sent to the peer, with this sequence and attempt on this channel, as the packet with this
    /// number on its link.
    Sent {
        message: Message,
        peer: NodeId,
        channel: u8,
        seq: u32,
        attempt: u8,
        number: u32,
    },
    /// A time-out found that the message's reply had come.
    Delivered(Serial),
    /// A time-out gave the message up.
    Unknown(Serial),
    /// A packet with this sequence and attempt on this channel was taken.
    Received {
        channel: u8,
        seq: u32,
        attempt: u8,
        result: Received,
    },
}

/// An event with its outcome. Stamps rise along a journal: each is above those of the earlier entries that touch a part
/// of this one.
#[derive(Clone, Copy, PartialEq, Eq)]
pub struct Entry {
    pub stamp: u64,
    pub event: Event,
    pub outcome: Outcome,
}

const _: () = prove!(size_of::<Entry>() <= 216);

/// Entries in order. Contracts see the list of the entries.
#[derive(Drop)]
pub struct Journal {
    pub entries: Vec<Entry>,
}

impl Model for Journal {
    ghost use Rattle.std.specs.Prelude.{List};
    ghost use Rattle.am_office_entries.specs.declared.Entry.{Entry};

    ghost Value = { List Entry };

    ghost view = { λ journal. journal.entries.items };
}

impl Debug for Journal {
    fn fmt<W: fmt::Write>(&self, f: &mut fmt::Formatter<W>) -> fmt::Result {
        f.write_str("Journal")
    }
}
