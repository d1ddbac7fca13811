//! The packets of a session: plain data.

ghost use Rattle.am_restart.specs.Ends as ends;
ghost use Rattle.std.specs.Prelude.{◌≡◌};

use am_names::{
    AnswerPacket, EndpointId, Message, MsgKind, NodeId, Parcel, Serial, Tag, Verdict, Words,
};

/// A message on its way to the receiver.
#[derive(Clone, Copy)]
pub struct SessionParcel {
    /// The sender's incarnation when it was emitted.
    pub sender: u32,
    /// The receiver's incarnation that the sender knew then.
    pub receiver: u32,
    pub seq: u32,
    pub attempt: u8,
    /// The message's number.
    pub message: u32,
}

/// What was decided on a parcel, on its way back.
#[derive(Clone, Copy)]
pub struct SessionAnswer {
    /// The sender's incarnation that the parcel names.
    pub sender: u32,
    /// The receiver's incarnation that the parcel names.
    pub receiver: u32,
    pub seq: u32,
    pub attempt: u8,
    pub verdict: Verdict,
}

/// What the sender emits.
#[derive(Clone, Copy)]
pub enum SenderPacket {
    /// The sender of this incarnation asks for the receiver's.
    Hello { sender: u32 },
    Parcel(SessionParcel),
}

/// What the receiver emits.
#[derive(Clone, Copy)]
pub enum ReceiverPacket {
    /// The receiver of this incarnation answers a sender of that one.
    Welcome { sender: u32, receiver: u32 },
    Answer(SessionAnswer),
}

/// A message as the ends of a channel take it: its number is its count, and no more is said of it.
pub(crate) fn message_of(number: u32) -> Message
    ensures { result ≡ ends.message_of number }
{
    Message {
        serial: Serial {
            source: EndpointId(0),
            count: number,
        },
        kind: MsgKind::Request,
        dest: EndpointId(0),
        tag: Tag(0),
        reply_tag: Tag(0),
        handler: 0,
        words: Words {
            a: 0,
            b: 0,
            c: 0,
            d: 0,
        },
        about: None,
    }
}

/// A parcel as the receiving end of a channel takes it.
pub(crate) fn parcel_of(parcel: &SessionParcel) -> Parcel
    ensures { result ≡ ends.parcel_of parcel.now }
{
    Parcel {
        from: NodeId(0),
        to: NodeId(1),
        channel: 0,
        seq: parcel.seq,
        attempt: parcel.attempt,
        number: 0,
        stamp: 0,
        message: message_of(parcel.message),
    }
}

/// An answer as the sending end of a channel takes it.
pub(crate) fn answer_of(answer: &SessionAnswer) -> AnswerPacket
    ensures { result ≡ ends.answer_of answer.now }
{
    AnswerPacket {
        from: NodeId(1),
        to: NodeId(0),
        channel: 0,
        seq: answer.seq,
        attempt: answer.attempt,
        number: 0,
        stamp: 0,
        verdict: answer.verdict,
    }
}
