//! What the sender's events do.

ghost use Rattle.am_restart.specs.Ends as ends;
ghost use Rattle.am_restart.specs.Moves as moves;
ghost use Rattle.am_restart.specs.declared.events.SessionEvent.TheVariants as Events;
ghost use Rattle.std.specs.Option.{option_map};
ghost use Rattle.std.specs.Prelude.{◌≡◌, ◌<◌, ◌^◌, IsNone, slice_get};

use crate::ends::Sender;
use crate::events::SessionOutcome;
use crate::moves::{Change, SessionMove};
use crate::packets::{
    ReceiverPacket, SenderPacket, SessionAnswer, SessionParcel, answer_of, message_of,
};
use crate::session::{Session, front_of};
use am_channel::{Bound, Settled, Slot, TimedOut};
use am_names::Verdict;

// A parcel of the sender's, to the incarnation that it knows.
fn parcel_from(sender: &Sender, seq: u32, attempt: u8, message: u32) -> SenderPacket
    ensures { result ≡ moves.parcel_from sender.now seq attempt message }
{
    SenderPacket::Parcel(SessionParcel {
        sender: sender.incarnation,
        receiver: sender.peer,
        seq,
        attempt,
        message,
    })
}

// The number of what is bound.
fn number_of(bound: Option<Bound>) -> Option<u32>
    ensures { result ≡ option_map ends.number_of bound }
{
    match bound {
        Some(bound) => Some(bound.message.serial.count),
        None => None,
    }
}

// What a restart makes of what is bound.
fn forgotten(bound: Option<Bound>) -> SessionOutcome
    ensures { result ≡ moves.forgotten bound }
{
    match bound {
        Some(bound) => SessionOutcome::Unknown(bound.message.serial.count),
        None => SessionOutcome::Done,
    }
}

impl Session {
    pub(crate) fn offer(&self) -> SessionMove
        requires { self.now.events < 2 ^ 31 }
        ensures { result ≡ moves.move_of self.now Events.Offer }
    {
        SessionMove {
            outcome: SessionOutcome::Offered(self.traffic.offered + 1),
            sender: self.sender,
            receiver: self.receiver,
            change: Change::Offers,
        }
    }

    pub(crate) fn hello(&self) -> SessionMove
        requires { self.now.events < 2 ^ 31 }
        ensures { result ≡ moves.move_of self.now Events.Hello }
    {
        SessionMove {
            outcome: SessionOutcome::Hello(self.next_of_sender()),
            sender: self.sender,
            receiver: self.receiver,
            change: Change::Sends(SenderPacket::Hello {
                sender: self.sender.incarnation,
            }),
        }
    }

    pub(crate) fn bind(&self) -> SessionMove
        requires room { self.now.events < 2 ^ 31 }
        requires idle { IsNone self.now.sender.end.bound }
        ensures { result ≡ moves.bind_of self.now (slice_get self.now.traffic.queue 0) }
    {
        let Some(message) = front_of(&self.traffic.queue) else {
            return self.still(SessionOutcome::Done);
        };
        let mut sender = self.sender;
        let sent = sender.end.bind(message_of(message), Slot(0));
        SessionMove {
            outcome: SessionOutcome::Sent {
                message,
                seq: sent.seq,
                attempt: sent.attempt,
                number: self.next_of_sender(),
            },
            sender,
            receiver: self.receiver,
            change: Change::Binds(parcel_from(&self.sender, sent.seq, sent.attempt, message)),
        }
    }

    pub(crate) fn expire(&self) -> SessionMove
        requires { self.now.events < 2 ^ 31 }
        ensures { result ≡ moves.expire_of self.now self.now.sender.end.bound }
    {
        let Some(bound) = self.sender.end.busy() else {
            return self.still(SessionOutcome::Done);
        };
        let message = bound.message.serial.count;
        let mut sender = self.sender;
        match sender.end.time_out(self.tries) {
            TimedOut::Resend(sent) => SessionMove {
                outcome: SessionOutcome::Sent {
                    message,
                    seq: sent.seq,
                    attempt: sent.attempt,
                    number: self.next_of_sender(),
                },
                sender,
                receiver: self.receiver,
                change: Change::Sends(parcel_from(&self.sender, sent.seq, sent.attempt, message)),
            },
            TimedOut::GaveUp(_) => SessionMove {
                outcome: SessionOutcome::Unknown(message),
                sender,
                receiver: self.receiver,
                change: Change::Nothing,
            },
        }
    }

    pub(crate) fn sender_restarts(&self) -> SessionMove
        requires { self.now.events < 2 ^ 31 }
        ensures { result ≡ moves.move_of self.now Events.SenderRestart }
    {
        SessionMove {
            outcome: forgotten(self.sender.end.busy()),
            sender: Sender::new(self.sender.incarnation + 1, 0),
            receiver: self.receiver,
            change: Change::Nothing,
        }
    }

    // A welcome from this incarnation of the receiver, which counts or doesn't.
    fn welcomed(&self, receiver: u32, counts: bool) -> SessionMove
        ensures { result ≡ moves.welcomed self.now receiver counts }
    {
        if !counts {
            return self.still(SessionOutcome::Nothing);
        }
        SessionMove {
            outcome: SessionOutcome::Peer {
                incarnation: receiver,
                unknown: number_of(self.sender.end.busy()),
            },
            sender: Sender::new(self.sender.incarnation, receiver),
            receiver: self.receiver,
            change: Change::Nothing,
        }
    }

    // A verdict on the message that was bound until now.
    fn settled_by(&self, sender: Sender, message: u32, verdict: Verdict) -> SessionMove
        ensures { result ≡ moves.settled_by self.now sender message verdict }
    {
        let (outcome, change) = match verdict {
            Verdict::Accepted => (SessionOutcome::Delivered(message), Change::Nothing),
            Verdict::Refused(cause) => if cause.transient() {
                (SessionOutcome::Requeued(message), Change::Requeues(message))
            } else {
                (SessionOutcome::Returned(message), Change::Nothing)
            },
        };
        SessionMove {
            outcome,
            sender,
            receiver: self.receiver,
            change,
        }
    }

    // An answer, of both current incarnations or not.
    fn answered(&self, answer: &SessionAnswer, current: bool) -> SessionMove
        ensures { result ≡ moves.answered self.now answer.now current }
    {
        if !current {
            return self.still(SessionOutcome::Nothing);
        }
        let mut sender = self.sender;
        match sender.end.answer(&answer_of(answer)) {
            Settled::Nothing => self.still(SessionOutcome::Nothing),
            Settled::Done(bound, verdict) => {
                self.settled_by(sender, bound.message.serial.count, verdict)
            }
        }
    }

    pub(crate) fn sender_receives(&self, packet: Option<ReceiverPacket>) -> SessionMove
        ensures { result ≡ moves.sender_receives self.now packet }
    {
        match packet {
            None => self.still(SessionOutcome::Done),
            Some(ReceiverPacket::Welcome { sender, receiver }) => {
                let counts = sender == self.sender.incarnation && self.sender.peer < receiver;
                self.welcomed(receiver, counts)
            }
            Some(ReceiverPacket::Answer(answer)) => {
                let current = answer.sender == self.sender.incarnation
                    && answer.receiver == self.sender.peer;
                self.answered(&answer, current)
            }
        }
    }
}
