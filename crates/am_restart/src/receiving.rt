//! What the receiver's events do.

ghost use Rattle.am_model.specs.Channels.{arrival};
ghost use Rattle.am_restart.specs.Bounds.{IsNumbered};
ghost use Rattle.am_restart.specs.Ends as ends;
ghost use Rattle.am_restart.specs.Moves as moves;
ghost use Rattle.am_restart.specs.declared.events.SessionEvent.TheVariants as Events;
ghost use Rattle.std.specs.Prelude.{◌≡◌, ◌<◌, ◌≤◌, ◌^◌, IfSome};

use crate::ends::Receiver;
use crate::events::{Say, SessionOutcome};
use crate::moves::{Change, SessionMove};
use crate::packets::{ReceiverPacket, SenderPacket, SessionAnswer, SessionParcel, parcel_of};
use crate::session::Session;
use am_channel::Arrival;
use am_names::{Cause, Verdict};

// What the receiver says, as the verdict of a channel.
fn verdict_of(say: Say) -> Verdict
    ensures { result ≡ ends.verdict_of say }
{
    match say {
        Say::Accept => Verdict::Accepted,
        Say::Full => Verdict::Refused(Cause::QueueFull),
        Say::Bad => Verdict::Refused(Cause::BadHandler),
    }
}

// The answer to a parcel.
fn answer_to(parcel: &SessionParcel, verdict: Verdict) -> Change
    ensures { result ≡ moves.answer_to parcel.now verdict }
{
    Change::Answers(ReceiverPacket::Answer(SessionAnswer {
        sender: parcel.sender,
        receiver: parcel.receiver,
        seq: parcel.seq,
        attempt: parcel.attempt,
        verdict,
    }))
}

// What comes of a verdict on a fresh parcel.
fn decided(parcel: &SessionParcel, answer: u32, verdict: Verdict) -> SessionOutcome
    ensures { result ≡ moves.decided parcel.now answer verdict }
{
    let message = parcel.message;
    match verdict {
        Verdict::Accepted => SessionOutcome::Accepted { message, answer },
        Verdict::Refused(_) => SessionOutcome::Refused { message, answer },
    }
}

impl Session {
    pub(crate) fn receiver_restarts(&self) -> SessionMove
        requires { self.now.events < 2 ^ 31 }
        ensures { result ≡ moves.move_of self.now Events.ReceiverRestart }
    {
        SessionMove {
            outcome: SessionOutcome::Done,
            sender: self.sender,
            receiver: Receiver::new(self.receiver.incarnation + 1, 0),
            change: Change::Nothing,
        }
    }

    // A welcome for a sender of this incarnation.
    fn welcomes(&self, receiver: Receiver, sender: u32) -> SessionMove
        requires { self.now.events < 2 ^ 31 }
        ensures { result ≡ moves.welcomes self.now receiver sender }
    {
        SessionMove {
            outcome: SessionOutcome::Welcome(self.next_of_receiver()),
            sender: self.sender,
            receiver,
            change: Change::Answers(ReceiverPacket::Welcome {
                sender,
                receiver: receiver.incarnation,
            }),
        }
    }

    fn hello_arrives(&self, sender: u32) -> SessionMove
        requires { self.now.events < 2 ^ 31 }
        ensures { result ≡ moves.hello_arrives self.now sender }
    {
        if sender < self.receiver.newest {
            return self.still(SessionOutcome::Stale);
        }
        self.welcomes(self.receiver.met(sender), sender)
    }

    // A parcel to this receiver, which has seen its sender.
    fn arrives(&self, receiver: Receiver, say: Say, parcel: &SessionParcel) -> SessionMove
        requires room { self.now.events < 2 ^ 31 }
        requires numbered { 1 ≤ parcel.now.seq }
        ensures { result ≡ moves.arrives self.now receiver say parcel.now (arrival receiver.end parcel.now.seq parcel.now.attempt) }
    {
        let mut receiver = receiver;
        let (outcome, change) = match receiver.end.arrive(&parcel_of(parcel)) {
            Arrival::Stale => (SessionOutcome::Stale, Change::Nothing),
            Arrival::Again(verdict) => {
                let (message, answer) = (parcel.message, self.next_of_receiver());
                (
                    SessionOutcome::Again { message, answer },
                    answer_to(parcel, verdict),
                )
            }
            Arrival::Fresh => {
                let verdict = verdict_of(say);
                receiver.end.decided(&parcel_of(parcel), verdict);
                let outcome = decided(parcel, self.next_of_receiver(), verdict);
                (outcome, answer_to(parcel, verdict))
            }
        };
        SessionMove {
            outcome,
            sender: self.sender,
            receiver,
            change,
        }
    }

    fn parcel_arrives(&self, say: Say, parcel: &SessionParcel) -> SessionMove
        requires room { self.now.events < 2 ^ 31 }
        requires numbered { 1 ≤ parcel.now.seq }
        ensures { result ≡ moves.parcel_arrives self.now say parcel.now }
    {
        if parcel.receiver == self.receiver.incarnation {
            if parcel.sender < self.receiver.newest {
                return self.still(SessionOutcome::Stale);
            }
            self.arrives(self.receiver.met(parcel.sender), say, parcel)
        } else {
            self.welcomes(self.receiver, parcel.sender)
        }
    }

    pub(crate) fn receiver_receives(&self, say: Say, packet: Option<SenderPacket>) -> SessionMove
        requires room { self.now.events < 2 ^ 31 }
        requires numbered { IfSome packet IsNumbered }
        ensures { result ≡ moves.receiver_receives self.now say packet }
    {
        match packet {
            None => self.still(SessionOutcome::Done),
            Some(SenderPacket::Hello { sender }) => self.hello_arrives(sender),
            Some(SenderPacket::Parcel(parcel)) => self.parcel_arrives(say, &parcel),
        }
    }
}
