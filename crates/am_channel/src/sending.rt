//! The sending end.

ghost use Rattle.am_channel.specs.Sending.{CountsForNothing, bound_after, bound_to, settled, timed_out, unanswered};
ghost use Rattle.std.specs.Prelude.{◌≡◌, ◌+◌, ◌-◌, ◌<◌, ◌≤◌, ◌^◌, ◌↔◌, IfSome, IsNone, IsSome, None};

use am_block::Slot;
use am_names::{AnswerPacket, Message, Verdict};
use std::marker::Model;

/// A message that is bound to a channel.
///
/// ```
/// let tries = end.busy().map(|bound| bound.attempt);
/// ```
#[derive(Clone, Copy, PartialEq, Eq)]
pub struct Bound {
    pub message: Message,
    /// Where its endpoint keeps it.
    pub slot: Slot,
    /// The attempt of its last packet, counted from 0: the tries that were used before that one.
    pub attempt: u8,
}

/// The numbers of a packet that a sending end emits.
///
/// ```
/// let sent = end.bind(message, slot);
/// emit(sent);
/// ```
#[derive(Clone, Copy, PartialEq, Eq)]
pub struct Sent {
    /// The number of the binding, from 1.
    pub seq: u32,
    /// How many tries the binding had used before.
    pub attempt: u8,
}

/// What comes of a time-out.
///
/// ```
/// match end.time_out(16) {
///     TimedOut::Resend(sent) => emit(sent),
///     TimedOut::GaveUp(bound) => give_up(bound),
/// }
/// ```
#[derive(Clone, Copy, PartialEq, Eq)]
pub enum TimedOut {
    /// The bound message is sent again, by these numbers.
    Resend(Sent),
    /// This message has no try left, and is bound no more.
    GaveUp(Bound),
}

/// What comes of an answer.
///
/// ```
/// if let Settled::Done(bound, verdict) = end.answer(&packet) {
///     settle(bound.slot, verdict);
/// }
/// ```
#[derive(Clone, Copy, PartialEq, Eq)]
pub enum Settled {
    /// This message got this verdict, and is bound no more.
    Done(Bound, Verdict),
    /// The answer counts for nothing.
    Nothing,
}

/// The sending end of a channel. Contracts see it as a `SendView`: its sequence, which is how often it was bound, and
/// the message that is bound, if one is.
///
/// ```
/// let mut end = SendEnd::new();
/// let sent = end.bind(message, slot);
/// ```
#[derive(Clone, Copy, PartialEq, Eq)]
pub struct SendEnd {
    seq: u32,
    bound: Option<Bound>,
}

impl Model for SendEnd {
    ghost use Rattle.am_channel.specs.Sending.{SendView};

    ghost Value = { SendView };

    ghost view = { λ end. record { seq = end.seq; bound = end.bound } };

    ghost inverse = { λ view. record { seq = view.seq; bound = view.bound } };
}

impl SendEnd {
    /// An end that was never bound.
    pub fn new() -> SendEnd
        ensures { result ≡ record { seq = 0; bound = None } }
    {
        SendEnd {
            seq: 0,
            bound: None,
        }
    }

    /// The message that is bound. None exactly where the end is idle.
    pub fn busy(&self) -> Option<Bound>
        ensures bound { result ≡ self.now.bound }
        ensures idle { (result ≡ None) ↔ IsNone self.now.bound }
    {
        self.bound
    }

    /// The sequence: how often it was bound.
    pub fn seq(&self) -> u32
        ensures { result ≡ self.now.seq }
    {
        self.seq
    }

    /// Binds a message under the next sequence, for its first try.
    ///
    /// ```
    /// if end.busy().is_none() {
    ///     emit(end.bind(message, slot));
    /// }
    /// ```
    pub fn bind(&mut self, message: Message, slot: Slot) -> Sent
        requires idle { IsNone self.old.bound }
        requires room { self.old.seq < 2 ^ 32 - 1 }
        ensures sent { result ≡ record { seq = self.old.seq + 1; attempt = 0 } }
        ensures bound { self.new ≡ bound_to self.old message slot }
    {
        self.seq += 1;
        self.bound = Some(Bound {
            message,
            slot,
            attempt: 0,
        });
        Sent {
            seq: self.seq,
            attempt: 0,
        }
    }

    /// Takes notice that no answer came in time. The next try goes out where fewer than `tries` are used, and else the
    /// message is given up and the end is idle.
    ///
    /// ```
    /// if end.busy().is_some() {
    ///     let timed_out = end.time_out(16);
    /// }
    /// ```
    pub fn time_out(&mut self, tries: u8) -> TimedOut
        requires busy { IsSome self.old.bound }
        ensures timed_out { IfSome self.old.bound (λ b. result ≡ timed_out tries self.old.seq b) }
        ensures gave_up { IfSome self.old.bound (λ b. (result ≡ TimedOut.GaveUp b) ↔ (tries ≤ b.attempt + 1)) }
        ensures after { IfSome self.old.bound (λ b. self.new ≡ record self.old { bound = unanswered b result }) }
    {
        let Some(bound) = self.bound else {
            unreachable!()
        };
        if bound.attempt < tries.saturating_sub(1) {
            let attempt = bound.attempt + 1;
            self.bound = Some(Bound { attempt, ..bound });
            TimedOut::Resend(Sent {
                seq: self.seq,
                attempt,
            })
        } else {
            self.bound = None;
            TimedOut::GaveUp(bound)
        }
    }

    /// Takes an answer. One that accepts counts where it is to the current sequence of a bound message, on whatever
    /// attempt; one that refuses counts where its attempt is the current one too. Where it counts the end is idle after
    /// it, and else as it was.
    pub fn answer(&mut self, packet: &AnswerPacket) -> Settled
        ensures settled { result ≡ settled self.old packet.now }
        ensures nothing { (result ≡ Settled.Nothing) ↔ CountsForNothing self.old packet.now }
        ensures after { self.new ≡ record self.old { bound = bound_after self.old.bound result } }
    {
        let Some(bound) = self.bound else {
            return Settled::Nothing;
        };
        let counts = match packet.verdict {
            Verdict::Accepted => true,
            Verdict::Refused(_) => packet.attempt == bound.attempt,
        };
        if packet.seq == self.seq && counts {
            self.bound = None;
            Settled::Done(bound, packet.verdict)
        } else {
            Settled::Nothing
        }
    }
}
