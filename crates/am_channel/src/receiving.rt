//! The receiving end.

ghost use Rattle.am_channel.specs.Receiving.{IsAgain, IsFresh, IsStale, arrival_of};
ghost use Rattle.am_model.specs.Channels.{arrival};
ghost use Rattle.std.specs.Prelude.{◌≡◌, ◌≤◌, ◌↔◌};

use am_names::{Cause, Parcel, Verdict};
use std::marker::Model;

/// What a parcel is to a receiving end.
///
/// ```
/// match end.arrive(&parcel) {
///     Arrival::Fresh => end.decided(&parcel, Verdict::Accepted),
///     Arrival::Again(verdict) => answer(verdict),
///     Arrival::Stale => {}
/// }
/// ```
#[derive(Clone, Copy, PartialEq, Eq)]
pub enum Arrival {
    /// One of the past, which gets no answer.
    Stale,
    /// One whose verdict stands, which is answered by that verdict.
    Again(Verdict),
    /// One that its destination is to decide on.
    Fresh,
}

/// The receiving end of a channel. Contracts see it as its `Mark`: the sequence and the attempt of the last parcel that
/// was decided on, and the verdict on it.
#[derive(Clone, Copy, PartialEq, Eq)]
pub struct RecvEnd {
    seq: u32,
    attempt: u8,
    verdict: Verdict,
}

impl Model for RecvEnd {
    ghost use Rattle.am_model.specs.Channels.{Mark};

    ghost Value = { Mark };

    ghost view = { λ end. record { seq = end.seq; attempt = end.attempt; verdict = end.verdict } };

    ghost inverse = { λ mark. record { seq = mark.seq; attempt = mark.attempt; verdict = mark.verdict } };
}

impl RecvEnd {
    /// An end that decided on nothing: its mark is sequence 0, attempt 0, refused.
    pub fn new() -> RecvEnd
        ensures { result ≡ record { seq = 0; attempt = 0; verdict = Verdict.Refused Cause.NoRequest } }
    {
        RecvEnd {
            seq: 0,
            attempt: 0,
            verdict: Verdict::Refused(Cause::NoRequest),
        }
    }

    /// What a parcel is that arrives (`arrival` of am_model's `specs/Channels.antt`).
    pub fn arrive(&self, packet: &Parcel) -> Arrival
        requires { 1 ≤ packet.now.seq }
        ensures table { arrival_of result ≡ arrival self.now packet.now.seq packet.now.attempt }
        ensures stale { (result ≡ Arrival.Stale) ↔ IsStale self.now packet.now.seq packet.now.attempt }
        ensures again { (result ≡ Arrival.Again self.now.verdict) ↔ IsAgain self.now packet.now.seq packet.now.attempt }
        ensures fresh { (result ≡ Arrival.Fresh) ↔ IsFresh self.now packet.now.seq packet.now.attempt }
    {
        if packet.seq < self.seq {
            return Arrival::Stale;
        }
        if packet.seq > self.seq {
            return Arrival::Fresh;
        }
        match self.verdict {
            Verdict::Accepted => Arrival::Again(Verdict::Accepted),
            Verdict::Refused(cause) => if packet.attempt < self.attempt {
                Arrival::Stale
            } else if packet.attempt == self.attempt {
                Arrival::Again(Verdict::Refused(cause))
            } else {
                Arrival::Fresh
            },
        }
    }

    /// Keeps the verdict on a fresh parcel.
    pub fn decided(&mut self, packet: &Parcel, verdict: Verdict)
        requires fresh { IsFresh self.old packet.now.seq packet.now.attempt }
        ensures { self.new ≡ record { seq = packet.now.seq; attempt = packet.now.attempt; verdict = verdict } }
    {
        self.seq = packet.seq;
        self.attempt = packet.attempt;
        self.verdict = verdict;
    }
}
