//! A session: what each event does is found first, and then done.

ghost use Rattle.am_restart.specs.Bounds.{IsBounded};
ghost use Rattle.am_restart.specs.History.{after, entry_of};
ghost use Rattle.am_restart.specs.declared.events.Say.TheVariants as Says;
ghost use Rattle.am_restart.specs.declared.events.SessionCondition.{SessionCondition};
ghost use Rattle.am_restart.specs.Moves as moves;
ghost use Rattle.am_restart.specs.State as state;
ghost use Rattle.std.specs.Prelude.{◌≡◌, ◌≤◌, ◌<◌, ◌^◌, ◌↔◌, Err, IfOk, None, OnErr, OnOk, Some, slice_get};

use crate::ends::{Receiver, Sender};
use crate::events::{SessionCondition, SessionEntry, SessionEvent, SessionFault, SessionOutcome};
use crate::moves::{Change, SessionMove};
use crate::traffic::Traffic;
use am_names::NoMemory;
use std::alloc::Global;
use std::collections::VecDeque;
use std::marker::Model;

/// A session of a sender and a receiver. Contracts see it as a `SessionState` (`specs/State.antt`).
#[derive(Drop)]
pub struct Session {
    pub(crate) tries: u8,
    pub(crate) events: u32,
    pub(crate) traffic: Traffic,
    pub(crate) sender: Sender,
    pub(crate) receiver: Receiver,
}

impl Model for Session {
    ghost use Rattle.am_restart.specs.State.{SessionState};
    ghost use Rattle.am_restart.specs.Bounds.{IsBounded};

    ghost Value = { SessionState };

    ghost view = { λ s. record { tries = s.tries; events = s.events; traffic = s.traffic; sender = s.sender; receiver = s.receiver } };

    ghost invariant = { λ s. IsBounded (record { tries = s.tries; events = s.events; traffic = s.traffic; sender = s.sender; receiver = s.receiver }) };
}

// The packet with this number, counted from 1.
pub(crate) fn packet_at<P: Copy>(packets: &[P], number: u32) -> Option<P>
    ensures { result ≡ state.packet_at packets.now number }
{
    if number == 0 {
        return None;
    }
    packets.get(number as usize - 1).copied()
}

// The front of the queue.
pub(crate) fn front_of(queue: &VecDeque<u32>) -> Option<u32>
    ensures { result ≡ slice_get queue.now.items 0 }
{
    queue.front().copied()
}

impl Session {
    /// A session in which nothing happened, whose messages have this many tries each. It takes no memory.
    pub fn new(alloc: Global, tries: u8) -> Session
        requires at_least { 2 ≤ tries }
        requires at_most { tries ≤ 16 }
        ensures { result ≡ state.opening tries }
    {
        Session {
            tries,
            events: 0,
            traffic: Traffic::new(alloc),
            sender: Sender::new(1, 0),
            receiver: Receiver::new(1, 0),
        }
    }

    // The first condition that keeps an event from happening.
    fn failing(&self, event: &SessionEvent) -> Option<SessionCondition>
        ensures { result ≡ moves.failing self.now event.now }
    {
        match event {
            SessionEvent::Bind => self.failing_bind(),
            SessionEvent::Expire => self.failing_expire(),
            SessionEvent::SenderReceive { number } => self.failing_sender(*number),
            SessionEvent::ReceiverReceive { number, .. } => self.failing_receiver(*number),
            SessionEvent::Offer
            | SessionEvent::Hello
            | SessionEvent::SenderRestart
            | SessionEvent::ReceiverRestart => None,
        }
    }

    fn failing_bind(&self) -> Option<SessionCondition>
        ensures { result ≡ moves.failing self.now SessionEvent.Bind }
    {
        if self.sender.peer == 0 {
            Some(SessionCondition::UnknownPeer)
        } else if self.sender.end.busy().is_some() {
            Some(SessionCondition::Bound)
        } else if front_of(&self.traffic.queue).is_none() {
            Some(SessionCondition::NoMessage)
        } else {
            None
        }
    }

    fn failing_expire(&self) -> Option<SessionCondition>
        ensures { result ≡ moves.failing self.now SessionEvent.Expire }
    {
        if self.sender.end.busy().is_none() {
            Some(SessionCondition::Idle)
        } else {
            None
        }
    }

    fn failing_sender(&self, number: u32) -> Option<SessionCondition>
        ensures { result ≡ moves.failing self.now (SessionEvent.SenderReceive number) }
    {
        if packet_at(&self.traffic.from_receiver, number).is_none() {
            Some(SessionCondition::NoPacket)
        } else {
            None
        }
    }

    fn failing_receiver(&self, number: u32) -> Option<SessionCondition>
        ensures { result ≡ moves.failing self.now (SessionEvent.ReceiverReceive number Says.Accept) }
    {
        if packet_at(&self.traffic.from_sender, number).is_none() {
            Some(SessionCondition::NoPacket)
        } else {
            None
        }
    }

    pub(crate) fn still(&self, outcome: SessionOutcome) -> SessionMove
        ensures { result ≡ moves.still self.now outcome }
    {
        SessionMove {
            outcome,
            sender: self.sender,
            receiver: self.receiver,
            change: Change::Nothing,
        }
    }

    pub(crate) fn next_of_sender(&self) -> u32
        requires { self.now.events < 2 ^ 31 }
        ensures { result ≡ moves.next_of_sender self.now }
    {
        self.traffic.from_sender.len() as u32 + 1
    }

    pub(crate) fn next_of_receiver(&self) -> u32
        requires { self.now.events < 2 ^ 31 }
        ensures { result ≡ moves.next_of_receiver self.now }
    {
        self.traffic.from_receiver.len() as u32 + 1
    }

    // What an event does.
    #[tactic(auto, using(crate::proofs::Enabled::binds_idle, crate::proofs::Enabled::numbered_at))]
    fn move_of(&self, event: &SessionEvent) -> SessionMove
        requires room { self.now.events < 2 ^ 31 }
        requires enabled { moves.failing self.now event.now ≡ None }
        ensures { result ≡ moves.move_of self.now event.now }
    {
        match *event {
            SessionEvent::Offer => self.offer(),
            SessionEvent::Hello => self.hello(),
            SessionEvent::Bind => self.bind(),
            SessionEvent::Expire => self.expire(),
            SessionEvent::SenderReceive { number } => {
                let packet = packet_at(&self.traffic.from_receiver, number);
                self.sender_receives(packet)
            }
            SessionEvent::SenderRestart => self.sender_restarts(),
            SessionEvent::ReceiverReceive { number, say } => {
                let packet = packet_at(&self.traffic.from_sender, number);
                self.receiver_receives(say, packet)
            }
            SessionEvent::ReceiverRestart => self.receiver_restarts(),
        }
    }

    // Makes a move, or leaves all as it was where there is no memory.
    fn make(&mut self, planned: &SessionMove) -> Result<(), NoMemory>
        requires room { self.old.events < 2 ^ 31 }
        requires bounded { IsBounded (state.moved planned.now self.old) }
        ensures ok { OnOk result (self.new ≡ state.moved planned.now self.old) }
        ensures err { OnErr result (self.new ≡ self.old) }
    {
        self.traffic.change(planned.change)?;
        self.sender = planned.sender;
        self.receiver = planned.receiver;
        self.events += 1;
        Ok(())
    }

    /// Applies an event: Ok is its entry. `NotEnabled` comes exactly where one of its conditions fails, and tells the first;
    /// `NoMemory` where there is none for what it emits or queues. After either nothing changed.
    #[tactic(auto, using(crate::proofs::Bounded::stays_bounded))]
    pub fn apply(&mut self, event: &SessionEvent) -> Result<SessionEntry, SessionFault>
        requires { self.old.events < 2 ^ 31 }
        ensures not_enabled { (condition : SessionCondition) → (result ≡ Err (SessionFault.NotEnabled condition)) ↔ (moves.failing self.old event.now ≡ Some condition) }
        ensures enabled { OnOk result (moves.failing self.old event.now ≡ None) }
        ensures entry { IfOk result (λ entry. entry ≡ entry_of self.old event.now) }
        ensures after { OnOk result (self.new ≡ after self.old event.now) }
        ensures err { OnErr result (self.new ≡ self.old) }
    {
        if let Some(condition) = self.failing(event) {
            return Err(SessionFault::NotEnabled(condition));
        }
        let planned = self.move_of(event);
        let _ = &self.events;
        match self.make(&planned) {
            Ok(()) => Ok(SessionEntry {
                event: *event,
                outcome: planned.outcome,
            }),
            Err(NoMemory) => Err(SessionFault::NoMemory),
        }
    }
}
