//! Endpoints: what each entry makes of their state, and their log.
#![tactic(auto)]

ghost use Rattle.am_block.specs.Pools.{without};
ghost use Rattle.am_endpoint_body.specs.Flights.{slot_of};
ghost use Rattle.am_endpoint.specs.Empty.{HasNoArrivals, HasNoQueued};
ghost use Rattle.am_endpoint.specs.Events.{is_kept_out, keeps_flights};
ghost use Rattle.am_endpoint.specs.Flights.{IsSlotOf};
ghost use Rattle.am_model.specs.Changes.{settled_in};
ghost use Rattle.am_endpoint.specs.Held.{with_wanted};
ghost use Rattle.am_endpoint.specs.Seen.{state_in};
ghost use Rattle.am_endpoint.specs.Settings.{AreLawful};
ghost use Rattle.am_endpoint.specs.View.{EndpointView, state_after};
ghost use Rattle.am_model.specs.Parts.{last_stamp};
ghost use Rattle.am_model.specs.Allowed.{MayArrive, MayBind, MayCarry, MayDrain, MayLoad, MayPageIn, MayPageOut, MaySettle, MayUnload, are_numbers_in_range};
ghost use Rattle.am_model.specs.Calls.{outcome_of_call};
ghost use Rattle.am_model.specs.Changes.{after, flying_of, has_arrivals};
ghost use Rattle.am_model.specs.Endpoint.{front, is_on_disk, verdict};
ghost use Rattle.am_model.specs.Order.{IsInOrder, KeepsOrder};
ghost use Rattle.am_names.specs.Names.{is_request, is_well_formed};
ghost use Rattle.std.specs.Option.{option_map};
ghost use Rattle.std.specs.Prelude.{◌≡◌, ◌||◌, ◌==◌, not, ◌+◌, ◌<◌, ◌≤◌, ◌^◌, [], ◌∷◌, ◌++◌, length, count_by, IfOk, IsTrue, OnErr, OnOk, IfSome, MatchOption, Err, None, is_some, max, true, false, ◌↔◌};

mod arrivals;
mod calls;
mod departures;
mod entries;
mod fields;
mod flights;
mod held;
mod settings;

use crate::arrivals::verdict_on_disk;
use crate::fields::Fields;
use crate::held::HeldEndpoint;
pub use crate::settings::EndFault;
use am_block::Slot;
pub use am_endpoint_body::{Body, EndSettings};
use am_model::{Flying, Head, Queued, is_on_disk};
pub use am_names::NoMemory;
use am_names::{Cause, EndpointId, Message, NodeId, Serial, Verdict};
pub use am_office_entries::Place;
use am_office_entries::{Actor, Call, Entry, Event, Outcome, Received, growth};
use std::alloc::Global;
use std::marker::Model;
use std::mem::replace;

/// An endpoint with its log. Contracts see what it began with, its log, whether it is ready
/// for one more entry, and the slots of its messages in flight; its state is the replay of the
/// log. On disk it keeps no body.
#[derive(Drop)]
pub struct Endpoint {
    settings: EndSettings,
    held: HeldEndpoint,
    log: Vec<Entry>,
}

impl Model for Endpoint {
    ghost use Rattle.am_endpoint.specs.View.{EndpointView};

    ghost Value = { EndpointView };

    ghost use Rattle.am_endpoint.specs.Kept.{view_of, IsReplay};

    ghost view = { view_of };

    ghost invariant = { IsReplay };
}

impl Endpoint {
    /// A fresh endpoint with an empty log. On disk it has no body.
    pub fn new(alloc: Global, set: EndSettings) -> Result<Endpoint, NoMemory>
        requires { AreLawful set }
        ensures settings { IfOk result (λ end. end.settings ≡ set) }
        ensures log { IfOk result (λ end. end.log ≡ []) }
        ensures flights { IfOk result (λ end. end.flights ≡ []) }
    {
        match HeldEndpoint::opening(alloc, &set) {
            Ok(held) => Ok(Endpoint {
                settings: set,
                held,
                log: Vec::new(alloc),
            }),
            Err(fault) => Err(fault),
        }
    }
}

impl Endpoint {
    /// Whose it is.
    pub fn id(&self) -> EndpointId
        ensures { result ≡ self.now.settings.id }
    {
        self.settings.id
    }

    /// Its node.
    pub fn node(&self) -> NodeId
        ensures { result ≡ self.now.settings.node }
    {
        self.settings.node
    }

    /// How often a message of its may bounce.
    pub fn bounces(&self) -> u8
        ensures { result ≡ self.now.settings.bounces }
    {
        self.settings.bounces
    }

    /// The credits that its indexes share, if they share any.
    pub fn pool(&self) -> Option<u8>
        ensures { result ≡ self.now.settings.pool }
    {
        self.settings.pool
    }

    /// The entries in order: at most as many as the settings' limit, which is 1 to 65536.
    pub fn log(&self) -> &[Entry]
        ensures log { result.now ≡ self.now.log }
        ensures few { length self.now.log ≤ self.now.settings.log }
        ensures limit { self.now.settings.log ≤ 65536 }
    {
        self.log.as_slice()
    }

    /// The stamp of the last entry, and 0 where there is none.
    pub fn last_stamp(&self) -> u64
        ensures { result ≡ last_stamp self.now.log }
    {
        match self.log.as_slice().last() {
            None => 0,
            Some(entry) => entry.stamp,
        }
    }

    /// Where it lies.
    pub fn place(&self) -> Place
        ensures { result ≡ (state_after self.now).head.place }
    {
        self.head().place
    }

    /// Whether it is wanted.
    pub fn wanted(&self) -> bool
        ensures { result ≡ (state_after self.now).head.wanted }
    {
        self.head().wanted
    }

    /// Whether it is draining.
    pub fn draining(&self) -> bool
        ensures { result ≡ (state_after self.now).head.draining }
    {
        self.head().draining
    }

    /// Whether it is closed.
    pub fn closed(&self) -> bool
        ensures { result ≡ (state_after self.now).head.closed }
    {
        self.head().closed
    }
}

impl Endpoint {
    /// What is known of it wherever it lies: its place, and whether it is wanted, draining and closed.
    pub fn head(&self) -> Head
        ensures { result ≡ (state_after self.now).head }
    {
        self.held.head()
    }

    /// Whether it is on disk.
    pub fn is_on_disk(&self) -> bool
        ensures { result ≡ is_on_disk (state_after self.now).head.place }
    {
        is_on_disk(self.place())
    }

    /// Its state, where it lies in memory.
    fn fields(&self) -> &Fields
        requires { is_on_disk (state_after self.now).head.place ≡ false }
        ensures state { state_in result.now ≡ state_after self.now }
        ensures pool { result.now.body.pool ≡ self.now.settings.pool }
        ensures flights { result.now.body.flights ≡ self.now.flights }
        ensures order { IsInOrder self.now.settings.pool self.now.settings.id (state_after self.now) }
    {
        match &self.held {
            HeldEndpoint::Here(fields) => fields,
            HeldEndpoint::OnDisk(_) => unreachable!(),
        }
    }
}

impl Endpoint {
    /// Its body. None exactly where it is on disk.
    pub fn body(&self) -> Option<&Body>
        ensures none { (result ≡ None) ↔ (is_on_disk (state_after self.now).head.place ≡ true) }
        ensures body { IfSome result (λ body. body.now ≡ record { pool = self.now.settings.pool; body = (state_after self.now).body; flights = self.now.flights }) }
        ensures order { IfSome result (λ body. IsInOrder self.now.settings.pool self.now.settings.id (state_after self.now)) }
    {
        if self.is_on_disk() {
            None
        } else {
            Some(&self.fields().body)
        }
    }

    /// The front message, and how often it bounced: the front of replies, and where there is none the front of requests. None
    /// exactly where both are empty.
    pub fn front(&self) -> Option<Queued>
        requires { is_on_disk (state_after self.now).head.place ≡ false }
        ensures value { result ≡ front (state_after self.now) }
        ensures none { (result ≡ None) ↔ HasNoQueued (state_after self.now).body }
        ensures formed { IfSome result (λ queued. is_well_formed queued.message ≡ true) }
    {
        self.fields().body.front()
    }

    /// Whether there is a front message. False exactly where both queues are empty.
    pub fn has_front(&self) -> bool
        requires { is_on_disk (state_after self.now).head.place ≡ false }
        ensures value { result ≡ is_some (front (state_after self.now)) }
        ensures none { (result ≡ false) ↔ HasNoQueued (state_after self.now).body }
    {
        self.front_message().is_some()
    }

    /// The front message where it lies: that of `front`. None exactly where both queues are empty.
    pub fn front_message(&self) -> Option<&Message>
        requires { is_on_disk (state_after self.now).head.place ≡ false }
        ensures value { option_map (λ message. message.now) result ≡ option_map (λ queued. queued.message) (front (state_after self.now)) }
        ensures none { (result ≡ None) ↔ HasNoQueued (state_after self.now).body }
        ensures formed { IfSome result (λ message. is_well_formed message.now ≡ true) }
    {
        self.fields().body.front_message()
    }

    /// The verdict on a message that arrives.
    pub fn verdict(&self, message: &Message) -> Verdict
        ensures { result ≡ verdict (state_after self.now) message.now }
    {
        match &self.held {
            HeldEndpoint::Here(fields) => fields.verdict(message),
            HeldEndpoint::OnDisk(head) => verdict_on_disk(*head),
        }
    }

    /// Whether a notice or a received message is there.
    pub fn pollable(&self) -> bool
        requires { is_on_disk (state_after self.now).head.place ≡ false }
        ensures value { result ≡ has_arrivals (state_after self.now).body }
        ensures none { (result ≡ false) ↔ HasNoArrivals (state_after self.now).body }
    {
        self.fields().body.has_arrivals()
    }

    /// Whether a reply or an empty reply is to be sent.
    pub fn has_reply(&self) -> bool
        requires { is_on_disk (state_after self.now).head.place ≡ false }
        ensures { result ≡ not (length (state_after self.now).body.replies == 0) }
    {
        self.fields().body.has_reply()
    }

    /// How many requests are received and not polled.
    pub fn received_requests(&self) -> u8
        requires { is_on_disk (state_after self.now).head.place ≡ false }
        ensures { result ≡ count_by is_request (state_after self.now).body.received }
    {
        self.fields().body.received_requests()
    }

    /// Whether a message with this serial is in flight.
    pub fn in_flight(&self, serial: Serial) -> bool
        ensures { result ≡ is_some (flying_of serial (state_after self.now).body.in_flight) }
    {
        self.flight(serial).is_some()
    }

    /// The message in flight with this serial, how often it bounced and whether its reply was put. None exactly where no
    /// message with this serial is in flight.
    pub fn flight(&self, serial: Serial) -> Option<Flying>
        ensures { result ≡ flying_of serial (state_after self.now).body.in_flight }
    {
        match &self.held {
            HeldEndpoint::Here(fields) => fields.body.flight(serial),
            HeldEndpoint::OnDisk(_) => None,
        }
    }

    /// The slot of the first message in flight with this serial. None exactly where no message with this serial is in flight.
    pub fn flight_slot(&self, serial: Serial) -> Option<Slot>
        ensures slot { option_map (λ s. s.0) result ≡ slot_of serial (state_after self.now).body.in_flight self.now.flights }
        ensures none { (result ≡ None) ↔ (flying_of serial (state_after self.now).body.in_flight ≡ None) }
    {
        match &self.held {
            HeldEndpoint::Here(fields) => fields.body.flight_slot(serial),
            HeldEndpoint::OnDisk(_) => None,
        }
    }

    /// How many messages are in flight: none where it is on disk.
    pub fn in_flight_len(&self) -> u8
        ensures { result ≡ length (state_after self.now).body.in_flight }
    {
        match &self.held {
            HeldEndpoint::Here(fields) => fields.body.in_flight_len(),
            HeldEndpoint::OnDisk(_) => 0,
        }
    }
}

impl Endpoint {
    /// Whether its log has as many entries as it may.
    pub fn is_full(&self) -> bool
        ensures full { IsTrue result ↔ (length self.now.log ≡ self.now.settings.log) }
        ensures bounded { length self.now.log ≤ self.now.settings.log }
    {
        self.log.len() >= self.settings.log as usize
    }

    /// Makes room for one more entry, so that the next logged change takes no memory. `LogFull` comes exactly where the log
    /// has as many entries as its limit, and `NoMemory` only where it has fewer and there is none for one more entry.
    /// Whether it succeeds or not, the endpoint is as it was; where it doesn't, room that was there stays.
    pub fn room(&mut self) -> Result<(), EndFault>
        ensures ok { OnOk result (self.new.ready ≡ true) }
        ensures spare { OnOk result (length self.new.log < self.new.settings.log) }
        ensures full { (result ≡ Err EndFault.LogFull) ↔ (length self.old.log ≡ self.old.settings.log) }
        ensures starved { (result ≡ Err EndFault.NoMemory) → (length self.old.log < self.old.settings.log) }
        ensures settings { self.new.settings ≡ self.old.settings }
        ensures log { self.new.log ≡ self.old.log }
        ensures flights { self.new.flights ≡ self.old.flights }
        ensures kept { OnErr result (self.new.ready ≡ self.old.ready) }
    {
        if self.is_full() {
            return Err(EndFault::LogFull);
        }
        match self.log.reserve(growth(&self.log)) {
            Ok(()) => Ok(()),
            Err(_) => Err(EndFault::NoMemory),
        }
    }

    /// Does what the entry makes of the endpoint, which is in memory and stays there with its messages in flight, and logs it.
    fn enter(&mut self, entry: &Entry)
        requires ready { self.old.ready ≡ true }
        requires room { length self.old.log < self.old.settings.log }
        requires here { is_on_disk (state_after self.old).head.place ≡ false }
        requires stays { keeps_flights entry.now.event entry.now.outcome ≡ true }
        requires keeps { KeepsOrder self.old.settings.bounces self.old.settings.pool self.old.settings.id (state_after self.old) entry.now }
        ensures settings { self.new.settings ≡ self.old.settings }
        ensures log { self.new.log ≡ self.old.log ++ entry.now ∷ [] }
        ensures flights { self.new.flights ≡ self.old.flights }
    {
        let end = self.settings.id;
        let HeldEndpoint::Here(fields) = &mut self.held else {
            unreachable!()
        };
        fields.apply(end, entry);
        self.log.push_reserved(*entry);
    }

    /// Logs an entry that changes at most whether the endpoint is wanted.
    fn note(&mut self, entry: Entry, wanted: bool)
        requires ready { self.old.ready ≡ true }
        requires room { length self.old.log < self.old.settings.log }
        requires keeps { KeepsOrder self.old.settings.bounces self.old.settings.pool self.old.settings.id (state_after self.old) entry }
        requires change { after self.old.settings.id (state_after self.old) entry ≡ with_wanted (state_after self.old) wanted }
        ensures settings { self.new.settings ≡ self.old.settings }
        ensures log { self.new.log ≡ self.old.log ++ entry ∷ [] }
        ensures flights { self.new.flights ≡ self.old.flights }
        ensures same { (state_after self.new).body ≡ (state_after self.old).body }
    {
        self.held.set_wanted(wanted);
        self.log.push_reserved(entry);
    }
}

impl Endpoint {
    /// The stamp of an entry that is made now: above the floor and above the last entry.
    fn next_stamp(&self, floor: u64) -> u64
        requires floor { floor + 1 < 2 ^ 64 }
        requires last { last_stamp self.now.log + 1 < 2 ^ 64 }
        ensures { result ≡ 1 + max floor (last_stamp self.now.log) }
    {
        1 + floor.max(self.last_stamp())
    }

    /// Makes a call, and logs it with its outcome.
    fn make(&mut self, stamp: u64, actor: Actor, call: Call) -> Entry
        requires place { is_on_disk (state_after self.old).head.place ≡ false }
        requires ready { self.old.ready ≡ true }
        requires room { length self.old.log < self.old.settings.log }
        requires numbers { are_numbers_in_range self.old.settings.pool call ≡ true }
        ensures event { result.event ≡ Event.Call actor self.old.settings.id call }
        ensures outcome { result.outcome ≡ outcome_of_call self.old.settings.pool self.old.settings.id (state_after self.old) call }
        ensures stamp { result.stamp ≡ stamp }
        ensures log { self.new.log ≡ self.old.log ++ result ∷ [] }
        ensures settings { self.new.settings ≡ self.old.settings }
        ensures flights { self.new.flights ≡ self.old.flights }
    {
        let end = self.settings.id;
        let HeldEndpoint::Here(fields) = &mut self.held else {
            unreachable!()
        };
        let outcome = fields.call(end, call);
        let made = Entry {
            stamp,
            event: Event::Call { actor, end, call },
            outcome,
        };
        self.log.push_reserved(made);
        made
    }

    /// Makes an application's call, and logs it with its outcome, a refusal included. A map's credits are 1 to 8, or a least
    /// share of 0 to 8 where the endpoint has a pool; the handler that an echo or add replies to is 1 to 15.
    ///
    /// `floor` is the greatest stamp that the caller knows of, 0 where it knows none: the entry's stamp is one more than the
    /// greater of it and the stamp of the endpoint's last entry.
    ///
    /// `LogFull` comes exactly where the log has as many entries as its limit, and `NoMemory` only where it has fewer and there is
    /// none for one more entry. Then the endpoint is as it was, and keeps room that it had.
    pub fn call(&mut self, floor: u64, actor: Actor, call: Call) -> Result<Entry, EndFault>
        requires place { is_on_disk (state_after self.old).head.place ≡ false }
        requires numbers { are_numbers_in_range self.old.settings.pool call ≡ true }
        requires floor { floor + 1 < 2 ^ 64 }
        requires last { last_stamp self.old.log + 1 < 2 ^ 64 }
        ensures event { IfOk result (λ x. x.event ≡ Event.Call actor self.old.settings.id call) }
        ensures outcome { IfOk result (λ x. x.outcome ≡ outcome_of_call self.old.settings.pool self.old.settings.id (state_after self.old) call) }
        ensures stamp { IfOk result (λ x. x.stamp ≡ 1 + max floor (last_stamp self.old.log)) }
        ensures logged { IfOk result (λ x. self.new.log ≡ self.old.log ++ x ∷ []) }
        ensures settings { self.new.settings ≡ self.old.settings }
        ensures flights { self.new.flights ≡ self.old.flights }
        ensures full { (result ≡ Err EndFault.LogFull) ↔ (length self.old.log ≡ self.old.settings.log) }
        ensures starved { (result ≡ Err EndFault.NoMemory) → (length self.old.log < self.old.settings.log) }
        ensures err { OnErr result (self.new.log ≡ self.old.log) }
        ensures kept { OnErr result (self.new.ready ≡ self.old.ready) }
    {
        self.room()?;
        Ok(self.make(self.next_stamp(floor), actor, call))
    }

    /// Whether it is wanted on disk after a message came with this outcome.
    fn wanted_after(&self, outcome: Outcome) -> bool
        ensures { result ≡ (is_kept_out outcome || (state_after self.now).head.wanted) }
    {
        is_kept_out(outcome) || self.wanted()
    }

    /// What a message that arrives from elsewhere makes of it, by a carry or a receipt that gives
    /// it a verdict.
    pub fn put(&mut self, entry: Entry)
        requires ready { self.old.ready ≡ true }
        requires room { length self.old.log < self.old.settings.log }
        requires allowed { MayArrive self.old.settings.id (state_after self.old) entry }
        ensures settings { self.new.settings ≡ self.old.settings }
        ensures log { self.new.log ≡ self.old.log ++ entry ∷ [] }
        ensures flights { self.new.flights ≡ self.old.flights }
    {
        if self.is_on_disk() {
            let wanted = self.wanted_after(entry.outcome);
            self.note(entry, wanted);
        } else {
            self.enter(&entry);
        }
    }

    /// What a carry of its front message makes of it: the source's change, and where it is the
    /// destination too both changes, in one entry.
    pub fn carry_out(&mut self, entry: Entry)
        requires ready { self.old.ready ≡ true }
        requires room { length self.old.log < self.old.settings.log }
        requires allowed { MayCarry self.old.settings.bounces self.old.settings.id (state_after self.old) entry }
        ensures settings { self.new.settings ≡ self.old.settings }
        ensures log { self.new.log ≡ self.old.log ++ entry ∷ [] }
        ensures flights { self.new.flights ≡ self.old.flights }
    {
        self.enter(&entry);
    }
}

impl Endpoint {
    /// Marks an endpoint on disk as wanted, and logs it. Its body, which is elsewhere, stays what it is.
    ///
    /// `floor` is the greatest stamp that the caller knows of, 0 where it knows none: the entry's stamp is one more than the
    /// greater of it and the stamp of the endpoint's last entry.
    ///
    /// `LogFull` comes exactly where the log has as many entries as its limit, and `NoMemory` only where it has fewer and there is
    /// none for one more entry. Then the endpoint is as it was, and keeps room that it had.
    pub fn want(&mut self, floor: u64, actor: Actor) -> Result<Entry, EndFault>
        requires place { is_on_disk (state_after self.old).head.place ≡ true }
        requires floor { floor + 1 < 2 ^ 64 }
        requires last { last_stamp self.old.log + 1 < 2 ^ 64 }
        ensures event { IfOk result (λ x. x.event ≡ Event.Want actor self.old.settings.id) }
        ensures outcome { IfOk result (λ x. x.outcome ≡ Outcome.Silent) }
        ensures stamp { IfOk result (λ x. x.stamp ≡ 1 + max floor (last_stamp self.old.log)) }
        ensures logged { IfOk result (λ x. self.new.log ≡ self.old.log ++ x ∷ []) }
        ensures settings { self.new.settings ≡ self.old.settings }
        ensures flights { self.new.flights ≡ self.old.flights }
        ensures full { (result ≡ Err EndFault.LogFull) ↔ (length self.old.log ≡ self.old.settings.log) }
        ensures starved { (result ≡ Err EndFault.NoMemory) → (length self.old.log < self.old.settings.log) }
        ensures err { OnErr result (self.new.log ≡ self.old.log) }
        ensures kept { OnErr result (self.new.ready ≡ self.old.ready) }
        ensures same { (state_after self.new).body ≡ (state_after self.old).body }
    {
        self.room()?;
        let entry = Entry {
            stamp: self.next_stamp(floor),
            event: Event::Want {
                actor,
                end: self.settings.id,
            },
            outcome: Outcome::Silent,
        };
        self.note(entry, true);
        Ok(entry)
    }

    /// Its front message is bound to a channel, and is in flight. Tells its slot, which is its own until it is settled.
    pub fn take(&mut self, entry: Entry) -> Slot
        requires ready { self.old.ready ≡ true }
        requires room { length self.old.log < self.old.settings.log }
        requires allowed { MayBind self.old.settings.node self.old.settings.id (state_after self.old) entry }
        ensures settings { self.new.settings ≡ self.old.settings }
        ensures log { self.new.log ≡ self.old.log ++ entry ∷ [] }
        ensures flights { self.new.flights ≡ self.old.flights ++ result.0 ∷ [] }
    {
        let HeldEndpoint::Here(fields) = &mut self.held else {
            unreachable!()
        };
        let slot = fields.fly_front();
        self.log.push_reserved(entry);
        slot
    }

    /// A message that it has in flight is delivered, requeued, returned or unknown, by an answer that counts or a time-out
    /// that gives up. The slot is that of the first message in flight with the serial that the entry names.
    pub fn settle(&mut self, entry: Entry, slot: Slot)
        requires ready { self.old.ready ≡ true }
        requires room { length self.old.log < self.old.settings.log }
        requires allowed { MaySettle self.old.settings.bounces self.old.settings.id (state_after self.old) entry }
        requires slot { IsSlotOf (settled_in entry.event entry.outcome) (state_after self.old).body.in_flight self.old.flights slot.0 }
        ensures settings { self.new.settings ≡ self.old.settings }
        ensures log { self.new.log ≡ self.old.log ++ entry ∷ [] }
        ensures flights { self.new.flights ≡ without slot.0 self.old.flights }
    {
        let end = self.settings.id;
        let HeldEndpoint::Here(fields) = &mut self.held else {
            unreachable!()
        };
        fields.settle(end, &entry, slot);
        self.log.push_reserved(entry);
    }

    /// It binds no more messages, and still receives.
    pub fn begin_drain(&mut self, entry: Entry)
        requires ready { self.old.ready ≡ true }
        requires room { length self.old.log < self.old.settings.log }
        requires allowed { MayDrain self.old.settings.node self.old.settings.id (state_after self.old) entry }
        ensures settings { self.new.settings ≡ self.old.settings }
        ensures log { self.new.log ≡ self.old.log ++ entry ∷ [] }
        ensures flights { self.new.flights ≡ self.old.flights }
    {
        self.enter(&entry);
    }

    /// It leaves its frame for the host.
    pub fn unload(&mut self, entry: Entry)
        requires ready { self.old.ready ≡ true }
        requires room { length self.old.log < self.old.settings.log }
        requires allowed { MayUnload self.old.settings.node self.old.settings.id (state_after self.old) entry }
        ensures settings { self.new.settings ≡ self.old.settings }
        ensures log { self.new.log ≡ self.old.log ++ entry ∷ [] }
        ensures flights { self.new.flights ≡ self.old.flights }
    {
        self.enter(&entry);
    }

    /// It comes from the host into a frame, neither wanted nor draining.
    pub fn load(&mut self, entry: Entry)
        requires ready { self.old.ready ≡ true }
        requires room { length self.old.log < self.old.settings.log }
        requires allowed { MayLoad self.old.settings.node self.old.settings.id (state_after self.old) entry }
        ensures settings { self.new.settings ≡ self.old.settings }
        ensures log { self.new.log ≡ self.old.log ++ entry ∷ [] }
        ensures flights { self.new.flights ≡ self.old.flights }
    {
        self.enter(&entry);
    }

    /// It goes to disk, and its body is given away.
    fn give_away(&mut self, entry: Entry) -> Body
        requires ready { self.old.ready ≡ true }
        requires room { length self.old.log < self.old.settings.log }
        requires allowed { MayPageOut self.old.settings.node self.old.settings.id (state_after self.old) entry }
        requires done { entry.outcome ≡ Outcome.Done }
        ensures body { result ≡ record { pool = self.old.settings.pool; body = (state_after self.old).body; flights = self.old.flights } }
        ensures settings { self.new.settings ≡ self.old.settings }
        ensures log { self.new.log ≡ self.old.log ++ entry ∷ [] }
        ensures flights { self.new.flights ≡ [] }
        ensures same { (state_after self.new).body ≡ (state_after self.old).body }
    {
        let head = self.fields().head_away();
        let HeldEndpoint::Here(fields) = replace(&mut self.held, HeldEndpoint::OnDisk(head)) else {
            unreachable!()
        };
        self.log.push_reserved(entry);
        fields.body
    }

    /// It goes from the host to disk where the entry's outcome is done, and its body is given away: it is the one that it
    /// has, with all its messages, records and mappings, and stays the one that the log's replay gives. Where the outcome is
    /// failed it stays as it was, and None is given.
    pub fn page_out(&mut self, entry: Entry) -> Option<Body>
        requires ready { self.old.ready ≡ true }
        requires room { length self.old.log < self.old.settings.log }
        requires allowed { MayPageOut self.old.settings.node self.old.settings.id (state_after self.old) entry }
        ensures body { IfSome result (λ body. body ≡ record { pool = self.old.settings.pool; body = (state_after self.old).body; flights = self.old.flights }) }
        ensures none { (result ≡ None) ↔ (entry.outcome ≡ Outcome.Failed) }
        ensures settings { self.new.settings ≡ self.old.settings }
        ensures log { self.new.log ≡ self.old.log ++ entry ∷ [] }
        ensures flights { MatchOption result (self.new.flights ≡ self.old.flights) (λ body. self.new.flights ≡ []) }
        ensures same { (state_after self.new).body ≡ (state_after self.old).body }
    {
        match entry.outcome {
            Outcome::Done => Some(self.give_away(entry)),
            Outcome::Failed => {
                let wanted = self.wanted();
                self.note(entry, wanted);
                None
            }
            _ => unreachable!(),
        }
    }

    /// It comes from disk to the host, with this body. The body is the one that the log's replay gives: what `page_out` gave
    /// away, or on a fresh endpoint `Body::opening`.
    pub fn page_in(&mut self, entry: Entry, body: Body)
        requires ready { self.old.ready ≡ true }
        requires room { length self.old.log < self.old.settings.log }
        requires allowed { MayPageIn Outcome.Done self.old.settings.node self.old.settings.id (state_after self.old) entry }
        requires body { body ≡ record { pool = self.old.settings.pool; body = (state_after self.old).body; flights = body.flights } }
        ensures settings { self.new.settings ≡ self.old.settings }
        ensures log { self.new.log ≡ self.old.log ++ entry ∷ [] }
        ensures flights { self.new.flights ≡ body.flights }
    {
        let head = Head {
            place: Place::Host,
            ..self.head()
        };
        self.held = HeldEndpoint::Here(Fields { head, body });
        self.log.push_reserved(entry);
    }

    /// Logs that it was not paged in. Its body, which is elsewhere, stays what it is.
    pub fn page_failed(&mut self, entry: Entry)
        requires ready { self.old.ready ≡ true }
        requires room { length self.old.log < self.old.settings.log }
        requires allowed { MayPageIn Outcome.Failed self.old.settings.node self.old.settings.id (state_after self.old) entry }
        ensures settings { self.new.settings ≡ self.old.settings }
        ensures log { self.new.log ≡ self.old.log ++ entry ∷ [] }
        ensures flights { self.new.flights ≡ self.old.flights }
        ensures same { (state_after self.new).body ≡ (state_after self.old).body }
    {
        let wanted = self.wanted();
        self.note(entry, wanted);
    }
}

/// Whether a message was refused because its destination is not resident.
fn is_kept_out(outcome: Outcome) -> bool
    ensures { result ≡ is_kept_out outcome }
{
    match outcome {
        Outcome::Received {
            result: Received::Refused {
                cause: Cause::NotResident,
                ..
            },
            ..
        } => true,
        _ => false,
    }
}
