//! Turns that touch an endpoint.

ghost use Rattle.am_model.specs.Changes.{settled_in};
ghost use Rattle.am_endpoint.specs.View.{state_after};
ghost use Rattle.am_iface.specs.Made.{IsMade};
ghost use Rattle.am_iface.specs.View.{FitsAnswer, FitsInterface, FitsParcel, IsChannelOf, own};
ghost use Rattle.am_iface.specs.With.{IsFlightOf, IsFullOf, KnowsHome, Lands, TurnsWith};
ghost use Rattle.am_model_parts.specs.Granted.{FitsEndpoint, IsInFlight};
ghost use Rattle.am_model_parts.specs.Interface.{channel_in, home_in, needs};
ghost use Rattle.am_model.specs.Allowed.{MaySettle};
ghost use Rattle.am_model.specs.Channels.{bound_message};
ghost use Rattle.am_model.specs.Endpoint.{is_direct};
ghost use Rattle.am_model.specs.History.{settle_by};
ghost use Rattle.am_model_parts.specs.declared.work.Work.TheVariants as Works;
ghost use Rattle.am_names.specs.declared.Packet.TheVariants as Packets;
ghost use Rattle.am_office_entries.specs.declared.Condition.{Condition};
ghost use Rattle.am_office_entries.specs.declared.Part.{Part};
ghost use Rattle.std.specs.Prelude.{◌≡◌, ◌≢◌, ◌↔◌, ◌<◌, Err, Some, [], ◌∷◌, ◌++◌, false, true, length, IsSome, OnErr, OnOk, vec_capacity, vec_len};

use crate::by_ends::{answer, decide, time_out};
use crate::entries::{answer_receipt, decided, give_up, parcel_receipt, settled_by};
use crate::{Interface, write};
use am_channel::{Ends, Settled, TimedOut};
use am_endpoint::Endpoint;
use am_model::{EntryFault, Flying};
use am_model_parts::work::Work;
use am_names::{AnswerPacket, Message, NodeId, Packet, Parcel, Serial, Verdict};
use am_office_entries::{Entry, Event, NoMemory, Outcome, Part, growth};

impl Interface {
    /// Whether both logs have room for one more entry: `LogFull` names the endpoint's where it is full, and else the
    /// interface's.
    pub(crate) fn limits_with(&self, endpoint: &Endpoint) -> Result<(), EntryFault>
        ensures there { OnOk result (length endpoint.now.log < endpoint.now.settings.log) }
        ensures here { OnOk result (length self.now.log < self.now.settings.log) }
        ensures enabled { (c : Condition) → result ≢ Err (EntryFault.NotEnabled c) }
        ensures full { (p : Part) → (result ≡ Err (EntryFault.LogFull p)) ↔ IsFullOf self.now endpoint.now p }
    {
        if endpoint.is_full() {
            return Err(EntryFault::LogFull(Part::Endpoint(endpoint.id())));
        }
        if self.is_full() {
            return Err(EntryFault::LogFull(Part::Interface(self.node())));
        }
        Ok(())
    }

    /// Logs the entry of a call on a channel, which leaves these ends, once there is room for it in both logs. The endpoint
    /// is as it was, and ready for the entry; where it isn't logged, no room is lost.
    pub(crate) fn enter_with(
        &mut self,
        peer: NodeId,
        channel: u8,
        ends: &Ends,
        entry: &Entry,
        endpoint: &mut Endpoint,
    ) -> Result<(), EntryFault>
        requires peer { peer.0 < self.old.settings.nodes }
        requires channel { channel < self.old.settings.channels }
        requires made { IsMade (channel_in (own self.old) peer channel) self.old.log ends.now entry.now }
        ensures logged { OnOk result (self.new ≡ record self.old { log = self.old.log ++ entry.now ∷ [] }) }
        ensures ready { OnOk result (endpoint.new.ready ≡ true) }
        ensures there { OnOk result (length endpoint.new.log < endpoint.new.settings.log) }
        ensures settings { endpoint.new.settings ≡ endpoint.old.settings }
        ensures log { endpoint.new.log ≡ endpoint.old.log }
        ensures flights { endpoint.new.flights ≡ endpoint.old.flights }
        ensures enabled { (c : Condition) → result ≢ Err (EntryFault.NotEnabled c) }
        ensures full { (p : Part) → (result ≡ Err (EntryFault.LogFull p)) ↔ IsFullOf self.old endpoint.old p }
        ensures err { OnErr result (self.new ≡ self.old) }
        ensures kept { OnErr result (endpoint.new.ready ≡ endpoint.old.ready) }
    {
        if let Err(fault) = self.limits_with(endpoint) {
            return Err(fault);
        }
        if make_room(&mut self.log, endpoint).is_err() {
            return Err(EntryFault::NoMemory);
        }
        write(
            &mut self.ends,
            &mut self.emissions,
            &mut self.log,
            peer,
            channel,
            ends,
            entry,
        );
        Ok(())
    }

    /// Receives a fresh parcel, which gets its destination's verdict.
    fn receive_fresh(
        &mut self,
        stamp: u64,
        p: &Parcel,
        endpoint: &mut Endpoint,
    ) -> Result<(), EntryFault>
        requires fits { FitsParcel self.old.settings p.now }
        requires needs { needs (own self.old) (Works.Receive (Packets.Parcel p.now)) ≡ Some endpoint.old.settings.id }
        requires packet { is_direct (state_after endpoint.old).head.place ≡ false }
        ensures { TurnsWith self.old self.new endpoint.old endpoint.new stamp (Works.Receive (Packets.Parcel p.now)) result }
    {
        let verdict = endpoint.verdict(&p.message);
        let mut ends = self.ends(p.from, p.channel);
        decide(&mut ends, p, verdict);
        let came = decided(p.message, self.next_number(p.from), verdict);
        let entry = parcel_receipt(self.node(), stamp, p, came);
        match self.enter_with(p.from, p.channel, &ends, &entry, endpoint) {
            Ok(()) => {
                endpoint.put(entry);
                Ok(())
            }
            Err(fault) => Err(fault),
        }
    }

    /// The receipt of an answer with this verdict on a message, which is this flight of its source.
    fn settling_entry(
        &self,
        stamp: u64,
        p: &AnswerPacket,
        message: Message,
        flight: &Flying,
        verdict: Verdict,
    ) -> Entry
        ensures { result ≡ record { stamp = stamp; event = Event.Receive self.now.settings.node p.now.from p.now.number; outcome = Outcome.Received p.now.channel p.now.seq p.now.attempt (settle_by self.now.settings.bounces message flight.now.bounces verdict) } }
    {
        let came = settled_by(self.bounces(), message, flight.bounces, verdict);
        answer_receipt(self.node(), stamp, p, came)
    }

    /// Receives an answer that settles the bound message, which is this flight of its source.
    fn receive_settling(
        &mut self,
        stamp: u64,
        p: &AnswerPacket,
        flight: &Flying,
        endpoint: &mut Endpoint,
    ) -> Result<(), EntryFault>
        requires fits { FitsAnswer self.old.settings p.now }
        requires needs { needs (own self.old) (Works.Receive (Packets.Answer p.now)) ≡ Some endpoint.old.settings.id }
        requires packet { is_direct (state_after endpoint.old).head.place ≡ false }
        requires bounces { endpoint.old.settings.bounces ≡ self.old.settings.bounces }
        requires flight { IsFlightOf (state_after endpoint.old) (bound_message (channel_in (own self.old) p.now.from p.now.channel) self.old.log) flight.now }
        ensures { TurnsWith self.old self.new endpoint.old endpoint.new stamp (Works.Receive (Packets.Answer p.now)) result }
    {
        let mut ends = self.ends(p.from, p.channel);
        let Settled::Done(bound, verdict) = answer(&mut ends, p) else {
            unreachable!()
        };
        let entry = self.settling_entry(stamp, p, bound.message, flight, verdict);
        match self.enter_with(p.from, p.channel, &ends, &entry, endpoint) {
            Ok(()) => {
                settle(endpoint, bound.message.serial, &entry);
                Ok(())
            }
            Err(fault) => Err(fault),
        }
    }

    /// Lets a channel time out that has no try left, whose bound message is this flight of its source.
    fn expire_with(
        &mut self,
        stamp: u64,
        peer: NodeId,
        channel: u8,
        flight: &Flying,
        endpoint: &mut Endpoint,
    ) -> Result<(), EntryFault>
        requires on { IsChannelOf self.old.settings peer channel }
        requires needs { needs (own self.old) (Works.Expire peer channel) ≡ Some endpoint.old.settings.id }
        requires packet { is_direct (state_after endpoint.old).head.place ≡ false }
        requires bounces { endpoint.old.settings.bounces ≡ self.old.settings.bounces }
        requires flight { IsFlightOf (state_after endpoint.old) (bound_message (channel_in (own self.old) peer channel) self.old.log) flight.now }
        ensures { TurnsWith self.old self.new endpoint.old endpoint.new stamp (Works.Expire peer channel) result }
    {
        let mut ends = self.ends(peer, channel);
        let Some(bound) = ends.sending.busy() else {
            unreachable!()
        };
        let TimedOut::GaveUp(_) = time_out(&mut ends, self.tries()) else {
            unreachable!()
        };
        let entry = give_up(
            self.node(),
            stamp,
            peer,
            channel,
            bound.message,
            flight.answered,
        );
        match self.enter_with(peer, channel, &ends, &entry, endpoint) {
            Ok(()) => {
                settle(endpoint, bound.message.serial, &entry);
                Ok(())
            }
            Err(fault) => Err(fault),
        }
    }

    /// The flight of a channel's bound message at its source.
    fn flight(&self, peer: NodeId, channel: u8, endpoint: &Endpoint) -> Flying
        requires on { IsChannelOf self.now.settings peer channel }
        requires bound { IsSome (bound_message (channel_in (own self.now) peer channel) self.now.log) }
        requires flies { IsInFlight (state_after endpoint.now) (bound_message (channel_in (own self.now) peer channel) self.now.log) }
        ensures { IsFlightOf (state_after endpoint.now) (bound_message (channel_in (own self.now) peer channel) self.now.log) result }
    {
        let Some(bound) = self.bound(peer, channel) else {
            unreachable!()
        };
        let Some(flight) = endpoint.flight(bound.message.serial) else {
            unreachable!()
        };
        flight
    }

    /// Receives an answer that settles the bound message.
    fn receive_answer(
        &mut self,
        stamp: u64,
        p: &AnswerPacket,
        endpoint: &mut Endpoint,
    ) -> Result<(), EntryFault>
        requires fits { FitsAnswer self.old.settings p.now }
        requires needs { needs (own self.old) (Works.Receive (Packets.Answer p.now)) ≡ Some endpoint.old.settings.id }
        requires packet { is_direct (state_after endpoint.old).head.place ≡ false }
        requires bounces { endpoint.old.settings.bounces ≡ self.old.settings.bounces }
        requires flies { IsInFlight (state_after endpoint.old) (bound_message (channel_in (own self.old) p.now.from p.now.channel) self.old.log) }
        ensures { TurnsWith self.old self.new endpoint.old endpoint.new stamp (Works.Receive (Packets.Answer p.now)) result }
    {
        let flight = self.flight(p.from, p.channel, endpoint);
        self.receive_settling(stamp, p, &flight, endpoint)
    }

    /// Receives a packet that touches an endpoint.
    fn receive_with(
        &mut self,
        stamp: u64,
        packet: &Packet,
        endpoint: &mut Endpoint,
    ) -> Result<(), EntryFault>
        requires fits { FitsInterface self.old (Works.Receive packet.now) }
        requires needs { needs (own self.old) (Works.Receive packet.now) ≡ Some endpoint.old.settings.id }
        requires packet { is_direct (state_after endpoint.old).head.place ≡ false }
        requires bounces { endpoint.old.settings.bounces ≡ self.old.settings.bounces }
        requires flies { FitsEndpoint (own self.old) (state_after endpoint.old) (Works.Receive packet.now) }
        ensures { TurnsWith self.old self.new endpoint.old endpoint.new stamp (Works.Receive packet.now) result }
    {
        match packet {
            Packet::Parcel(p) => self.receive_fresh(stamp, p, endpoint),
            Packet::Answer(p) => self.receive_answer(stamp, p, endpoint),
        }
    }

    /// Lets a channel time out that has no try left.
    fn give_up_with(
        &mut self,
        stamp: u64,
        peer: NodeId,
        channel: u8,
        endpoint: &mut Endpoint,
    ) -> Result<(), EntryFault>
        requires on { IsChannelOf self.old.settings peer channel }
        requires needs { needs (own self.old) (Works.Expire peer channel) ≡ Some endpoint.old.settings.id }
        requires packet { is_direct (state_after endpoint.old).head.place ≡ false }
        requires bounces { endpoint.old.settings.bounces ≡ self.old.settings.bounces }
        requires flies { IsInFlight (state_after endpoint.old) (bound_message (channel_in (own self.old) peer channel) self.old.log) }
        ensures { TurnsWith self.old self.new endpoint.old endpoint.new stamp (Works.Expire peer channel) result }
    {
        let flight = self.flight(peer, channel, endpoint);
        self.expire_with(stamp, peer, channel, &flight, endpoint)
    }

    /// Does a work that touches this endpoint.
    pub(crate) fn work_with(
        &mut self,
        stamp: u64,
        work: &Work,
        endpoint: &mut Endpoint,
    ) -> Result<(), EntryFault>
        requires fits { FitsInterface self.old work.now }
        requires needs { needs (own self.old) work.now ≡ Some endpoint.old.settings.id }
        requires at { home_in (own self.old) endpoint.old.settings.id ≡ Some endpoint.old.settings.node }
        requires packet { is_direct (state_after endpoint.old).head.place ≡ false }
        requires bounces { endpoint.old.settings.bounces ≡ self.old.settings.bounces }
        requires known { KnowsHome (own self.old) (state_after endpoint.old) work.now }
        requires flies { FitsEndpoint (own self.old) (state_after endpoint.old) work.now }
        ensures { TurnsWith self.old self.new endpoint.old endpoint.new stamp work.now result }
    {
        match work {
            Work::Receive(packet) => self.receive_with(stamp, packet, endpoint),
            Work::Bind(_) => self.bind_with(stamp, endpoint),
            Work::Expire { peer, channel } => self.give_up_with(stamp, *peer, *channel, endpoint),
        }
    }
}

/// Makes room for one more entry in both logs. Where it doesn't, the endpoint's loses no room.
pub(crate) fn make_room(log: &mut Vec<Entry>, endpoint: &mut Endpoint) -> Result<(), NoMemory>
    ensures same { log.new.items ≡ log.old.items }
    ensures spare { OnOk result (vec_len log.new < vec_capacity log.new) }
    ensures ready { OnOk result (endpoint.new.ready ≡ true) }
    ensures there { OnOk result (length endpoint.new.log < endpoint.new.settings.log) }
    ensures settings { endpoint.new.settings ≡ endpoint.old.settings }
    ensures log { endpoint.new.log ≡ endpoint.old.log }
    ensures flights { endpoint.new.flights ≡ endpoint.old.flights }
    ensures kept { OnErr result (endpoint.new.ready ≡ endpoint.old.ready) }
{
    if log.reserve(growth(log)).is_err() {
        return Err(NoMemory);
    }
    match endpoint.room() {
        Ok(()) => Ok(()),
        Err(_) => Err(NoMemory),
    }
}

/// The message in flight with this serial is settled or given up, by this entry.
fn settle(endpoint: &mut Endpoint, serial: Serial, entry: &Entry)
    requires ready { endpoint.old.ready ≡ true }
    requires room { length endpoint.old.log < endpoint.old.settings.log }
    requires allowed { MaySettle endpoint.old.settings.bounces endpoint.old.settings.id (state_after endpoint.old) entry.now }
    requires serial { settled_in entry.now.event entry.now.outcome ≡ Some serial }
    ensures settings { endpoint.new.settings ≡ endpoint.old.settings }
    ensures log { endpoint.new.log ≡ endpoint.old.log ++ entry.now ∷ [] }
    ensures flights { Lands entry.now endpoint.old endpoint.new }
{
    let Some(slot) = endpoint.flight_slot(serial) else {
        unreachable!()
    };
    endpoint.settle(*entry, slot);
}
