//! Binds of an endpoint's front message to a channel.

ghost use Rattle.am_block.specs.declared.Slot.{Slot};
ghost use Rattle.am_channel.specs.Calls as Calls;
ghost use Rattle.am_channel.specs.Calls.{after};
ghost use Rattle.am_channel.specs.Counted.{AreCounted};
ghost use Rattle.am_endpoint.specs.View.{state_after};
ghost use Rattle.am_iface.specs.View.{own};
ghost use Rattle.am_iface.specs.Made.{IsMade};
ghost use Rattle.am_iface.specs.Ways.{IsWay, missing_channel};
ghost use Rattle.am_iface.specs.With.{IsFullOf, IsHomeKnown, TurnsWith};
ghost use Rattle.am_model_parts.specs.Interface.{channel_in, channel_of_front, failing_at, home_in};
ghost use Rattle.am_model_parts.specs.declared.work.Work.TheVariants as Works;
ghost use Rattle.am_model.specs.Allowed.{MayBind};
ghost use Rattle.am_model.specs.Endpoint.{front, is_direct};
ghost use Rattle.am_model.specs.History.{free_from};
ghost use Rattle.am_office_entries.specs.declared.Condition.{Condition};
ghost use Rattle.am_office_entries.specs.declared.Part.{Part};
ghost use Rattle.std.specs.Prelude.{◌≡◌, ◌≢◌, ◌↔◌, ◌-◌, ◌<◌, ◌^◌, ℕ, [], ◌∷◌, ◌++◌, Err, None, Some, false, IfOk, IfSome, IsNone, OnErr, OnOk};
ghost use Rattle.std.specs.Result.{result_err};

use crate::by_ends::{bind, first_try};
use crate::entries::{bind_entry, sent};
use crate::with::make_room;
use crate::{Interface, write};
use am_channel::Ends;
use am_endpoint::Endpoint;
use am_model::{EntryFault, Queued, is_resident};
use am_names::{EndpointId, Message, NodeId};
use am_office_entries::{Condition, Entry, Part};

/// A message that is to be bound, the node where it goes, and the channel to it that is free.
#[derive(Drop)]
pub(crate) struct Way {
    queued: Queued,
    peer: NodeId,
    channel: u8,
}

impl Interface {
    /// The node of an endpoint, if it is declared.
    pub fn home(&self, end: EndpointId) -> Option<NodeId>
        ensures home { result ≡ home_in (own self.now) end }
        ensures within { IfSome result (λ node. node.0 < self.now.settings.nodes) }
    {
        self.homes[end.0 as usize]
    }

    /// The lowest free channel to a peer, if one is free.
    fn free_channel(&self, peer: NodeId) -> Option<u8>
        requires { peer.0 < self.now.settings.nodes }
        ensures { result ≡ free_from self.now.settings.node peer self.now.log 0 self.now.settings.channels }
    {
        let channels = self.channels();
        for channel in 0..channels {
            if self.bound(peer, channel).is_none() {
                return Some(channel);
            }
        }
        None
    }

    /// The front message of an endpoint with the lowest free channel to its destination's node, or the first condition that keeps
    /// it from being bound.
    pub(crate) fn way(&self, endpoint: &Endpoint) -> Result<Way, Condition>
        requires { IsHomeKnown (own self.now) (front (state_after endpoint.now)) }
        ensures fault { result_err result ≡ failing_at (own self.now) (state_after endpoint.now) (Works.Bind endpoint.now.settings.id) }
        ensures way { IfOk result (λ way. IsWay self.now (front (state_after endpoint.now)) way) }
    {
        if self.home(endpoint.id()) != Some(self.node()) {
            return Err(Condition::OtherNode);
        }
        if !is_resident(endpoint.place()) {
            return Err(Condition::NotResident);
        }
        if endpoint.draining() {
            return Err(Condition::Draining);
        }
        match endpoint.front() {
            Some(queued) => self.way_of(queued),
            None => Err(Condition::NoMessage),
        }
    }

    /// A queued message with the lowest free channel to its destination's node.
    fn way_of(&self, queued: Queued) -> Result<Way, Condition>
        requires { IsHomeKnown (own self.now) (Some queued) }
        ensures fault { result_err result ≡ missing_channel (channel_of_front (own self.now) (Some queued)) }
        ensures way { IfOk result (λ way. IsWay self.now (Some queued) way) }
    {
        match self.home(queued.message.dest) {
            Some(peer) => match self.free_channel(peer) {
                Some(channel) => Ok(Way {
                    queued,
                    peer,
                    channel,
                }),
                None => Err(Condition::NoChannel),
            },
            None => unreachable!(),
        }
    }

    /// Both ends of the lowest free channel to a peer. The sending end is idle, and was bound at most as often as the log
    /// has entries.
    fn free_ends(&self, peer: NodeId, channel: u8) -> Ends
        requires peer { peer.0 < self.now.settings.nodes }
        requires free { free_from self.now.settings.node peer self.now.log 0 self.now.settings.channels ≡ Some channel }
        ensures counted { AreCounted (channel_in (own self.now) peer channel) self.now.log result }
        ensures idle { IsNone result.sending.bound }
        ensures room { result.sending.seq < 2 ^ 32 - 1 }
        ensures within { channel < self.now.settings.channels }
    {
        self.ends[4 * peer.0 as usize + channel as usize]
    }

    /// Logs the entry of a bind here and in the endpoint, once there is room for it in both logs. The channel keeps the slot
    /// that the message has in flight.
    fn enter_bound(
        &mut self,
        peer: NodeId,
        channel: u8,
        idle: Ends,
        message: Message,
        entry: &Entry,
        endpoint: &mut Endpoint,
    ) -> Result<(), EntryFault>
        requires peer { peer.0 < self.old.settings.nodes }
        requires channel { channel < self.old.settings.channels }
        requires idle { IsNone idle.sending.bound }
        requires sequence { idle.sending.seq < 2 ^ 32 - 1 }
        requires made { (slot : Slot) → IsMade (channel_in (own self.old) peer channel) self.old.log (after idle (Calls.Bind message slot)) entry.now }
        requires allowed { MayBind endpoint.old.settings.node endpoint.old.settings.id (state_after endpoint.old) entry.now }
        ensures logged { OnOk result (self.new ≡ record self.old { log = self.old.log ++ entry.now ∷ [] }) }
        ensures there { OnOk result (endpoint.new.log ≡ endpoint.old.log ++ entry.now ∷ []) }
        ensures flights { OnOk result ((slot : ℕ) × (endpoint.new.flights ≡ endpoint.old.flights ++ slot ∷ [])) }
        ensures settings { endpoint.new.settings ≡ endpoint.old.settings }
        ensures enabled { (c : Condition) → result ≢ Err (EntryFault.NotEnabled c) }
        ensures full { (p : Part) → (result ≡ Err (EntryFault.LogFull p)) ↔ IsFullOf self.old endpoint.old p }
        ensures err { OnErr result (self.new ≡ self.old) }
        ensures err_there { OnErr result (endpoint.new.log ≡ endpoint.old.log) }
        ensures err_flights { OnErr result (endpoint.new.flights ≡ endpoint.old.flights) }
        ensures kept { OnErr result (endpoint.new.ready ≡ endpoint.old.ready) }
    {
        if let Err(fault) = self.limits_with(endpoint) {
            return Err(fault);
        }
        if make_room(&mut self.log, endpoint).is_err() {
            return Err(EntryFault::NoMemory);
        }
        let mut ends = idle;
        bind(&mut ends, message, endpoint.take(*entry));
        write(
            &mut self.ends,
            &mut self.emissions,
            &mut self.log,
            peer,
            channel,
            &ends,
            entry,
        );
        Ok(())
    }

    /// Binds the front message, which nothing keeps from being bound, to the channel of its way.
    fn bind_to(&mut self, stamp: u64, way: &Way, endpoint: &mut Endpoint) -> Result<(), EntryFault>
        requires enabled { failing_at (own self.old) (state_after endpoint.old) (Works.Bind endpoint.old.settings.id) ≡ None }
        requires at { home_in (own self.old) endpoint.old.settings.id ≡ Some endpoint.old.settings.node }
        requires packet { is_direct (state_after endpoint.old).head.place ≡ false }
        requires way { IsWay self.old (front (state_after endpoint.old)) way.now }
        ensures { TurnsWith self.old self.new endpoint.old endpoint.new stamp (Works.Bind endpoint.old.settings.id) result }
    {
        let ends = self.free_ends(way.peer, way.channel);
        let numbers = first_try(&ends);
        let number = self.next_number(way.peer);
        let message = way.queued.message;
        let outcome = sent(message, way.peer, way.channel, numbers, number);
        let entry = bind_entry(self.node(), stamp, endpoint.id(), outcome);
        self.enter_bound(way.peer, way.channel, ends, message, &entry, endpoint)
    }

    /// Binds the front message, if it can be bound.
    pub(crate) fn bind_with(
        &mut self,
        stamp: u64,
        endpoint: &mut Endpoint,
    ) -> Result<(), EntryFault>
        requires at { home_in (own self.old) endpoint.old.settings.id ≡ Some endpoint.old.settings.node }
        requires packet { is_direct (state_after endpoint.old).head.place ≡ false }
        requires known { IsHomeKnown (own self.old) (front (state_after endpoint.old)) }
        ensures { TurnsWith self.old self.new endpoint.old endpoint.new stamp (Works.Bind endpoint.old.settings.id) result }
    {
        match self.way(endpoint) {
            Err(why) => Err(EntryFault::NotEnabled(why)),
            Ok(way) => self.bind_to(stamp, &way, endpoint),
        }
    }
}
