//! The interface of a node: it binds messages to channels, sends them again, answers those that arrive and settles those
//! that are answered, each by one entry of its log.
#![tactic(auto)]

ghost use Rattle.am_iface.specs.Settings.{AreLawful};
ghost use Rattle.am_endpoint.specs.View.{state_after};
ghost use Rattle.am_iface.specs.Turns.{HasRoom, IsFull, Turns, entry_by, stamp_after};
ghost use Rattle.am_iface.specs.View.{FitsAnswer, FitsInterface, FitsParcel, InterfaceView, IsChannelOf, own};
ghost use Rattle.am_model.specs.Parts.{last_stamp};
ghost use Rattle.am_iface.specs.With.{Flies, HasRoomWith, IsFullOf, KnowsHome};
ghost use Rattle.am_iface.specs.Touches.{EmitsNone, TouchesNone};
ghost use Rattle.am_channel.specs.declared.sending.Bound.{Bound};
ghost use Rattle.am_channel.specs.Counted.{AreCounted};
ghost use Rattle.am_model_parts.specs.Granted.{FitsEndpoint};
ghost use Rattle.am_model_parts.specs.Interface.{arrival_in, channel_in, emits_to, event_of, failing_at, home_in, needs, needs_arrival, outcome_at, stamp_in};
ghost use Rattle.am_model_parts.specs.declared.work.Work.TheVariants as Works;
ghost use Rattle.am_model.specs.Endpoint.{State, is_direct};
ghost use Rattle.am_model.specs.History.{is_bound, next_number};
ghost use Rattle.am_names.specs.declared.Packet.TheVariants as Packets;
ghost use Rattle.am_model.specs.Channels.{attempt, bound_message, emitted};
ghost use Rattle.std.specs.Option.{option_copied, option_map};
ghost use Rattle.am_iface.specs.Made.{IsMade};
ghost use Rattle.am_office_entries.specs.Entries as does;
ghost use Rattle.am_office_entries.specs.Entries.{emitted_of};
ghost use Rattle.am_office_entries.specs.declared.Entry.{Entry};
ghost use Rattle.am_office_entries.specs.declared.Condition.{Condition};
ghost use Rattle.am_office_entries.specs.declared.Part.{Part};
ghost use Rattle.std.specs.Prelude.{◌≡◌, ◌≢◌, ◌↔◌, ◌+◌, ◌-◌, ◌*◌, ◌<◌, ◌≤◌, ◌^◌, IsTrue, cond, false, max, None, Some, [], ◌∷◌, ◌++◌, length, IfOk, IfSome, List, OnOk, OnErr, Err, get_or, is_some, slice_get, slice_set, vec_capacity, vec_len};

mod binds;
mod by_ends;
mod entries;
mod opening;
mod packets;
mod refusals;
mod settings;
mod with;

use crate::by_ends::{
    emits_expiry, emits_parcel, needs_answer, needs_expiry, needs_parcel, time_out,
};
use crate::entries::{answer_receipt, parcel_receipt, repeat, resend};
use crate::opening::{no_emissions, unused_ends};
use crate::packets::emits;
pub use crate::packets::emitted_of;
pub use crate::refusals::refused_by;
pub use crate::settings::IfaceSettings;
use crate::settings::Limits;
pub use am_channel::Bound;
use am_channel::{Ends, TimedOut};
use am_endpoint::Endpoint;
pub use am_model::{EntryFault, EntryFault as IfaceFault};
pub use am_model_parts::work::Work;
use am_names::{AnswerPacket, EndpointId, NodeId, Packet, Parcel};
pub use am_office_entries::NoMemory;
use am_office_entries::{Condition, Entry, Part, Received, growth};
use std::alloc::Global;
use std::marker::Model;

/// What a turn did: its entry, and the packet that the entry emits, if it emits one.
#[derive(Clone, Copy, PartialEq, Eq)]
pub struct Turned {
    pub entry: Entry,
    pub out: Option<Packet>,
}

/// An interface with its log. Contracts see what it began with and its log. Its channels' ends, their slots aside, and the
/// numbers of the packets that it emitted are what the definitions count in the log.
#[derive(Drop)]
pub struct Interface {
    limits: Limits,
    homes: Vec<Option<NodeId>>,
    /// Four for each of 16 peers.
    ends: Vec<Ends>,
    /// How many packets went to each of 16 peers.
    emissions: Vec<u32>,
    log: Vec<Entry>,
}

impl Model for Interface {
    ghost use Rattle.am_iface.specs.View.{InterfaceView};

    ghost Value = { InterfaceView };

    ghost use Rattle.am_iface.specs.Kept.{view_of, IsCounted};

    ghost view = { view_of };

    ghost invariant = { IsCounted };
}

impl Interface {
    /// An interface with an empty log.
    pub fn new(alloc: Global, set: IfaceSettings) -> Result<Interface, NoMemory>
        requires { AreLawful set }
        ensures settings { IfOk result (λ i. i.settings ≡ set) }
        ensures log { IfOk result (λ i. i.log ≡ []) }
    {
        let ends = unused_ends(alloc)?;
        let emissions = no_emissions(alloc)?;
        Ok(Interface {
            limits: Limits {
                node: set.node,
                nodes: set.nodes,
                channels: set.channels,
                tries: set.tries,
                bounces: set.bounces,
                log: set.log,
            },
            homes: set.homes,
            ends,
            emissions,
            log: Vec::new(alloc),
        })
    }

    /// Whose it is.
    pub fn node(&self) -> NodeId
        ensures { result ≡ self.now.settings.node }
    {
        self.limits.node
    }

    /// A copy of what it began with, whose numbers are in range. `NoMemory` comes only where there is none for the copy.
    pub fn settings(&self, alloc: Global) -> Result<IfaceSettings, NoMemory>
        ensures settings { IfOk result (λ set. set ≡ self.now.settings) }
        ensures lawful { AreLawful self.now.settings }
    {
        Ok(IfaceSettings {
            node: self.limits.node,
            nodes: self.limits.nodes,
            channels: self.limits.channels,
            tries: self.limits.tries,
            bounces: self.limits.bounces,
            log: self.limits.log,
            homes: Vec::from_slice(alloc, &self.homes)?,
        })
    }

    /// The entries in order: at most as many as the settings' limit, which is 1 to 65536.
    pub fn log(&self) -> &[Entry]
        ensures log { result.now ≡ self.now.log }
        ensures few { length self.now.log ≤ self.now.settings.log }
        ensures limit { self.now.settings.log ≤ 65536 }
    {
        self.log.as_slice()
    }

    /// The stamp of the last entry, and 0 where there is none.
    pub fn last_stamp(&self) -> u64
        ensures { result ≡ last_stamp self.now.log }
    {
        match self.log.as_slice().last().copied() {
            None => 0,
            Some(entry) => entry.stamp,
        }
    }

    /// How many packets it emitted to a peer.
    pub fn emitted(&self, peer: NodeId) -> u32
        requires { peer.0 < self.now.settings.nodes }
        ensures { result ≡ length (emitted self.now.settings.node peer self.now.log) }
    {
        self.emissions[peer.0 as usize]
    }

    /// Whether its log has as many entries as it may.
    fn is_full(&self) -> bool
        ensures full { IsTrue result ↔ (length self.now.log ≡ self.now.settings.log) }
        ensures bounded { length self.now.log ≤ self.now.settings.log }
    {
        self.log.len() >= self.limits.log as usize
    }

    /// Both ends of a channel, where they are kept.
    fn kept_ends(&self, peer: NodeId, channel: u8) -> &Ends
        requires peer { peer.0 < self.now.settings.nodes }
        requires channel { channel < self.now.settings.channels }
        ensures { AreCounted (channel_in (own self.now) peer channel) self.now.log result.now }
    {
        &self.ends[4 * peer.0 as usize + channel as usize]
    }

    /// A copy of both ends of a channel.
    fn ends(&self, peer: NodeId, channel: u8) -> Ends
        requires peer { peer.0 < self.now.settings.nodes }
        requires channel { channel < self.now.settings.channels }
        ensures { AreCounted (channel_in (own self.now) peer channel) self.now.log result }
    {
        *self.kept_ends(peer, channel)
    }

    /// The message that is bound to the channel's sending end, the attempt of its last packet, and the slot that its source
    /// told as it was bound. None exactly where the end is idle. No clause speaks of the slot: a turn finds it at the source
    /// by the message's serial.
    pub fn bound(&self, peer: NodeId, channel: u8) -> Option<Bound>
        requires peer { peer.0 < self.now.settings.nodes }
        requires channel { channel < self.now.settings.channels }
        ensures message { option_map (λ (b : Bound). b.message) result ≡ bound_message (channel_in (own self.now) peer channel) self.now.log }
        ensures attempt { IfSome result (λ b. b.attempt ≡ attempt (channel_in (own self.now) peer channel) self.now.log) }
        ensures idle { (result ≡ None) ↔ (is_bound (channel_in (own self.now) peer channel) self.now.log ≡ false) }
    {
        self.kept_ends(peer, channel).sending.busy()
    }

    /// The endpoint that a work touches: the destination of a fresh parcel, the source of a bound message that settles or
    /// is given up, the endpoint of a bind, and none otherwise.
    pub fn needs(&self, work: &Work) -> Option<EndpointId>
        requires { FitsInterface self.now work.now }
        ensures value { result ≡ needs (own self.now) work.now }
        ensures none { (result ≡ None) ↔ TouchesNone (own self.now) work.now }
    {
        self.touched(work)
    }

    /// The endpoint that a work touches, by the ends of its channel.
    fn touched(&self, work: &Work) -> Option<EndpointId>
        requires { FitsInterface self.now work.now }
        ensures { result ≡ needs (own self.now) work.now }
    {
        match work {
            Work::Receive(Packet::Parcel(p)) => needs_parcel(self.kept_ends(p.from, p.channel), p),
            Work::Receive(Packet::Answer(p)) => needs_answer(self.kept_ends(p.from, p.channel), p),
            Work::Bind(end) => Some(*end),
            Work::Expire { peer, channel } => needs_expiry(
                self.kept_ends(*peer, *channel),
                self.limits.tries,
            ),
        }
    }

    /// The peer of the packet that the work's entry would emit, if the work can be done: the sender of a parcel that isn't
    /// stale, and the peer of a time-out with a try left. None exactly where the work is a bind, can't be done, or emits no
    /// packet.
    pub fn emits_to(&self, work: &Work) -> Option<NodeId>
        requires { FitsInterface self.now work.now }
        ensures value { result ≡ emits_to (own self.now) work.now }
        ensures none { (result ≡ None) ↔ EmitsNone (own self.now) work.now }
    {
        self.receiver(work)
    }

    /// The peer of the packet that the work's entry would emit, by the ends of its channel.
    fn receiver(&self, work: &Work) -> Option<NodeId>
        requires { FitsInterface self.now work.now }
        ensures { result ≡ emits_to (own self.now) work.now }
    {
        match work {
            Work::Receive(Packet::Parcel(p)) => emits_parcel(self.kept_ends(p.from, p.channel), p),
            Work::Receive(Packet::Answer(_)) => None,
            Work::Bind(_) => None,
            Work::Expire { peer, channel } => emits_expiry(
                self.kept_ends(*peer, *channel),
                self.limits.tries,
                *peer,
            ),
        }
    }

    /// Logs the entry of a call on a channel, which leaves these ends.
    fn enter(
        &mut self,
        peer: NodeId,
        channel: u8,
        ends: &Ends,
        entry: &Entry,
    ) -> Result<(), EntryFault>
        requires peer { peer.0 < self.old.settings.nodes }
        requires channel { channel < self.old.settings.channels }
        requires made { IsMade (channel_in (own self.old) peer channel) self.old.log ends.now entry.now }
        ensures logged { OnOk result (self.new ≡ record self.old { log = self.old.log ++ entry.now ∷ [] }) }
        ensures enabled { (c : Condition) → result ≢ Err (EntryFault.NotEnabled c) }
        ensures full { (p : Part) → (result ≡ Err (EntryFault.LogFull p)) ↔ ((p ≡ Part.Interface self.old.settings.node) × (length self.old.log ≡ self.old.settings.log)) }
        ensures err { OnErr result (self.new ≡ self.old) }
    {
        if self.log.len() >= self.limits.log as usize {
            return Err(EntryFault::LogFull(Part::Interface(self.limits.node)));
        }
        if self.log.reserve(growth(&self.log)).is_err() {
            return Err(EntryFault::NoMemory);
        }
        write(
            &mut self.ends,
            &mut self.emissions,
            &mut self.log,
            peer,
            channel,
            ends,
            entry,
        );
        Ok(())
    }

    /// How often a message may bounce.
    fn bounces(&self) -> u8
        ensures { result ≡ self.now.settings.bounces }
    {
        self.limits.bounces
    }

    /// The channels to each peer.
    fn channels(&self) -> u8
        ensures { result ≡ self.now.settings.channels }
    {
        self.limits.channels
    }

    /// The tries of a binding.
    fn tries(&self) -> u8
        ensures { result ≡ self.now.settings.tries }
    {
        self.limits.tries
    }

    /// The number of the next packet to a peer.
    fn next_number(&self, peer: NodeId) -> u32
        requires { peer.0 < self.now.settings.nodes }
        ensures { result ≡ next_number self.now.settings.node peer self.now.log }
    {
        self.emissions[peer.0 as usize] + 1
    }

    /// Receives a parcel that is stale or comes again.
    fn receive_again(&mut self, stamp: u64, p: &Parcel) -> Result<(), EntryFault>
        requires fits { FitsParcel self.old.settings p.now }
        requires known { needs_arrival p.now.message.dest (arrival_in (own self.old) p.now.from p.now.channel p.now.seq p.now.attempt) ≡ None }
        ensures { (s : State) → Turns self.old self.new s stamp (Works.Receive (Packets.Parcel p.now)) result }
    {
        let ends = self.ends(p.from, p.channel);
        let answer = self.next_number(p.from);
        let came = repeat(&ends, answer, p);
        let entry = parcel_receipt(self.node(), stamp, p, came);
        self.enter(p.from, p.channel, &ends, &entry)
    }

    /// Receives an answer that counts for nothing.
    fn receive_nothing(&mut self, stamp: u64, p: &AnswerPacket) -> Result<(), EntryFault>
        requires fits { FitsAnswer self.old.settings p.now }
        requires nothing { needs (own self.old) (Works.Receive (Packets.Answer p.now)) ≡ None }
        ensures { (s : State) → Turns self.old self.new s stamp (Works.Receive (Packets.Answer p.now)) result }
    {
        let ends = self.ends(p.from, p.channel);
        let entry = answer_receipt(self.node(), stamp, p, Received::Nothing);
        self.enter(p.from, p.channel, &ends, &entry)
    }

    /// The stamp of an entry that is made now.
    fn stamp_after(&self, floor: u64, work: &Work) -> u64
        requires floor { floor + 1 < 2 ^ 64 }
        requires last { last_stamp self.now.log + 1 < 2 ^ 64 }
        requires packet { stamp_in work.now + 1 < 2 ^ 64 }
        ensures { result ≡ stamp_after floor self.now.log work.now }
    {
        1 + floor.max(self.last_stamp()).max(work.stamp())
    }

    /// The stamp of an entry that is made now, here and at an endpoint.
    fn stamp_with(&self, floor: u64, work: &Work, endpoint: &Endpoint) -> u64
        requires floor { floor + 1 < 2 ^ 64 }
        requires last { last_stamp self.now.log + 1 < 2 ^ 64 }
        requires last_there { last_stamp endpoint.now.log + 1 < 2 ^ 64 }
        requires packet { stamp_in work.now + 1 < 2 ^ 64 }
        ensures { result ≡ stamp_after (max floor (last_stamp endpoint.now.log)) self.now.log work.now }
    {
        self.stamp_after(floor.max(endpoint.last_stamp()), work)
    }

    /// Lets a channel time out that is idle or has a try left.
    fn expire_alone(&mut self, stamp: u64, peer: NodeId, channel: u8) -> Result<(), EntryFault>
        requires on { IsChannelOf self.old.settings peer channel }
        requires alone { needs (own self.old) (Works.Expire peer channel) ≡ None }
        ensures { (s : State) → Turns self.old self.new s stamp (Works.Expire peer channel) result }
    {
        let mut ends = self.ends(peer, channel);
        let Some(bound) = ends.sending.busy() else {
            return Err(EntryFault::NotEnabled(Condition::Idle));
        };
        let number = self.next_number(peer);
        match time_out(&mut ends, self.tries()) {
            TimedOut::Resend(sent) => {
                let entry = resend(
                    self.node(),
                    stamp,
                    peer,
                    channel,
                    bound.message,
                    sent,
                    number,
                );
                self.enter(peer, channel, &ends, &entry)
            }
            TimedOut::GaveUp(_) => unreachable!(),
        }
    }

    /// Receives a packet that touches no endpoint.
    fn receive_alone(&mut self, stamp: u64, packet: &Packet) -> Result<(), EntryFault>
        requires fits { FitsInterface self.old (Works.Receive packet.now) }
        requires alone { needs (own self.old) (Works.Receive packet.now) ≡ None }
        ensures { (s : State) → Turns self.old self.new s stamp (Works.Receive packet.now) result }
    {
        match packet {
            Packet::Parcel(p) => self.receive_again(stamp, p),
            Packet::Answer(p) => self.receive_nothing(stamp, p),
        }
    }

    /// Does a work that touches no endpoint.
    fn work_alone(&mut self, stamp: u64, work: &Work) -> Result<(), EntryFault>
        requires fits { FitsInterface self.old work.now }
        requires alone { needs (own self.old) work.now ≡ None }
        ensures { (s : State) → Turns self.old self.new s stamp work.now result }
    {
        match work {
            Work::Receive(packet) => self.receive_alone(stamp, packet),
            Work::Bind(_) => unreachable!(),
            Work::Expire { peer, channel } => self.expire_alone(stamp, *peer, *channel),
        }
    }

    /// The last entry, if there is one.
    pub fn last_entry(&self) -> Option<&Entry>
        ensures value { option_copied result ≡ slice_get self.now.log (length self.now.log - 1) }
        ensures last { (past : List Entry) (x : Entry) → self.now.log ≡ past ++ x ∷ [] → option_copied result ≡ Some x }
    {
        self.log.as_slice().last()
    }

    /// What the turn did whose entry was logged last.
    fn last_turn(&self) -> Turned
        requires { 0 < length self.now.log }
        ensures { (past : List Entry) (x : Entry) → self.now.log ≡ past ++ x ∷ [] → result ≡ record { entry = x; out = emitted_of x } }
    {
        let Some(entry) = self.last_entry() else {
            unreachable!()
        };
        Turned {
            entry: *entry,
            out: emitted_of(entry),
        }
    }

    /// Does a work that touches no endpoint, as `turn_alone` does, and answers no copy of the entry, which is the last of the log.
    pub fn make_alone(&mut self, floor: u64, work: &Work) -> Result<(), EntryFault>
        requires fits { FitsInterface self.old work.now }
        requires alone { needs (own self.old) work.now ≡ None }
        requires floor { floor + 1 < 2 ^ 64 }
        requires last { last_stamp self.old.log + 1 < 2 ^ 64 }
        requires packet { stamp_in work.now + 1 < 2 ^ 64 }
        ensures logged { (s : State) → OnOk result (self.new ≡ record self.old { log = self.old.log ++ entry_by self.old s (stamp_after floor self.old.log work.now) work.now ∷ [] }) }
        ensures disabled { (s : State) (c : Condition) → (result ≡ Err (EntryFault.NotEnabled c)) ↔ (failing_at (own self.old) s work.now ≡ Some c) }
        ensures full { (s : State) (p : Part) → (result ≡ Err (EntryFault.LogFull p)) ↔ ((failing_at (own self.old) s work.now ≡ None) × IsFull self.old p) }
        ensures starved { (s : State) → result ≡ Err EntryFault.NoMemory → HasRoom self.old s work.now }
        ensures err { OnErr result (self.new ≡ self.old) }
    {
        let stamp = self.stamp_after(floor, work);
        self.work_alone(stamp, work)
    }

    /// Does a work that touches this endpoint, as `turn_with` does, and answers no copy of the entry, which is the last of both
    /// logs.
    pub fn make_with(
        &mut self,
        floor: u64,
        work: &Work,
        endpoint: &mut Endpoint,
    ) -> Result<(), EntryFault>
        requires fits { FitsInterface self.old work.now }
        requires needs { needs (own self.old) work.now ≡ Some endpoint.old.settings.id }
        requires home { home_in (own self.old) endpoint.old.settings.id ≡ Some endpoint.old.settings.node }
        requires network { is_direct (state_after endpoint.old).head.place ≡ false }
        requires bounces { endpoint.old.settings.bounces ≡ self.old.settings.bounces }
        requires known { KnowsHome (own self.old) (state_after endpoint.old) work.now }
        requires flies { FitsEndpoint (own self.old) (state_after endpoint.old) work.now }
        requires floor { floor + 1 < 2 ^ 64 }
        requires last { last_stamp self.old.log + 1 < 2 ^ 64 }
        requires last_there { last_stamp endpoint.old.log + 1 < 2 ^ 64 }
        requires packet { stamp_in work.now + 1 < 2 ^ 64 }
        ensures logged { OnOk result (self.new ≡ record self.old { log = self.old.log ++ entry_by self.old (state_after endpoint.old) (stamp_after (max floor (last_stamp endpoint.old.log)) self.old.log work.now) work.now ∷ [] }) }
        ensures logged_there { OnOk result (endpoint.new.log ≡ endpoint.old.log ++ entry_by self.old (state_after endpoint.old) (stamp_after (max floor (last_stamp endpoint.old.log)) self.old.log work.now) work.now ∷ []) }
        ensures flights_there { OnOk result (Flies work.now (entry_by self.old (state_after endpoint.old) (stamp_after (max floor (last_stamp endpoint.old.log)) self.old.log work.now) work.now) endpoint.old endpoint.new) }
        ensures settings_there { endpoint.new.settings ≡ endpoint.old.settings }
        ensures disabled { (c : Condition) → (result ≡ Err (EntryFault.NotEnabled c)) ↔ (failing_at (own self.old) (state_after endpoint.old) work.now ≡ Some c) }
        ensures full { (p : Part) → (result ≡ Err (EntryFault.LogFull p)) ↔ ((failing_at (own self.old) (state_after endpoint.old) work.now ≡ None) × IsFullOf self.old endpoint.old p) }
        ensures starved { result ≡ Err EntryFault.NoMemory → HasRoomWith self.old endpoint.old work.now }
        ensures err { OnErr result (self.new ≡ self.old) }
        ensures err_there { OnErr result (endpoint.new.log ≡ endpoint.old.log) }
        ensures err_flights { OnErr result (endpoint.new.flights ≡ endpoint.old.flights) }
        ensures kept { OnErr result (endpoint.new.ready ≡ endpoint.old.ready) }
    {
        let stamp = self.stamp_with(floor, work, endpoint);
        self.work_with(stamp, work, endpoint)
    }

    /// Does a work that touches no endpoint, and logs its entry. Where it answers no entry, nothing has changed.
    pub fn turn_alone(&mut self, floor: u64, work: &Work) -> Result<Turned, IfaceFault>
        requires fits { FitsInterface self.old work.now }
        requires alone { needs (own self.old) work.now ≡ None }
        requires floor { floor + 1 < 2 ^ 64 }
        requires last { last_stamp self.old.log + 1 < 2 ^ 64 }
        requires packet { stamp_in work.now + 1 < 2 ^ 64 }

        // the one entry of the work, whatever the states of endpoints are, and its packet
        ensures event { IfOk result (λ t. t.entry.event ≡ event_of self.old.settings.node work.now) }
        ensures outcome { (s : State) → IfOk result (λ t. t.entry.outcome ≡ outcome_at (own self.old) s work.now) }
        ensures stamp { IfOk result (λ t. t.entry.stamp ≡ stamp_after floor self.old.log work.now) }
        ensures out { IfOk result (λ t. t.out ≡ emitted_of t.entry) }
        ensures logged { IfOk result (λ t. self.new ≡ record self.old { log = self.old.log ++ t.entry ∷ [] }) }

        // the first condition that fails, or the full log where none does, and want of memory only where neither is
        ensures disabled { (s : State) (c : Condition) → (result ≡ Err (EntryFault.NotEnabled c)) ↔ (failing_at (own self.old) s work.now ≡ Some c) }
        ensures full { (s : State) (p : Part) → (result ≡ Err (EntryFault.LogFull p)) ↔ ((failing_at (own self.old) s work.now ≡ None) × IsFull self.old p) }
        ensures starved { (s : State) → result ≡ Err EntryFault.NoMemory → HasRoom self.old s work.now }
        ensures err { OnErr result (self.new ≡ self.old) }
    {
        match self.make_alone(floor, work) {
            Ok(()) => Ok(self.last_turn()),
            Err(fault) => Err(fault),
        }
    }

    /// Does a work that touches this endpoint, and logs its entry here and in the endpoint. Room is made in both logs first.
    /// Where it answers no entry, neither log has changed, nor what the endpoint has in flight, nor whether it is ready for
    /// one more entry.
    pub fn turn_with(
        &mut self,
        floor: u64,
        work: &Work,
        endpoint: &mut Endpoint,
    ) -> Result<Turned, IfaceFault>
        requires fits { FitsInterface self.old work.now }
        requires needs { needs (own self.old) work.now ≡ Some endpoint.old.settings.id }
        requires home { home_in (own self.old) endpoint.old.settings.id ≡ Some endpoint.old.settings.node }
        requires network { is_direct (state_after endpoint.old).head.place ≡ false }
        requires bounces { endpoint.old.settings.bounces ≡ self.old.settings.bounces }
        requires known { KnowsHome (own self.old) (state_after endpoint.old) work.now }
        requires flies { FitsEndpoint (own self.old) (state_after endpoint.old) work.now }
        requires floor { floor + 1 < 2 ^ 64 }
        requires last { last_stamp self.old.log + 1 < 2 ^ 64 }
        requires last_there { last_stamp endpoint.old.log + 1 < 2 ^ 64 }
        requires packet { stamp_in work.now + 1 < 2 ^ 64 }

        // the one entry of the work at the endpoint's state, and its packet
        ensures event { IfOk result (λ t. t.entry.event ≡ event_of self.old.settings.node work.now) }
        ensures outcome { IfOk result (λ t. t.entry.outcome ≡ outcome_at (own self.old) (state_after endpoint.old) work.now) }
        ensures stamp { IfOk result (λ t. t.entry.stamp ≡ stamp_after (max floor (last_stamp endpoint.old.log)) self.old.log work.now) }
        ensures out { IfOk result (λ t. t.out ≡ emitted_of t.entry) }
        ensures logged { IfOk result (λ t. self.new ≡ record self.old { log = self.old.log ++ t.entry ∷ [] }) }
        ensures logged_there { IfOk result (λ t. endpoint.new.log ≡ endpoint.old.log ++ t.entry ∷ []) }
        ensures flights_there { IfOk result (λ t. Flies work.now t.entry endpoint.old endpoint.new) }
        ensures settings_there { endpoint.new.settings ≡ endpoint.old.settings }

        // the first condition that fails, or the first full log where none does, and want of memory only where neither is
        ensures disabled { (c : Condition) → (result ≡ Err (EntryFault.NotEnabled c)) ↔ (failing_at (own self.old) (state_after endpoint.old) work.now ≡ Some c) }
        ensures full { (p : Part) → (result ≡ Err (EntryFault.LogFull p)) ↔ ((failing_at (own self.old) (state_after endpoint.old) work.now ≡ None) × IsFullOf self.old endpoint.old p) }
        ensures starved { result ≡ Err EntryFault.NoMemory → HasRoomWith self.old endpoint.old work.now }
        ensures err { OnErr result (self.new ≡ self.old) }
        ensures err_there { OnErr result (endpoint.new.log ≡ endpoint.old.log) }
        ensures err_flights { OnErr result (endpoint.new.flights ≡ endpoint.old.flights) }
        ensures kept { OnErr result (endpoint.new.ready ≡ endpoint.old.ready) }
    {
        match self.make_with(floor, work, endpoint) {
            Ok(()) => Ok(self.last_turn()),
            Err(fault) => Err(fault),
        }
    }
}

/// Writes what a call leaves: both ends of its channel, one packet more to its peer where its entry emits one, and the entry.
fn write(
    all: &mut Vec<Ends>,
    emissions: &mut Vec<u32>,
    log: &mut Vec<Entry>,
    peer: NodeId,
    channel: u8,
    ends: &Ends,
    entry: &Entry,
)
    requires peer { peer.0 < length emissions.old.items }
    requires channel { 4 * peer.0 + channel < length all.old.items }
    requires count { get_or emissions.old.items peer.0 0 + 1 < 2 ^ 32 }
    requires room { vec_len log.old < vec_capacity log.old }
    ensures ends { all.new.items ≡ slice_set all.old.items (4 * peer.0 + channel) ends.now }
    ensures emissions { emissions.new.items ≡ slice_set emissions.old.items peer.0 (get_or emissions.old.items peer.0 0 + cond (is_some (does.emitted_of entry.now)) 1 0) }
    ensures log { log.new.items ≡ log.old.items ++ entry.now ∷ [] }
{
    let to = peer.0 as usize;
    all[4 * to + channel as usize] = *ends;
    emissions[to] += one_if(emits(entry));
    log.push_reserved(*entry);
}

fn one_if(is: bool) -> u32
    ensures value { result ≡ cond is 1 0 }
    ensures small { result ≤ 1 }
{
    if is { 1 } else { 0 }
}
