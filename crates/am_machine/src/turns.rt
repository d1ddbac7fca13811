//! Works of interfaces: binds, time-outs and receipts.

ghost use Rattle.am_model_parts.specs.Interface.{event_of};
ghost use Rattle.am_machine.specs.Refusals.{refusal};
ghost use Rattle.am_machine.specs.Turned.{IsTaken};
ghost use Rattle.am_machine.specs.View.{Makes};
ghost use Rattle.am_model.specs.Channels.{emitted};
ghost use Rattle.am_model.specs.History.{is_in_range};
ghost use Rattle.am_office_entries.specs.declared.Event.TheVariants as Events;
ghost use Rattle.std.specs.Prelude.{◌≡◌, ◌-◌, ◌<◌, ◌≤◌, false, slice_get, true};

use crate::Cluster;
use crate::ends::place_of;
use crate::turned::{turn_alone, turn_with};
use crate::ways::way;
use am_iface::Work;
use am_model::EntryFault;
use am_names::{EndpointId, NodeId, Packet};
use am_office_entries::Condition;
use am_scenario_types::Network;

impl Cluster {
    /// What a bind is refused for, want of memory aside.
    pub(crate) fn refusal_of_bind(&self, node: NodeId, end: EndpointId) -> Option<EntryFault>
        requires { is_in_range self.now.layout (Events.Bind node end) ≡ true }
        ensures { result ≡ refusal self.now (Events.Bind node end) }
    {
        match self.settings.network {
            Network::Direct => Some(EntryFault::NotEnabled(Condition::NotPacket)),
            Network::Packet => self.refusal_of_work(node, &Work::Bind(end)),
        }
    }

    /// What a time-out is refused for, want of memory aside.
    pub(crate) fn refusal_of_expiry(
        &self,
        node: NodeId,
        peer: NodeId,
        channel: u8,
    ) -> Option<EntryFault>
        requires { is_in_range self.now.layout (Events.Expire node peer channel) ≡ true }
        ensures { result ≡ refusal self.now (Events.Expire node peer channel) }
    {
        match self.settings.network {
            Network::Direct => Some(EntryFault::NotEnabled(Condition::NotPacket)),
            Network::Packet => self.refusal_of_work(node, &Work::Expire { peer, channel }),
        }
    }

    /// What a receipt is refused for, want of memory aside.
    pub(crate) fn refusal_of_receipt(
        &self,
        node: NodeId,
        peer: NodeId,
        number: u32,
    ) -> Option<EntryFault>
        requires { is_in_range self.now.layout (Events.Receive node peer number) ≡ true }
        ensures { result ≡ refusal self.now (Events.Receive node peer number) }
    {
        match self.settings.network {
            Network::Direct => Some(EntryFault::NotEnabled(Condition::NotPacket)),
            Network::Packet => match self.packet(peer, node, number) {
                Some(packet) => self.refusal_of_work(node, &Work::Receive(packet)),
                None => Some(EntryFault::NotEnabled(Condition::NoPacket)),
            },
        }
    }

    /// What a work of a node's interface is refused for on the packet network, want of memory aside.
    fn refusal_of_work(&self, node: NodeId, work: &Work) -> Option<EntryFault>
        requires packet { self.now.layout.direct ≡ false }
        requires in_range { is_in_range self.now.layout (event_of node work.now) ≡ true }
        requires taken { IsTaken self.now.journal node work.now }
        ensures { result ≡ refusal self.now (event_of node work.now) }
    {
        let interface = &self.interfaces[node.0 as usize];
        let Some(end) = interface.needs(work) else {
            return interface.refusal_alone(work);
        };
        let Some(place) = place_of(&self.ends, end) else {
            unreachable!()
        };
        interface.refusal_with(work, &self.ends[place])
    }

    /// Binds the front message of an endpoint to a channel of a node, where the network is packet.
    pub(crate) fn bind(&mut self, node: NodeId, end: EndpointId) -> Result<(), EntryFault>
        requires { is_in_range self.old.layout (Events.Bind node end) ≡ true }
        ensures { Makes self.old self.new (Events.Bind node end) result }
    {
        match self.settings.network {
            Network::Direct => Err(EntryFault::NotEnabled(Condition::NotPacket)),
            Network::Packet => self.turn(node, &Work::Bind(end)),
        }
    }

    /// Lets a channel of a node time out, where the network is packet.
    pub(crate) fn expire(
        &mut self,
        node: NodeId,
        peer: NodeId,
        channel: u8,
    ) -> Result<(), EntryFault>
        requires { is_in_range self.old.layout (Events.Expire node peer channel) ≡ true }
        ensures { Makes self.old self.new (Events.Expire node peer channel) result }
    {
        match self.settings.network {
            Network::Direct => Err(EntryFault::NotEnabled(Condition::NotPacket)),
            Network::Packet => self.turn(node, &Work::Expire { peer, channel }),
        }
    }

    /// Receives the packet with this number on the link from a peer, where the network is packet.
    pub(crate) fn receive(
        &mut self,
        node: NodeId,
        peer: NodeId,
        number: u32,
    ) -> Result<(), EntryFault>
        requires { is_in_range self.old.layout (Events.Receive node peer number) ≡ true }
        ensures { Makes self.old self.new (Events.Receive node peer number) result }
    {
        match self.settings.network {
            Network::Direct => Err(EntryFault::NotEnabled(Condition::NotPacket)),
            Network::Packet => match self.packet(peer, node, number) {
                Some(packet) => self.turn(node, &Work::Receive(packet)),
                None => Err(EntryFault::NotEnabled(Condition::NoPacket)),
            },
        }
    }

    /// The packet with this number on a link, if there is one.
    fn packet(&self, from: NodeId, to: NodeId, number: u32) -> Option<Packet>
        requires from { from.0 < 16 }
        requires to { to.0 < 16 }
        requires number { 1 ≤ number }
        ensures { result ≡ slice_get (emitted from to self.now.journal) (number - 1) }
    {
        self.index
            .emitted(from, to)
            .get(number as usize - 1)
            .copied()
    }

    /// Does a work of a node's interface, on the packet network.
    fn turn(&mut self, node: NodeId, work: &Work) -> Result<(), EntryFault>
        requires packet { self.old.layout.direct ≡ false }
        requires in_range { is_in_range self.old.layout (event_of node work.now) ≡ true }
        requires taken { IsTaken self.old.journal node work.now }
        ensures { Makes self.old self.new (event_of node work.now) result }
    {
        let interface = &mut self.interfaces[node.0 as usize];
        let Some(end) = interface.needs(work) else {
            return turn_alone(interface, &mut self.index, work);
        };
        let Some(place) = place_of(&self.ends, end) else {
            unreachable!()
        };
        let to = way(interface, &self.ends, &self.ends[place], work);
        turn_with(interface, &mut self.ends[place], &mut self.index, work, to)
    }
}
