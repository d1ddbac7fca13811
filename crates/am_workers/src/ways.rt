//! The ends of an interface's links, by the numbers of the nodes.
ghost use Rattle.am_model.specs.Layout.{node_at};
ghost use Rattle.am_model.specs.Packets.{receiver_of};
ghost use Rattle.am_names.specs.declared.NodeId.{NodeId};
ghost use Rattle.am_names.specs.declared.Packet.{Packet};
ghost use Rattle.am_workers.specs.Turns.Servers.{sent_to};
ghost use Rattle.am_workers.specs.AtWork.{SameIns, SameOuts, sent_by, taken_by};
ghost use Rattle.am_workers.specs.WorkerTurns.{AreWhole, AreWholeTo, TakesFirst, TakesInHand};
ghost use Rattle.am_workers.specs.Ways.{AreKept, HaveRoom, HaveRoomBut};
ghost use Rattle.am_workers.specs.Turns.Chosen.{place_after};
ghost use Rattle.am_wire.specs.Links.{known};
ghost use Rattle.am_wire.specs.declared.receiving.LinkIn.{LinkIn};
ghost use Rattle.am_workers_laws.specs.Invariants.Works.{held_from};
ghost use Rattle.std.specs.Prelude.{◌≡◌, ◌≢◌, ◌<◌, ◌≤◌, ◌+◌, ◌++◌, ℕ, [], IfNone, IfSome, List, OnOk, Some, length, slice_get};

use am_names::{NoMemory, NodeId, Packet};
use am_wire::{LinkIn, LinkOut};

/// Makes room on the link that took the last packet. `NoMemory` comes only where there is none for it.
pub(crate) fn make_room(outs: &mut Vec<LinkOut>, last: usize) -> Result<(), NoMemory>
    ensures kept { AreKept outs.old.items outs.new.items }
    ensures others { HaveRoomBut last outs.old.items → HaveRoomBut last outs.new.items }
    ensures room { HaveRoomBut last outs.old.items → OnOk result (HaveRoom outs.new.items) }
{
    if last >= outs.len() {
        return Ok(());
    }
    let link = &mut outs[last];
    link.room()
}

/// Pumps the link at this place.
fn pump_at(outs: &mut Vec<LinkOut>, at: usize)
    requires { at < length outs.old.items }
    ensures kept { AreKept outs.old.items outs.new.items }
    ensures room { HaveRoom outs.old.items → HaveRoom outs.new.items }
    ensures whole { AreWholeTo at outs.old.items → AreWholeTo (at + 1) outs.new.items }
{
    let link = &mut outs[at];
    link.pump();
}

/// Pumps each link: then no packet waits on it outside its ring, or the ring has no place that is known to be free.
pub(crate) fn pump_all(outs: &mut Vec<LinkOut>)
    ensures kept { AreKept outs.old.items outs.new.items }
    ensures room { HaveRoom outs.old.items → HaveRoom outs.new.items }
    ensures whole { AreWhole outs.new.items }
{
    for at in 0..outs.len() {
        pump_at(outs, at);
    }
}

/// The place of the link to the packet's receiver.
fn way_of(packet: &Packet) -> usize
    ensures { result ≡ (receiver_of packet.now).0 }
{
    match packet {
        Packet::Parcel(p) => p.to.0 as usize,
        Packet::Answer(p) => p.to.0 as usize,
    }
}

/// Emits a packet on the link to its receiver, whose place is answered.
fn send_packet(outs: &mut Vec<LinkOut>, packet: Packet) -> usize
    requires to { (receiver_of packet).0 < length outs.old.items }
    requires room { HaveRoom outs.old.items }
    ensures same { SameOuts outs.old.items outs.new.items }
    ensures room { HaveRoomBut result outs.new.items }
    ensures sent { (to : NodeId) → sent_by outs.new.items to ≡ sent_by outs.old.items to ++ sent_to to (Some packet) }
{
    let at = way_of(&packet);
    let link = &mut outs[at];
    link.offer_ready(packet);
    at
}

/// Emits a packet, if there is one, on the link to its receiver. Answers the place of the link that took the last packet.
pub(crate) fn send(outs: &mut Vec<LinkOut>, last: usize, out: Option<Packet>) -> usize
    requires to { IfSome out (λ p. (receiver_of p).0 < length outs.old.items) }
    requires room { HaveRoom outs.old.items }
    ensures same { SameOuts outs.old.items outs.new.items }
    ensures room { HaveRoomBut result outs.new.items }
    ensures sent { (to : NodeId) → sent_by outs.new.items to ≡ sent_by outs.old.items to ++ sent_to to out }
{
    match out {
        None => last,
        Some(packet) => send_packet(outs, packet),
    }
}

/// The next packet of the link from the node with this number, if one is seen.
fn take_at(ins: &mut Vec<LinkIn>, at: usize) -> Option<(NodeId, Packet)>
    requires at { at < length ins.old.items }
    requires few { length ins.old.items ≤ 16 }
    ensures same { SameIns ins.old.items ins.new.items }
    ensures taken { (from : NodeId) → taken_by ins.new.items from ≡ taken_by ins.old.items from ++ held_from from result }
    ensures node { IfSome result (λ held. held.0 ≡ node_at at) }
    ensures none { IfNone result ((i : LinkIn) → slice_get ins.old.items at ≡ Some i → known i ≡ []) }
    ensures others { (k : ℕ) → k ≢ at → slice_get ins.new.items k ≡ slice_get ins.old.items k }
{
    let node = NodeId(at as u8);
    let link = &mut ins[at];
    match link.next() {
        None => None,
        Some(packet) => Some((node, packet)),
    }
}

/// The place after this one, of so many: after the last comes the first.
pub(crate) fn place_after(at: usize, count: usize) -> usize
    ensures value { result ≡ place_after at count }
    ensures within { 0 < count → result < count }
{
    if at < count.saturating_sub(1) {
        at + 1
    } else {
        0
    }
}

/// Looks at each link once, from this place on and round, and takes the first packet. The place is then that of the next link.
fn take_next(ins: &mut Vec<LinkIn>, from: &mut usize) -> Option<(NodeId, Packet)>
    requires from { from.old < length ins.old.items }
    requires few { length ins.old.items ≤ 16 }
    ensures from { from.new < length ins.new.items }
    ensures same { SameIns ins.old.items ins.new.items }
    ensures taken { (node : NodeId) → taken_by ins.new.items node ≡ taken_by ins.old.items node ++ held_from node result }
    ensures first { TakesFirst ins.old.items from.old from.new result }
{
    let count = ins.len();
    for step in 0..count {
        let at = *from;
        *from = place_after(at, count);
        let taken = take_at(ins, at);
        if taken.is_some() {
            return taken;
        }
    }
    None
}

/// Takes the first packet that the links have, where none is in hand.
pub(crate) fn take_in_hand(
    hand: &mut Option<(NodeId, Packet)>,
    ins: &mut Vec<LinkIn>,
    from: &mut usize,
)
    requires from { from.old < length ins.old.items }
    requires few { length ins.old.items ≤ 16 }
    ensures from { from.new < length ins.new.items }
    ensures same { SameIns ins.old.items ins.new.items }
    ensures taken { (node : NodeId) (got : List Packet) → taken_by ins.old.items node ≡ got ++ held_from node hand.old → taken_by ins.new.items node ≡ got ++ held_from node hand.new }
    ensures first { TakesInHand hand.old hand.new ins.old.items from.old from.new }
{
    if hand.is_none() {
        *hand = take_next(ins, from);
    }
}
