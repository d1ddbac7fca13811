//! Which work an interface does next.
ghost use Rattle.am_iface.specs.Settings.{AreLawful};
ghost use Rattle.am_model.specs.Packets.{from_of};
ghost use Rattle.am_workers.specs.Turns.Chosen.{bind_of, chosen_work, expiry_of, is_late, late_channel, late_peer, receipt_of, time_out_of};
ghost use Rattle.am_workers.specs.Turns.Servers.{HandHolds};
ghost use Rattle.am_workers_laws.specs.Invariants.Works.{Hand};
ghost use Rattle.std.specs.Prelude.{◌≡◌, ◌<◌, IfSome, Some, slice_get};

use crate::turns::services::may_retry;
use crate::turns::waits::Waits;
use am_iface::{IfaceSettings, Interface, Work};
use am_names::{EndpointId, NodeId, Packet};

/// Whether the channel has waited long enough, and its binding has a try left for others.
fn is_late(
    interface: &Interface,
    set: &IfaceSettings,
    waits: &Waits,
    peer: NodeId,
    channel: u8,
) -> bool
    requires set { set.now ≡ interface.now.settings }
    requires lawful { AreLawful set.now }
    requires peer { peer.0 < set.now.nodes }
    requires channel { channel < set.now.channels }
    ensures { result ≡ is_late waits.now interface.now peer channel }
{
    waits.has_waited(peer, channel) && may_retry(interface, set, peer, channel)
}

/// The least channel to the peer that has waited long enough, and whose binding has a try left for others.
fn late_channel(
    interface: &Interface,
    set: &IfaceSettings,
    waits: &Waits,
    peer: NodeId,
) -> Option<u8>
    requires set { set.now ≡ interface.now.settings }
    requires lawful { AreLawful set.now }
    requires peer { peer.0 < set.now.nodes }
    ensures value { result ≡ late_channel waits.now interface.now peer }
    ensures within { IfSome result (λ channel. channel < set.now.channels) }
{
    for channel in 0..set.channels {
        if is_late(interface, set, waits, peer, channel) {
            return Some(channel);
        }
    }
    None
}

/// The least peer to which there is such a channel.
fn late_peer(interface: &Interface, set: &IfaceSettings, waits: &Waits) -> Option<u8>
    requires set { set.now ≡ interface.now.settings }
    requires lawful { AreLawful set.now }
    ensures value { result ≡ late_peer waits.now interface.now }
    ensures within { IfSome result (λ number. number < set.now.nodes) }
{
    for number in 0..set.nodes {
        if late_channel(interface, set, waits, NodeId(number)).is_some() {
            return Some(number);
        }
    }
    None
}

/// The time-out of the channel to the peer, if there is one.
fn expiry_of(peer: NodeId, channel: Option<u8>) -> Option<Work>
    ensures value { result ≡ expiry_of peer channel }
    ensures hand { IfSome result (λ work. (hand : Hand) → HandHolds hand work) }
{
    match channel {
        None => None,
        Some(channel) => Some(Work::Expire { peer, channel }),
    }
}

/// The time-out of the least peer's least channel that has waited long enough, if there is one.
pub(crate) fn next_time_out(
    interface: &Interface,
    set: &IfaceSettings,
    waits: &Waits,
) -> Option<Work>
    requires set { set.now ≡ interface.now.settings }
    requires lawful { AreLawful set.now }
    ensures value { result ≡ time_out_of waits.now interface.now }
    ensures hand { IfSome result (λ work. (hand : Hand) → HandHolds hand work) }
{
    match late_peer(interface, set, waits) {
        None => None,
        Some(number) => {
            let peer = NodeId(number);
            expiry_of(peer, late_channel(interface, set, waits, peer))
        }
    }
}

fn from_of(packet: &Packet) -> NodeId
    ensures { result ≡ from_of packet.now }
{
    match packet {
        Packet::Parcel(p) => p.from,
        Packet::Answer(p) => p.from,
    }
}

/// The receipt of the packet in hand, where it came by its sender's link.
pub(crate) fn receipt_of(held: (NodeId, Packet)) -> Option<Work>
    ensures value { result ≡ receipt_of held }
    ensures hand { IfSome result (λ work. HandHolds (Some held) work) }
{
    let (link, packet) = held;
    if from_of(&packet).0 == link.0 {
        Some(Work::Receive(packet))
    } else {
        None
    }
}

/// The endpoint at this place, if there is one.
fn end_at(ids: &[EndpointId], at: usize) -> Option<EndpointId>
    ensures { result ≡ slice_get ids.now at }
{
    ids.get(at).copied()
}

/// The bind of the endpoint that is next, if there are any, whose place is counted round.
fn bind_of(ids: &[EndpointId], next: usize) -> Option<Work>
    ensures value { result ≡ bind_of ids.now next }
    ensures hand { IfSome result (λ work. (hand : Hand) → HandHolds hand work) }
{
    if ids.is_empty() {
        return None;
    }
    match end_at(ids, next % ids.len()) {
        None => None,
        Some(end) => Some(Work::Bind(end)),
    }
}

/// What an interface does in this turn: it receives the packet in hand, or lets the least channel time out that has waited long
/// enough, or binds the front message of an endpoint of its node: the one that is next, in the order of `ids`, whose places are
/// counted round. `None` only where the packet in hand did not come by its sender's link, and where none is in hand, no channel has
/// waited long enough and the node has no endpoints.
pub fn next_work(
    interface: &Interface,
    set: &IfaceSettings,
    waits: &Waits,
    hand: Option<(NodeId, Packet)>,
    ids: &[EndpointId],
    next: usize,
) -> Option<Work>
    requires set { set.now ≡ interface.now.settings }
    requires lawful { AreLawful set.now }
    ensures chosen { result ≡ chosen_work waits.now interface.now hand ids.now next }
    ensures hand { IfSome result (λ work. HandHolds hand work) }
{
    if let Some(held) = hand {
        return receipt_of(held);
    }
    match next_time_out(interface, set, waits) {
        Some(work) => Some(work),
        None => bind_of(ids, next),
    }
}
