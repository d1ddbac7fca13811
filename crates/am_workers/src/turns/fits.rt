//! What an interface tests of a packet before it receives it.
ghost use Rattle.am_iface.specs.Settings.{AreLawful};
ghost use Rattle.am_iface.specs.View.{FitsAnswer, FitsInterface, FitsParcel, IsChannelOf};
ghost use Rattle.am_office_entries.specs.declared.Entry.{Entry};
ghost use Rattle.am_workers.specs.Turns.Servers.{IsRanged};
ghost use Rattle.am_workers.specs.Turns.Tests.{fits, fits_answer, fits_parcel, is_channel_of, is_ranged};
ghost use Rattle.std.specs.Prelude.{◌≡◌, IsTrue, List};

use crate::turns::works::home;
use am_iface::{IfaceSettings, Work};
use am_names::{AnswerPacket, NodeId, Packet, Parcel};

/// A peer and a channel are of the settings.
fn is_channel_of(set: &IfaceSettings, peer: NodeId, channel: u8) -> bool
    ensures value { result ≡ is_channel_of set.now peer channel }
    ensures channel { IsTrue result → IsChannelOf set.now peer channel }
{
    peer.0 < set.nodes && channel < set.channels
}

/// It is addressed to the node, of a sequence from 1, and its message is well formed.
fn fits_parcel(set: &IfaceSettings, p: &Parcel) -> bool
    ensures value { result ≡ fits_parcel set.now p.now }
    ensures fits { IsTrue result → FitsParcel set.now p.now }
{
    p.to.0 == set.node.0
        && is_channel_of(set, p.from, p.channel)
        && 1 <= p.seq
        && p.message.is_well_formed()
}

/// It is addressed to the node.
fn fits_answer(set: &IfaceSettings, p: &AnswerPacket) -> bool
    ensures value { result ≡ fits_answer set.now p.now }
    ensures fits { IsTrue result → FitsAnswer set.now p.now }
{
    p.to.0 == set.node.0 && is_channel_of(set, p.from, p.channel)
}

/// Whether the interface with these settings may be given the work.
pub(crate) fn fits(set: &IfaceSettings, work: &Work) -> bool
    ensures value { result ≡ fits set.now work.now }
    ensures fits { IsTrue result → (log : List Entry) → FitsInterface (record { settings = set.now; log = log }) work.now }
{
    match work {
        Work::Receive(Packet::Parcel(p)) => fits_parcel(set, p),
        Work::Receive(Packet::Answer(p)) => fits_answer(set, p),
        Work::Bind(_) => true,
        Work::Expire { peer, channel } => is_channel_of(set, *peer, *channel),
    }
}

/// Whether the numbers of the work's event are in range: a packet comes from a node and is numbered from 1, an endpoint has a home,
/// and a peer and a channel are of the settings.
pub(crate) fn is_ranged(set: &IfaceSettings, work: &Work) -> bool
    requires lawful { AreLawful set.now }
    ensures value { result ≡ is_ranged set.now work.now }
    ensures ranged { IsTrue result → IsRanged set.now work.now }
{
    match work {
        Work::Receive(Packet::Parcel(p)) => p.from.0 < set.nodes && 1 <= p.number,
        Work::Receive(Packet::Answer(p)) => p.from.0 < set.nodes && 1 <= p.number,
        Work::Bind(end) => home(set, *end).is_some(),
        Work::Expire { peer, channel } => is_channel_of(set, *peer, *channel),
    }
}
