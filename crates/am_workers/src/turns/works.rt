//! What an interface does with an endpoint that it has entered.
ghost use Rattle.am_endpoint.specs.View.{state_after};
ghost use Rattle.am_iface.specs.Settings.{AreLawful};
ghost use Rattle.am_iface.specs.View.{FitsInterface, own};
ghost use Rattle.am_model.specs.Parts.{last_stamp};
ghost use Rattle.am_iface.specs.With.{IsHomeKnown, KnowsHome};
ghost use Rattle.am_model_parts.specs.Granted.{FitsEndpoint, IsInFlight};
ghost use Rattle.am_model_parts.specs.Interface.{channel_in, home_in, needs, stamp_in};
ghost use Rattle.am_model.specs.Channels.{bound_message};
ghost use Rattle.am_model.specs.Endpoint.{entry_at, front, is_direct, is_on_disk};
ghost use Rattle.am_model_scripts.specs.Follows.{is_bounced_out};
ghost use Rattle.am_workers.specs.Turns.Tests.{flies_at, is_home_of, is_low, is_of, is_ready, may_go, passes};
ghost use Rattle.am_workers.specs.Turns.Turns.{InterfaceFound, MayBounce, SettlesHere, worked_in};
ghost use Rattle.std.specs.Prelude.{◌≡◌, ◌<◌, ◌^◌, ◌++◌, ◌&&◌, IsTrue, Some, false, not, true};

use crate::turns::turns::InterfaceTurn;
use am_endpoint::Endpoint;
use am_iface::{IfaceSettings, Interface, Work};
use am_model::{EntryFault, Queued, is_on_disk};
use am_names::{EndpointId, NodeId, Packet};
use am_office_entries::Place;
use am_workers_laws::books::{EndBook, LAST};

/// The node of an endpoint, if it is declared.
pub(crate) fn home(set: &IfaceSettings, end: EndpointId) -> Option<NodeId>
    requires lawful { AreLawful set.now }
    ensures { result ≡ entry_at set.now.homes end.0 }
{
    set.homes[end.0 as usize]
}

/// Whether the endpoint is of the node where the settings have it.
fn is_at_home(set: &IfaceSettings, end: &Endpoint) -> bool
    requires lawful { AreLawful set.now }
    ensures value { result ≡ is_home_of (entry_at set.now.homes end.now.settings.id.0) end.now.settings.node }
    ensures home { IsTrue result → entry_at set.now.homes end.now.settings.id.0 ≡ Some end.now.settings.node }
{
    match home(set, end.id()) {
        Some(node) => node.0 == end.node().0,
        None => false,
    }
}

/// Whether the message, if there is one, has a destination with a home, and may bounce once more.
fn may_go(set: &IfaceSettings, interface: &Interface, front: Option<Queued>) -> bool
    requires lawful { AreLawful set.now }
    requires set { set.now ≡ interface.now.settings }
    ensures value { result ≡ may_go interface.now.settings front }
    ensures home { IsTrue result → IsHomeKnown (own interface.now) front }
    ensures bounces { IsTrue result → is_bounced_out interface.now.settings.bounces front ≡ false }
{
    match front {
        None => true,
        Some(queued) => {
            home(set, queued.message.dest).is_some() && queued.bounces != set.bounces
        }
    }
}

/// Whether the message that is bound to the channel, if one is, is in flight at the endpoint.
fn is_in_flight(interface: &Interface, peer: NodeId, channel: u8, end: &Endpoint) -> bool
    requires peer { peer.0 < interface.now.settings.nodes }
    requires channel { channel < interface.now.settings.channels }
    ensures value { result ≡ flies_at (state_after end.now) (bound_message (channel_in (own interface.now) peer channel) interface.now.log) }
    ensures flies { IsTrue result → IsInFlight (state_after end.now) (bound_message (channel_in (own interface.now) peer channel) interface.now.log) }
{
    match interface.bound(peer, channel) {
        None => true,
        Some(bound) => end.in_flight(bound.message.serial),
    }
}

/// Whether the endpoint's front message may be bound by these workers: its destination has a home, and it may bounce once more.
fn may_bind(set: &IfaceSettings, interface: &Interface, end: &Endpoint) -> bool
    requires lawful { AreLawful set.now }
    requires set { set.now ≡ interface.now.settings }
    ensures value { result ≡ (not (is_on_disk (state_after end.now).head.place) && may_go interface.now.settings (front (state_after end.now))) }
    ensures home { IsTrue result → IsHomeKnown (own interface.now) (front (state_after end.now)) }
    ensures bounces { IsTrue result → is_bounced_out interface.now.settings.bounces (front (state_after end.now)) ≡ false }
{
    !is_on_disk(end.place()) && may_go(set, interface, end.front())
}

/// Whether the endpoint is as the work needs it. The last try of a binding is left to others.
fn is_ready_for(set: &IfaceSettings, interface: &Interface, work: &Work, end: &Endpoint) -> bool
    requires lawful { AreLawful set.now }
    requires set { set.now ≡ interface.now.settings }
    requires fits { FitsInterface interface.now work.now }
    ensures value { result ≡ is_ready interface.now (state_after end.now) work.now }
    ensures home { IsTrue result → KnowsHome (own interface.now) (state_after end.now) work.now }
    ensures flies { IsTrue result → FitsEndpoint (own interface.now) (state_after end.now) work.now }
    ensures bounces { IsTrue result → MayBounce interface.now.settings.bounces (state_after end.now) work.now }
    ensures here { IsTrue result → SettlesHere (state_after end.now) work.now }
{
    match work {
        Work::Receive(Packet::Parcel(_)) => true,
        Work::Receive(Packet::Answer(p)) => {
            !is_on_disk(end.place()) && is_in_flight(interface, p.from, p.channel, end)
        }
        Work::Bind(_) => may_bind(set, interface, end),
        Work::Expire { .. } => false,
    }
}

/// Whether the endpoint is one of the packet network, of the node and of the limit that the settings have.
fn is_of(set: &IfaceSettings, end: &Endpoint) -> bool
    requires lawful { AreLawful set.now }
    ensures value { result ≡ is_of set.now end.now.settings (state_after end.now) }
    ensures home { IsTrue result → entry_at set.now.homes end.now.settings.id.0 ≡ Some end.now.settings.node }
    ensures bounces { IsTrue result → end.now.settings.bounces ≡ set.now.bounces }
    ensures network { IsTrue result → is_direct (state_after end.now).head.place ≡ false }
{
    is_at_home(set, end) && end.bounces() == set.bounces && is_on_network(end.place())
}

fn is_on_network(place: Place) -> bool
    ensures value { result ≡ not (is_direct place) }
    ensures network { IsTrue result → is_direct place ≡ false }
{
    match place {
        Place::Direct => false,
        Place::Host | Place::Disk | Place::Frame(_) => true,
    }
}

/// Does the work, which every test lets through.
fn work_on(interface: &mut Interface, work: &Work, book: &mut EndBook) -> InterfaceTurn
    requires fits { FitsInterface interface.old work.now }
    requires needs { needs (own interface.old) work.now ≡ Some book.old.end.value.settings.id }
    requires home { home_in (own interface.old) book.old.end.value.settings.id ≡ Some book.old.end.value.settings.node }
    requires network { is_direct (state_after book.old.end.value).head.place ≡ false }
    requires limit { book.old.end.value.settings.bounces ≡ interface.old.settings.bounces }
    requires known { KnowsHome (own interface.old) (state_after book.old.end.value) work.now }
    requires flies { FitsEndpoint (own interface.old) (state_after book.old.end.value) work.now }
    requires bounces { MayBounce interface.old.settings.bounces (state_after book.old.end.value) work.now }
    requires here { SettlesHere (state_after book.old.end.value) work.now }
    requires last { last_stamp interface.old.log < 2 ^ 63 }
    requires last_there { last_stamp book.old.end.value.log < 2 ^ 63 }
    requires packet { stamp_in work.now < 2 ^ 63 }
    requires passed { passes work.now interface.old book.old.end.value.settings book.old.end.value.log ≡ true }
    ensures settings { book.new.end.value.settings ≡ book.old.end.value.settings }
    ensures added { book.new.end.value.log ≡ book.old.end.value.log ++ worked_in result }
    ensures found { InterfaceFound work.now interface.old interface.new result book.old.end.value.settings book.old.end.value.log }
{
    match interface.turn_with(0, work, &mut book.end) {
        Ok(turned) => InterfaceTurn::Made(turned),
        Err(EntryFault::NotEnabled(_)) => InterfaceTurn::NotYet,
        Err(EntryFault::LogFull(_)) => InterfaceTurn::Full,
        Err(EntryFault::NoMemory) => InterfaceTurn::NoMemory,
    }
}

/// Whether a stamp may follow those of the interface, of the packet in hand and of the endpoint.
fn is_low(interface: &Interface, work: &Work, end: &Endpoint) -> bool
    ensures value { result ≡ is_low interface.now work.now end.now.log }
    ensures last { IsTrue result → last_stamp interface.now.log < 2 ^ 63 }
    ensures last_there { IsTrue result → last_stamp end.now.log < 2 ^ 63 }
    ensures packet { IsTrue result → stamp_in work.now < 2 ^ 63 }
{
    let last = interface.last_stamp().max(work.stamp());
    last.max(end.last_stamp()) < LAST
}

/// Does the work at the endpoint that it needs, where each test of it holds.
pub(crate) fn work_at(
    interface: &mut Interface,
    set: &IfaceSettings,
    work: &Work,
    book: &mut EndBook,
) -> InterfaceTurn
    requires lawful { AreLawful set.now }
    requires set { set.now ≡ interface.old.settings }
    requires fits { FitsInterface interface.old work.now }
    requires needs { needs (own interface.old) work.now ≡ Some book.old.end.value.settings.id }
    ensures settings { book.new.end.value.settings ≡ book.old.end.value.settings }
    ensures added { book.new.end.value.log ≡ book.old.end.value.log ++ worked_in result }
    ensures found { InterfaceFound work.now interface.old interface.new result book.old.end.value.settings book.old.end.value.log }
{
    if !is_of(set, &book.end) || !is_ready_for(set, interface, work, &book.end) {
        return InterfaceTurn::NotYet;
    }
    if !is_low(interface, work, &book.end) {
        return InterfaceTurn::NotYet;
    }
    work_on(interface, work, book)
}
