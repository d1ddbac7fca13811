//! The turn of an interface, whatever its work touches.
ghost use Rattle.am_endpoint_body.specs.declared.settings.EndSettings.{EndSettings};
ghost use Rattle.am_iface.specs.Settings.{AreLawful};
ghost use Rattle.am_iface.specs.View.{FitsInterface, own};
ghost use Rattle.am_model.specs.Parts.{last_stamp};
ghost use Rattle.am_model_parts.specs.Interface.{needs, stamp_in};
ghost use Rattle.am_model_parts.specs.declared.work.Work.TheVariants as Works;
ghost use Rattle.am_workers_laws.specs.Invariants.Seats.{IsIdle};
ghost use Rattle.am_workers.specs.Turns.Chosen.{may_retry};
ghost use Rattle.am_workers.specs.Turns.Servers.{IfMade, IsRanged};
ghost use Rattle.am_workers.specs.Turns.Tests.{has_tries, is_fit, may_alone};
ghost use Rattle.am_workers.specs.Turns.Turns.{AloneTurns, FoundThere, HasTries, WhyTurned, WorkTurns};
ghost use Rattle.std.specs.Prelude.{◌≡◌, ◌≢◌, ◌<◌, ◌^◌, ℕ, IsTrue, true, None, Some, length, slice_get};
ghost use lib.ListN.{get_elem?};
ghost use mathlib.Core.Option.{some};
ghost use Rattle.am_places.specs.Seats.{pass_of, table_in};

use crate::turns::callers::place_of;
use crate::turns::fits::{fits, is_ranged};
use crate::turns::interfaces::interface_turn;
use crate::turns::turns::InterfaceTurn;
use am_iface::{IfaceSettings, Interface, Work};
use am_model::EntryFault;
use am_names::{EndpointId, NodeId};
use am_places::{Places, Seat};
use am_workers_laws::books::{EndBook, LAST};

/// Whether the channel has sent its message, and has more than one try left for it.
pub(crate) fn may_retry(
    interface: &Interface,
    set: &IfaceSettings,
    peer: NodeId,
    channel: u8,
) -> bool
    requires set { set.now ≡ interface.now.settings }
    requires peer { peer.0 < interface.now.settings.nodes }
    requires channel { channel < interface.now.settings.channels }
    ensures value { result ≡ may_retry interface.now peer channel }
    ensures tries { IsTrue result → HasTries interface.now (Works.Expire peer channel) }
{
    match interface.bound(peer, channel) {
        None => false,
        Some(bound) => u32::from(bound.attempt) + 2 < u32::from(set.tries),
    }
}

/// Whether a time-out leaves a try to others.
fn has_tries(interface: &Interface, set: &IfaceSettings, work: &Work) -> bool
    requires set { set.now ≡ interface.now.settings }
    requires fits { FitsInterface interface.now work.now }
    ensures value { result ≡ has_tries interface.now work.now }
    ensures tries { IsTrue result → HasTries interface.now work.now }
{
    match work {
        Work::Receive(_) | Work::Bind(_) => true,
        Work::Expire { peer, channel } => may_retry(interface, set, *peer, *channel),
    }
}

/// Whether the interface may be given the work.
fn fits_here(interface: &Interface, set: &IfaceSettings, work: &Work) -> bool
    requires set { set.now ≡ interface.now.settings }
    requires lawful { AreLawful set.now }
    ensures value { result ≡ is_fit set.now work.now }
    ensures fits { IsTrue result → FitsInterface interface.now work.now }
    ensures ranged { IsTrue result → IsRanged set.now work.now }
{
    fits(set, work) && is_ranged(set, work)
}

/// Does the work, which every test lets through.
fn work_alone(interface: &mut Interface, work: &Work) -> InterfaceTurn
    requires fits { FitsInterface interface.old work.now }
    requires alone { needs (own interface.old) work.now ≡ None }
    requires tries { HasTries interface.old work.now }
    requires last { last_stamp interface.old.log < 2 ^ 63 }
    requires packet { stamp_in work.now < 2 ^ 63 }
    requires passed { may_alone interface.old work.now ≡ true }
    ensures { AloneTurns work.now interface.old interface.new result }
{
    match interface.turn_alone(0, work) {
        Ok(turned) => InterfaceTurn::Made(turned),
        Err(EntryFault::NotEnabled(_)) => InterfaceTurn::NotYet,
        Err(EntryFault::LogFull(_)) => InterfaceTurn::Full,
        Err(EntryFault::NoMemory) => InterfaceTurn::NoMemory,
    }
}

/// Whether a work that touches no endpoint may be done.
fn may_alone(interface: &Interface, set: &IfaceSettings, work: &Work) -> bool
    requires set { set.now ≡ interface.now.settings }
    requires fits { FitsInterface interface.now work.now }
    ensures value { result ≡ may_alone interface.now work.now }
    ensures tries { IsTrue result → HasTries interface.now work.now }
    ensures last { IsTrue result → last_stamp interface.now.log < 2 ^ 63 }
    ensures packet { IsTrue result → stamp_in work.now < 2 ^ 63 }
{
    has_tries(interface, set, work) && interface.last_stamp() < LAST && work.stamp() < LAST
}

/// Does a work that touches no endpoint.
fn alone_turn(interface: &mut Interface, set: &IfaceSettings, work: &Work) -> InterfaceTurn
    requires set { set.now ≡ interface.old.settings }
    requires fits { FitsInterface interface.old work.now }
    requires alone { needs (own interface.old) work.now ≡ None }
    ensures { AloneTurns work.now interface.old interface.new result }
{
    if !may_alone(interface, set, work) {
        return InterfaceTurn::NotYet;
    }
    work_alone(interface, work)
}

/// Does a work with the endpoint of the node that it needs.
fn with_turn(
    places: &Places<EndBook>,
    seat: &mut Seat<EndBook>,
    ids: &[EndpointId],
    interface: &mut Interface,
    set: &IfaceSettings,
    work: &Work,
    end: EndpointId,
) -> InterfaceTurn
    requires idle { IsIdle (table_in places.now) seat.old.token }
    requires count { places.now.count ≡ length ids.now }
    requires guest { (pass_of seat.old).mark ≢ (pass_of seat.old).seats }
    requires births { (k : ℕ) (set : EndSettings) → get_elem? (pass_of seat.old).births k ≡ some set → slice_get ids.now k ≡ Some set.id }
    requires lawful { AreLawful set.now }
    requires set { set.now ≡ interface.old.settings }
    requires fits { FitsInterface interface.old work.now }
    requires needs { needs (own interface.old) work.now ≡ Some end }
    ensures idle { IsIdle (table_in places.now) seat.new.token }
    ensures turn { WorkTurns work.now interface.old interface.new (pass_of seat.old) (pass_of seat.new) result }
    ensures why { FoundThere ids.now end work.now interface.old (pass_of seat.old) (pass_of seat.new) result }
{
    match place_of(ids, end) {
        None => InterfaceTurn::NotYet,
        Some(at) => interface_turn(places, seat, at, interface, set, work),
    }
}

/// A turn of an interface with this work. Where a test of it fails, or the endpoint that it needs is of another node, nothing is done.
pub fn work_turn(
    places: &Places<EndBook>,
    seat: &mut Seat<EndBook>,
    ids: &[EndpointId],
    interface: &mut Interface,
    set: &IfaceSettings,
    work: &Work,
) -> InterfaceTurn
    requires idle { IsIdle (table_in places.now) seat.old.token }
    requires count { places.now.count ≡ length ids.now }
    requires guest { (pass_of seat.old).mark ≢ (pass_of seat.old).seats }
    requires births { (k : ℕ) (set : EndSettings) → get_elem? (pass_of seat.old).births k ≡ some set → slice_get ids.now k ≡ Some set.id }
    requires lawful { AreLawful set.now }
    requires set { set.now ≡ interface.old.settings }
    ensures idle { IsIdle (table_in places.now) seat.new.token }
    ensures turn { WorkTurns work.now interface.old interface.new (pass_of seat.old) (pass_of seat.new) result }
    ensures why { WhyTurned ids.now work.now interface.old (pass_of seat.old) (pass_of seat.new) result }
    ensures ranged { IfMade result (IsRanged set.now work.now) }
{
    if !fits_here(interface, set, work) {
        return InterfaceTurn::NotYet;
    }
    match interface.needs(work) {
        None => alone_turn(interface, set, work),
        Some(end) => with_turn(places, seat, ids, interface, set, work, end),
    }
}
