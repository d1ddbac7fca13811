//! What a cluster does with its endpoints, each found by its place among them.

ghost use Rattle.am_driver_moves.specs.Logs.{kept};
ghost use Rattle.am_machine.specs.Apart.{AreApart, is_at};
ghost use Rattle.am_machine.specs.Ends.{is_of};
ghost use Rattle.am_machine.specs.Carries.{At, ArrivesAt, CarriesFrom, IsReady, carried_at, is_place, least_full};
ghost use Rattle.am_endpoint.specs.View.{state_after};
ghost use Rattle.am_model.specs.Endpoint.{is_on_disk};
ghost use Rattle.std.specs.Prelude.{◌≡◌, ◌<◌, ℕ, length, map, nat_le, OnOk, position, slice_get, true, false};

use am_endpoint::{EndFault, Endpoint};
use am_names::EndpointId;
use am_office_entries::Entry;

/// Whether the endpoint with this number stands at the place.
fn is_at(ends: &[Endpoint], place: usize, id: EndpointId) -> bool
    ensures { result ≡ is_at (slice_get ends.now place) id }
{
    match ends.get(place) {
        Some(end) => id.0 == end.id().0,
        None => false,
    }
}

/// The place of an endpoint among others, wherever it stands.
fn search(ends: &[Endpoint], id: EndpointId) -> Option<usize>
    ensures { result ≡ position (is_of id) ends.now }
{
    ends.iter().position(|end| id.0 == end.id().0)
}

/// The place of an endpoint among others. Mostly it stands at the place of its own number, where it is found in one step.
pub fn place_of(ends: &[Endpoint], id: EndpointId) -> Option<usize>
    requires { AreApart (map kept ends.now) }
    ensures { result ≡ position (is_of id) ends.now }
{
    let own = id.0 as usize;
    if is_at(ends, own, id) {
        Some(own)
    } else {
        search(ends, id)
    }
}

/// Whether it is on disk.
pub fn is_on_disk(end: &Endpoint) -> bool
    ensures { result ≡ is_on_disk (state_after end.now).head.place }
{
    am_model::is_on_disk(end.place())
}

/// Whether the log has as many entries as it may.
pub fn is_full(end: &Endpoint, limit: u32) -> bool
    ensures { result ≡ nat_le limit (length end.now.log) }
{
    end.log().len() >= limit as usize
}

/// The least of two endpoints that are full.
pub fn least_full(
    first: EndpointId,
    is_first_full: bool,
    second: EndpointId,
    is_second_full: bool,
) -> Option<EndpointId>
    ensures { result ≡ least_full first is_first_full second is_second_full }
{
    match (is_first_full, is_second_full) {
        (true, true) => Some(if second.0 < first.0 { second } else { first }),
        (true, false) => Some(first),
        (false, true) => Some(second),
        (false, false) => None,
    }
}

/// Makes room for one more entry at a place.
fn make_room(ends: &mut [Endpoint], place: usize) -> Result<(), EndFault>
    requires { place < length ends.old }
    ensures same { map kept ends.new ≡ map kept ends.old }
    ensures ready { OnOk result (At ends.new place IsReady) }
    ensures others { (k : ℕ) → is_place place k ≡ false → slice_get ends.new k ≡ slice_get ends.old k }
{
    ends[place].room()
}

/// Makes room for one more entry at two places, which may be one.
pub fn room_for_both(ends: &mut [Endpoint], source: usize, dest: usize) -> Result<(), EndFault>
    requires source { source < length ends.old }
    requires dest { dest < length ends.old }
    ensures same { map kept ends.new ≡ map kept ends.old }
    ensures at_source { OnOk result (At ends.new source IsReady) }
    ensures at_dest { OnOk result (At ends.new dest IsReady) }
{
    make_room(ends, source)?;
    if dest == source {
        return Ok(());
    }
    make_room(ends, dest)
}

/// Logs a carry at both places, or at the one where they are one.
pub fn carry_between(ends: &mut [Endpoint], source: usize, dest: usize, entry: Entry)
    requires source { source < length ends.old }
    requires dest { dest < length ends.old }
    requires carries { At ends.old source (CarriesFrom entry) }
    requires arrives { is_place source dest ≡ false → At ends.old dest (ArrivesAt entry) }
    ensures { map kept ends.new ≡ carried_at source dest entry (map kept ends.old) }
{
    ends[source].carry_out(entry);
    if dest != source {
        ends[dest].put(entry);
    }
}
