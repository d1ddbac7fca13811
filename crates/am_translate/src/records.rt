//! The records of the requests whose replies are awaited, in order of acceptance: at most 32, in place.

ghost use Rattle.am_model.specs.Changes.{arrived};
ghost use Rattle.am_model.specs.Endpoint.{waits_for};
ghost use Rattle.am_model.specs.Valid.{has_arrived};
ghost use Rattle.am_names.specs.Names.{same_serial};
ghost use Rattle.std.specs.List.{list_any};
ghost use Rattle.std.specs.Prelude.{◌≡◌, ◌<◌, ◌≤◌, [], ◌∷◌, ◌++◌, length, map, position, remove};

use am_model::Awaited;
use am_names::{EndpointId, Serial};
use std::marker::Model;

/// Contracts see the list of the records.
#[derive(Drop)]
pub(crate) struct Records {
    places: [Awaited; 32],
    count: usize,
}

impl Model for Records {
    ghost use Rattle.std.specs.Prelude.{◌≤◌, List, take};
    ghost use Rattle.am_model.specs.declared.Awaited.{Awaited};

    ghost Value = { List Awaited };

    ghost view = { λ records. take records.count records.places };

    ghost invariant = { λ records. records.count ≤ 32 };
}

/// What stands in the places that hold no record.
const BLANK: Awaited = Awaited {
    index: 0,
    serial: Serial {
        source: EndpointId(0),
        count: 0,
    },
    arrived: false,
};

impl Records {
    pub(crate) fn new() -> Records
        ensures { result ≡ [] }
    {
        Records {
            places: [BLANK; 32],
            count: 0,
        }
    }

    /// These records, in their order.
    pub(crate) fn from_slice(awaited: &[Awaited]) -> Records
        requires { length awaited.now ≤ 32 }
        ensures { result ≡ awaited.now }
    {
        let count = awaited.len();
        let mut places = [BLANK; 32];
        places[..count].copy_from_slice(awaited);
        Records { places, count }
    }

    pub(crate) fn as_slice(&self) -> &[Awaited]
        ensures items { result.now ≡ self.now }
        ensures few { length result.now ≤ 32 }
    {
        &self.places[..self.count]
    }

    pub(crate) fn push(&mut self, newest: Awaited)
        requires { length self.old < 32 }
        ensures { self.new ≡ self.old ++ newest ∷ [] }
    {
        self.places[self.count] = newest;
        self.count += 1;
    }

    /// Takes the record at a place out. Those behind it move up.
    pub(crate) fn remove(&mut self, place: usize)
        requires { place < length self.old }
        ensures { self.new ≡ remove self.old place }
    {
        let count = self.count;
        self.places[place..count].rotate_left(1);
        self.count = count - 1;
    }

    /// Marks the record of a request as arrived.
    pub(crate) fn mark_arrived(&mut self, request: Serial)
        ensures { self.new ≡ map (arrived request) self.old }
    {
        let count = self.count;
        mark(&mut self.places[..count], request);
    }
}

/// Whether the record is of this request.
fn is_of(request: Serial, held: &Awaited) -> bool
    ensures { result ≡ same_serial request held.now.serial }
{
    request == held.serial
}

/// The place of the waiting record of a request.
pub(crate) fn waiting_place(awaited: &[Awaited], request: Serial) -> Option<usize>
    ensures { result ≡ position (waits_for request) awaited.now }
{
    awaited.iter().position(|a| is_of(request, a) && !a.arrived)
}

/// Whether some record of a request waits.
pub(crate) fn some_waits(awaited: &[Awaited], request: Serial) -> bool
    ensures { result ≡ list_any (waits_for request) awaited.now }
{
    awaited.iter().any(|a| is_of(request, a) && !a.arrived)
}

/// The place of the record of a request whose reply has arrived.
pub(crate) fn answered_place(awaited: &[Awaited], request: Serial) -> Option<usize>
    ensures { result ≡ position (has_arrived request) awaited.now }
{
    awaited.iter().position(|a| is_of(request, a) && a.arrived)
}

/// The record, as arrived where it is of this request.
fn as_arrived(request: Serial, a: Awaited) -> Awaited
    ensures { result ≡ arrived request a }
{
    Awaited {
        arrived: a.arrived || request == a.serial,
        ..a
    }
}

fn mark(places: &mut [Awaited], request: Serial)
    ensures { places.new ≡ map (arrived request) places.old }
{
    for a in places.iter_mut() {
        *a = as_arrived(request, *a);
    }
}
