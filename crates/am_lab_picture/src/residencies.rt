//! Where an endpoint lies.

ghost use Rattle.am_lab_picture.specs.Residencies as residencies;
ghost use Rattle.std.specs.Prelude.{◌≡◌};

use crate::data::Residency;
use am_office_entries::Place;

/// Where an endpoint lies, and in a frame whether it drains (`residency_of` of specs/Residencies).
pub fn residency_of(place: Place, draining: bool) -> Residency
    ensures { result ≡ residencies.residency_of place draining }
{
    match place {
        Place::Direct => Residency::Direct,
        Place::Frame(frame) if draining => Residency::Draining(frame),
        Place::Frame(frame) => Residency::Frame(frame),
        Place::Host => Residency::Host,
        Place::Disk => Residency::Disk,
    }
}

/// Whether two are the same (`same_residency` of specs/Residencies).
pub(crate) fn is_same_residency(a: Residency, b: Residency) -> bool
    ensures { result ≡ residencies.same_residency a b }
{
    match (a, b) {
        (Residency::Direct, Residency::Direct)
        | (Residency::Host, Residency::Host)
        | (Residency::Disk, Residency::Disk) => true,
        (Residency::Frame(x), Residency::Frame(y))
        | (Residency::Draining(x), Residency::Draining(y)) => x == y,
        _ => false,
    }
}
