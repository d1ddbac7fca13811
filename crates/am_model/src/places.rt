//! Where an endpoint lies: tests on its place.

ghost use Rattle.am_model.specs.Endpoint.{is_in_a_frame, is_on_disk, is_on_host, is_resident};
ghost use Rattle.am_model.specs.History.{is_in_frame};
ghost use Rattle.std.specs.Prelude.{◌≡◌};

use am_office_entries::Place;

/// Whether an endpoint that lies there takes messages and sends them: in a frame of its node, or in the direct network.
pub fn is_resident(place: Place) -> bool
    ensures { result ≡ is_resident place }
{
    match place {
        Place::Frame(_) | Place::Direct => true,
        Place::Host | Place::Disk => false,
    }
}

/// Whether it is on disk.
pub fn is_on_disk(place: Place) -> bool
    ensures { result ≡ is_on_disk place }
{
    match place {
        Place::Disk => true,
        Place::Host | Place::Frame(_) | Place::Direct => false,
    }
}

/// Whether it is on the host: in memory, and in no frame.
pub fn is_on_host(place: Place) -> bool
    ensures { result ≡ is_on_host place }
{
    match place {
        Place::Host => true,
        Place::Disk | Place::Frame(_) | Place::Direct => false,
    }
}

/// Whether it is a frame, whichever.
pub fn is_in_a_frame(place: Place) -> bool
    ensures { result ≡ is_in_a_frame place }
{
    match place {
        Place::Frame(_) => true,
        Place::Host | Place::Disk | Place::Direct => false,
    }
}

/// Whether it is the frame of its node with this number.
pub fn is_in_frame(frame: u8, place: Place) -> bool
    ensures { result ≡ is_in_frame frame place }
{
    match place {
        Place::Frame(other) => frame == other,
        Place::Host | Place::Disk | Place::Direct => false,
    }
}
