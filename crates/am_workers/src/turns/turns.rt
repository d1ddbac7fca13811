//! What the turns of the workers answer.
use am_iface::Turned;
use am_office_entries::Entry;

/// What a turn of an application thread did.
#[derive(Clone, Copy)]
pub enum ThreadTurn {
    /// It made its call.
    Made(Entry),
    /// The endpoint is on disk, and is wanted now.
    Wanted(Entry),
    /// Another seat is inside.
    Busy { holder: u8 },
    /// The endpoint is on disk, and was wanted.
    Waits,
    /// The endpoint's log has as many entries as it may.
    Full,
    /// A stamp is 2^63 or more.
    Spent,
    NoMemory,
}

/// What a turn of an interface with an endpoint did.
#[derive(Clone, Copy)]
pub enum InterfaceTurn {
    Made(Turned),
    Busy { holder: u8 },
    /// A test of the call that it would make fails, or the work can't be done.
    NotYet,
    /// A log has as many entries as it may.
    Full,
    NoMemory,
}
