//! What the turns of a driver answer.
use am_names::EndpointId;
use am_office_entries::Entry;
use thiserror::Error;

/// What a turn of a driver did.
#[derive(Clone, Copy)]
pub enum DriverTurn {
    /// It made a move, with this entry.
    Did(Entry),
    /// A seat is inside an endpoint: the one with this number, from 0.
    Busy { holder: u8 },
    /// The move that the rules gave is no longer the one that they give.
    Stale(EndpointId),
    /// The last stamp of the endpoint, or the clock, is 2^63 or more.
    Spent(EndpointId),
    /// No rule applies.
    Nothing,
}

/// Why a driver makes no further turn.
#[derive(Clone, Copy, Debug, Error)]
pub enum DriverFault {
    /// The log of the endpoint that is to be moved has as many entries as it may.
    #[error("the endpoint's log is full")]
    LogFull(EndpointId),
    /// There is no memory for the move.
    #[error("there is no memory for the move")]
    NoMemory,
}
