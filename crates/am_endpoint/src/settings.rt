//! Why an endpoint did not make a call.

use thiserror::Error;

/// Why a logged call did nothing.
#[derive(Clone, Copy, PartialEq, Eq, Debug, Error)]
pub enum EndFault {
    /// The log has as many entries as it may.
    #[error("the endpoint's log is full")]
    LogFull,
    /// There is no memory for one more entry.
    #[error("there is no memory for one more entry")]
    NoMemory,
}
