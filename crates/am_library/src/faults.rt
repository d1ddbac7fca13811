//! Why a round came to nothing.

use crate::runner::RunFault;
use am_library_drafts::DraftFault;
use am_names::NoMemory;
use std::alloc::AllocError;
use thiserror::Error;

/// Why a round came to nothing: what a library meets that drafts a scenario, runs it and looks at its journal.
#[derive(Debug, Drop, Error)]
pub enum RoundFault {
    /// The draft did not take something.
    #[error("the draft did not take something: {0}")]
    Draft(#[from] DraftFault),
    /// The run did not come to its end.
    #[error("the run did not come to its end: {0}")]
    Run(#[from] RunFault),
    /// There is no memory.
    #[error("there is no memory")]
    NoMemory,
}

impl From<NoMemory> for RoundFault {
    fn from(_e: NoMemory) -> RoundFault {
        RoundFault::NoMemory
    }
}

impl From<AllocError> for RoundFault {
    fn from(_e: AllocError) -> RoundFault {
        RoundFault::NoMemory
    }
}
