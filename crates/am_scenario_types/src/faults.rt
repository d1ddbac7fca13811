//! Why a text spells no scenario.

ghost use Rattle.std.specs.Prelude.{◌≡◌};
ghost use Rattle.am_scenario_types.specs.declared.faults.ReadFault.TheVariants.{NoMemory};

use am_lexer::What;
use std::alloc::{AllocError, AllocFailed};
use thiserror::Error;

/// Where a text spells no scenario, and why.
#[derive(Clone, Copy, PartialEq, Eq, Debug, Error)]
#[error("the text spells no scenario: line {line}")]
pub struct ScenarioFault {
    /// The line, from 1; one more than there are lines where something is missing after the last.
    pub line: u32,
    pub what: What,
}

/// Why no scenario was read.
#[derive(Clone, Copy, PartialEq, Eq, Debug, Error)]
pub enum ReadFault {
    /// The text spells none.
    #[error("the text spells no scenario")]
    Refused(ScenarioFault),
    /// There was no memory.
    #[error("there is no memory for the scenario")]
    NoMemory,
}

impl From<AllocError> for ReadFault {
    ghost from_gives = { λ _ e. e ≡ NoMemory };

    fn from(_e: AllocError) -> ReadFault {
        ReadFault::NoMemory
    }
}

impl<T: Drop> From<AllocFailed<T>> for ReadFault {
    ghost from_gives = { λ _ e. e ≡ NoMemory };

    fn from(_e: AllocFailed<T>) -> ReadFault {
        ReadFault::NoMemory
    }
}
