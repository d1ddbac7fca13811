//! Why a script has no report.

use am_office_entries::{Condition, Part};
use am_scenario::ScenarioFault;
use thiserror::Error;

/// Why the lines of a step script made no report.
#[derive(Clone, Copy, PartialEq, Eq, Debug, Error)]
pub enum StepFault {
    /// The text spells no scenario: its first fault.
    #[error("the text spells no scenario")]
    Scenario(ScenarioFault),
    /// The event of this line can't happen where it stands: the first condition that doesn't hold.
    #[error("the step of line {line} can't happen")]
    NotEnabled { line: u32, condition: Condition },
    /// This log has as many entries as it may, and the next step's entry would go into it.
    #[error("a log is full")]
    LogFull(Part),
    /// There is no memory.
    #[error("there is no memory")]
    NoMemory,
}
