//! What is wrong with a report.

use am_office_entries::{Condition, Part};
use am_scenario::ScenarioFault;
use thiserror::Error;

/// What is wrong with a line of a report.
#[derive(Clone, Copy, PartialEq, Eq, Debug)]
pub enum CheckWhat {
    /// It isn't there, or it is no line that may stand there.
    Form,
    /// Its event isn't enabled: the first condition that does not hold.
    NotEnabled(Condition),
    /// It isn't the line that the machine gives for its event.
    Outcome,
    /// Its event isn't one that the scenario lets come here; or the journal ends before the scenario's does.
    Follows,
    /// It isn't the line of the report of the journal above it.
    Tail,
}

/// Why a report isn't one of a journal that follows its scenario. Lines of the report are counted from 1; a number stands
/// still at 2^32-1.
#[derive(Clone, Copy, PartialEq, Eq, Debug, Error)]
pub enum CheckStop {
    /// The text in front of the report spells no scenario: its first fault.
    #[error("the text in front of the report spells no scenario")]
    Scenario(ScenarioFault),
    /// The first line of the report that has a fault.
    #[error("a line of the report has a fault")]
    Fault { line: u32, what: CheckWhat },
    /// The event of the next line is enabled, and the log of this part, which its entry would go into, has as many entries
    /// as it may.
    #[error("the log of a part is full")]
    LogFull(Part),
    /// There is no memory for the check.
    #[error("there is no memory for the check")]
    NoMemory,
}

/// Why a line of the journal does not pass.
#[derive(Clone, Copy)]
pub(crate) enum LineStop {
    What(CheckWhat),
    LogFull(Part),
    NoMemory,
}
