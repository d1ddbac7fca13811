//! What stops a session.

use am_restart::SessionCondition;

/// The line of the first event that can't happen where it stands, and its first condition that fails.
#[derive(Clone, Copy, PartialEq, Eq)]
pub struct Stop {
    pub line: u32,
    pub condition: SessionCondition,
}
