//! What a text spells.

ghost use Rattle.am_session.specs.declared.script.LineFault.TheVariants as faults;
ghost use Rattle.std.specs.Prelude.{◌≡◌};

use am_lexer::What;
use am_restart::SessionEvent;
use std::alloc::AllocFailed;
use std::marker::Model;
use thiserror::Error;

/// An event, and the line in which it stands, from 1.
#[derive(Clone, Copy, PartialEq, Eq)]
pub struct SessionStep {
    pub line: u32,
    pub event: SessionEvent,
}

/// The events of a session in order, and how many tries a message has.
#[derive(Drop)]
pub struct SessionScript {
    pub tries: u8,
    pub steps: Vec<SessionStep>,
}

impl Model for SessionScript {
    ghost use Rattle.am_session.specs.Scripts.{Script};

    ghost Value = { Script };

    ghost view = { λ s. record { tries = s.tries; steps = s.steps.items } };
}

/// Where a text spells no session, and why.
#[derive(Clone, Copy, PartialEq, Eq, Debug, Error)]
#[error("the text spells no session: line {line}")]
pub struct SessionTextFault {
    /// The line, from 1; one more than there are lines where something is missing after the last.
    pub line: u32,
    pub what: What,
}

/// Why no session was read.
#[derive(Clone, Copy, PartialEq, Eq, Debug, Error)]
pub enum SessionReadFault {
    /// The text spells none.
    #[error("the text spells no session")]
    Refused(SessionTextFault),
    /// There was no memory.
    #[error("there is no memory for the session")]
    NoMemory,
}

/// Why a line was not taken.
#[derive(Clone, Copy)]
pub(crate) enum LineFault {
    What(What),
    NoMemory,
}

impl From<What> for LineFault {
    ghost from_gives = { λ what e. e ≡ faults.What what };

    fn from(what: What) -> LineFault {
        LineFault::What(what)
    }
}

impl<T: Drop> From<AllocFailed<T>> for LineFault {
    ghost from_gives = { λ _ e. e ≡ faults.NoMemory };

    fn from(_e: AllocFailed<T>) -> LineFault {
        LineFault::NoMemory
    }
}
