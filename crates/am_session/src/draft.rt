//! What the lines so far have said.

ghost use Rattle.am_session.specs.Grammar.{nothing, with_line};
ghost use Rattle.std.specs.Prelude.{◌≡◌, OnOk};

use crate::script::SessionStep;
use am_restart::SessionEvent;
use std::alloc::{AllocFailed, Global};
use std::marker::Model;

/// What one line says.
#[derive(Clone, Copy)]
pub(crate) enum Line {
    /// The text is one of a session.
    Session,
    /// How many tries a message has.
    Tries(u8),
    Event(SessionEvent),
}

/// What the lines so far have said.
#[derive(Drop)]
pub(crate) struct Draft {
    /// The section of the last line that said something, 1 to 3, or 0.
    pub(crate) section: u8,
    pub(crate) tries: Option<u8>,
    pub(crate) steps: Vec<SessionStep>,
}

impl Model for Draft {
    ghost use Rattle.am_session.specs.Scripts.{Said};

    ghost Value = { Said };

    ghost view = { λ d. record { section = d.section; tries = d.tries; steps = d.steps.items } };
}

impl Draft {
    pub(crate) fn new(alloc: Global) -> Draft
        ensures { result ≡ nothing }
    {
        Draft {
            section: 0,
            tries: None,
            steps: Vec::new(alloc),
        }
    }

    /// Adds what a line of this section says.
    pub(crate) fn add(
        &mut self,
        number: u32,
        section: u8,
        line: Line,
    ) -> Result<(), AllocFailed<SessionStep>>
        ensures { OnOk result (self.new ≡ with_line number section self.old line) }
    {
        match line {
            Line::Session => {}
            Line::Tries(tries) => self.tries = Some(tries),
            Line::Event(event) => self.steps.push(SessionStep {
                line: number,
                event,
            })?,
        }
        self.section = section;
        Ok(())
    }
}
