//! The events of a script, one after the other.

ghost use Rattle.am_session.specs.Plays.{IsStoppedBy, played};
ghost use Rattle.am_session.specs.Scripts.{IsPlayable};
ghost use Rattle.std.specs.Prelude.{◌≡◌, IfOk};

use crate::script::SessionScript;
use crate::stops::Stop;
use am_names::NoMemory;
use am_restart::{Session, SessionEntry, SessionFault};
use std::alloc::Global;
use std::marker::Model;

/// The entries of the events that happened, and what stopped the next one, if anything did.
#[derive(Drop)]
pub struct Played {
    pub entries: Vec<SessionEntry>,
    pub stopped: Option<Stop>,
}

impl Model for Played {
    ghost use Rattle.am_session.specs.Plays.{Played};

    ghost Value = { Played };

    ghost view = { λ p. record { entries = p.entries.items; stopped = p.stopped } };
}

// The entries so far, where the event of this line can't happen.
fn stopped(entries: Vec<SessionEntry>, line: u32, fault: SessionFault) -> Result<Played, NoMemory>
    ensures { IfOk result (IsStoppedBy fault line entries.items) }
{
    match fault {
        SessionFault::NotEnabled(condition) => Ok(Played {
            entries,
            stopped: Some(Stop { line, condition }),
        }),
        SessionFault::NoMemory => Err(NoMemory),
    }
}

/// Applies the events of a script in order, up to the first that can't happen (`specs/Plays.antt`). Where there is no memory it
/// answers `NoMemory`.
pub fn play(alloc: Global, script: &SessionScript) -> Result<Played, NoMemory>
    requires { IsPlayable script.now }
    ensures { IfOk result (λ made. made ≡ played script.now) }
{
    let mut session = Session::new(alloc, script.tries);
    let mut entries = Vec::new(alloc);
    for step in &script.steps {
        match session.apply(&step.event) {
            Ok(entry) => entries.push(entry)?,
            Err(fault) => return stopped(entries, step.line, fault),
        }
    }
    Ok(Played {
        entries,
        stopped: None,
    })
}
