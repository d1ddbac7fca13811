//! What one line says.

ghost use Rattle.std.specs.Prelude.{◌≡◌};
ghost use Rattle.am_scenario.specs.Drafts.Faults.{at_line};
ghost use Rattle.am_scenario.specs.declared.drafts.line.LineFault.TheVariants as faults;

use crate::drafts::settings::{Setting, Version};
use am_names::{EndpointId, NoMemory};
use am_office_entries::{Call, Event};
use am_scenario_types::{
    Bundle, EndLine, FaultLine, PlanLine, ReadFault, ScenarioFault, ScriptCall, ThreadLine, What,
};
use std::alloc::{AllocError, AllocFailed};
use std::marker::Model;
use thiserror::Error;

/// Calls on endpoints, in order.
#[derive(Drop)]
pub struct Calls {
    pub list: Vec<(EndpointId, Call)>,
}

impl Model for Calls {
    ghost use Rattle.std.specs.Prelude.{List};
    ghost use Rattle.am_names.specs.declared.EndpointId.{EndpointId};
    ghost use Rattle.am_office_entries.specs.declared.Call.{Call};

    ghost Value = { List (EndpointId × Call) };

    ghost view = { λ c. c.list.items };
}

/// What a line says.
#[derive(Drop)]
pub enum Line {
    Version(Version),
    Setting(Setting),
    End(EndLine),
    Bundle(Bundle),
    Thread(ThreadLine),
    Plan(PlanLine),
    Fault(FaultLine),
    /// A thread makes a call.
    Call(ScriptCall),
    /// A thread makes a bundle's calls.
    Calls { thread: u8, calls: Calls },
    Step(Event),
}

/// Why a line was not taken.
#[derive(Clone, Copy, Debug, Error)]
pub enum LineFault {
    #[error("the line spells nothing of a scenario")]
    What(What),
    #[error("there is no memory for the line")]
    NoMemory,
}

impl LineFault {
    /// The fault of the text whose line with this number has it.
    pub fn at_line(self, line: u32) -> ReadFault
        ensures { result ≡ at_line line self }
    {
        match self {
            LineFault::What(what) => ReadFault::Refused(ScenarioFault { line, what }),
            LineFault::NoMemory => ReadFault::NoMemory,
        }
    }
}

impl From<What> for LineFault {
    ghost from_gives = { λ what e. e ≡ faults.What what };

    fn from(what: What) -> LineFault {
        LineFault::What(what)
    }
}

impl From<AllocError> for LineFault {
    ghost from_gives = { λ _ e. e ≡ faults.NoMemory };

    fn from(_e: AllocError) -> LineFault {
        LineFault::NoMemory
    }
}

impl From<NoMemory> for LineFault {
    ghost from_gives = { λ _ e. e ≡ faults.NoMemory };

    fn from(_e: NoMemory) -> LineFault {
        LineFault::NoMemory
    }
}

impl<T: Drop> From<AllocFailed<T>> for LineFault {
    ghost from_gives = { λ _ e. e ≡ faults.NoMemory };

    fn from(_e: AllocFailed<T>) -> LineFault {
        LineFault::NoMemory
    }
}
