//! What was due at the line of a report that a check finds wrong: what the machine would have printed there, what the line's event
//! finds for which a condition does not hold, or which events might have come instead.

ghost use Rattle.am_check.specs.Verdict.{AnswersParts, Checks, StopsReport};
ghost use Rattle.am_check.specs.declared.faults.CheckStop.TheVariants as Stops;
ghost use Rattle.am_lab_reasons.specs.Due.Due.{IsBehindJournal, WasDue, WasDueOf, MightCome};
ghost use Rattle.am_scenario.specs.Laws.{Spells};
ghost use Rattle.am_scenario_types.specs.Lawful.{IsLawful, IsOfForm};
ghost use Rattle.am_scenario_types.specs.Lists.{ScenarioLists};
ghost use Rattle.std.specs.Prelude.{◌≡◌, ◌<◌, ◌^◌, Err, IfOk, length};

mod choices;
pub(crate) mod found;
mod texts;
mod told;

pub use crate::due::found::put_head;
use crate::due::told::{due_entry, due_line, found_state, next_events, next_step};
use am_check::{CheckWhat, place_of};
use am_names::NoMemory;
use am_scenario::{Form, ReadFault, Scenario, read};
use std::alloc::Global;

// The events that might have come in place of a line of the report of a scenario.
fn might_come(
    alloc: Global,
    form: Form,
    scenario: &Scenario,
    bytes: &[u8],
    line: u32,
) -> Result<Vec<u8>, NoMemory>
    requires lawful { IsLawful scenario.now }
    requires of_form { IsOfForm form scenario.now }
    requires place { IsBehindJournal form scenario.now bytes.now line }
    ensures { IfOk result (λ out. MightCome form scenario.now bytes.now line out.items) }
{
    match form {
        Form::Step => next_step(alloc, scenario, line),
        Form::Run => next_events(alloc, scenario, bytes, line),
    }
}

// What was due at a line of the report of a scenario.
fn due_of(
    alloc: Global,
    form: Form,
    scenario: &Scenario,
    bytes: &[u8],
    line: u32,
    what: CheckWhat,
) -> Result<Vec<u8>, NoMemory>
    requires lawful { IsLawful scenario.now }
    requires of_form { IsOfForm form scenario.now }
    requires few { length bytes.now < 2 ^ 31 }
    requires stopped { StopsReport form scenario.now bytes.now (Stops.Fault line what) }
    ensures { IfOk result (λ out. WasDueOf form scenario.now bytes.now line what out.items) }
{
    match what {
        CheckWhat::Form => Ok(Vec::new(alloc)),
        CheckWhat::NotEnabled(condition) => found_state(alloc, scenario, bytes, line, condition),
        CheckWhat::Outcome => due_entry(alloc, scenario, bytes, line),
        CheckWhat::Follows => might_come(alloc, form, scenario, bytes, line),
        CheckWhat::Tail => due_line(alloc, scenario, bytes, line),
    }
}

// What was due at a line of the report behind the text of a scenario.
fn due_behind(
    alloc: Global,
    form: Form,
    front: &[u8],
    bytes: &[u8],
    line: u32,
    what: CheckWhat,
) -> Result<Vec<u8>, NoMemory>
    requires few { length bytes.now < 2 ^ 31 }
    requires stopped { AnswersParts form front.now bytes.now (Err (Stops.Fault line what)) }
    ensures { IfOk result (λ out. (s : ScenarioLists) × Spells form front.now s × WasDueOf form s bytes.now line what out.items) }
{
    match read(alloc, form, front) {
        Ok(scenario) => due_of(alloc, form, &scenario, bytes, line, what),
        Err(_) => Err(NoMemory),
    }
}

/// What was due at the line with this number, counted from 1, of the report in a text for which `check` tells this fault: for an
/// outcome the line of the entry that the machine makes, and for the tail the line that should stand there, behind `due`; for an
/// event that isn't enabled what it finds of the part that it names, behind `found`; where another event should come, each that
/// might, behind `next`; and nothing of a line that may not stand there at all.
///
/// `NoMemory` comes where there is none for the journal that is made again, or for the text.
pub fn due(
    alloc: Global,
    form: Form,
    text: &[u8],
    line: u32,
    what: CheckWhat,
) -> Result<Vec<u8>, NoMemory>
    requires few { length text.now < 2 ^ 31 }
    requires stopped { Checks form text.now (Err (Stops.Fault line what)) }
    ensures { IfOk result (λ out. WasDue form text.now line what out.items) }
{
    match place_of(text) {
        Some(place) => due_behind(alloc, form, &text[..place], &text[place..], line, what),
        None => Ok(Vec::new(alloc)),
    }
}
