//! The command `scenario`.

ghost use Rattle.am_lab_scenarios.specs.Spelling.Texts as texts;
ghost use Rattle.am_lab_scenarios.specs.Texts.Scenarios.{ScenarioAnswers};
ghost use Rattle.am_main_lines.specs.Lines.{answer_in, refusal};
ghost use Rattle.std.specs.Prelude.{◌≡◌, IfOk};

use crate::spelling::scenario_text;
use am_main_lines::{Output, fault_output};
use am_names::NoMemory;
use am_scenario::{Form, ReadFault, Scenario, ScenarioFault, read};
use std::alloc::Global;

// A scenario, printed.
fn printed(alloc: Global, scenario: &Scenario) -> Result<Output, NoMemory>
    ensures { IfOk result (λ o. answer_in o ≡ record { status = 0; text = texts.scenario_text scenario.now }) }
{
    let text = scenario_text(alloc, scenario)?;
    Ok(Output { status: 0, text })
}

// The first fault of a text, told.
fn refused(alloc: Global, fault: ScenarioFault) -> Result<Output, NoMemory>
    ensures { IfOk result (λ o. answer_in o ≡ refusal fault) }
{
    let output = fault_output(alloc, fault)?;
    Ok(output)
}

/// What `scenario` prints of a text: the scenario of this form that it spells, every setting with its number and without
/// comments, or with status 3 its first fault. What is printed spells the scenario again, its steps with the lines that
/// they have there, and printed again it is the same.
///
/// `NoMemory` comes where there is none for the scenario or for the text.
#[tactic(auto, using(crate::proofs::TextsPrinted::says_printed, crate::proofs::TextsPrinted::says_refused))]
pub fn scenario_output(alloc: Global, form: Form, bytes: &[u8]) -> Result<Output, NoMemory>
    ensures { IfOk result (λ o. ScenarioAnswers form bytes.now (answer_in o)) }
{
    match read(alloc, form, bytes) {
        Ok(scenario) => printed(alloc, &scenario),
        Err(ReadFault::Refused(fault)) => refused(alloc, fault),
        Err(ReadFault::NoMemory) => Err(NoMemory),
    }
}
