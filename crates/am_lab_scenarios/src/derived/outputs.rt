//! What is printed of a scenario.

ghost use Rattle.std.specs.Prelude.{IfOk};
ghost use Rattle.am_lab_scenarios.specs.Derived.Answers.{PrintsScenario};
ghost use Rattle.am_main_lines.specs.Lines.{answer_in};
ghost use Rattle.am_scenario_types.specs.Lawful.{IsLawful, IsOfForm};
ghost use Rattle.am_scenario_types.specs.declared.parts.Form.TheVariants.{Run};

use crate::spelling::scenario_text;
use am_main_lines::Output;
use am_names::NoMemory;
use am_scenario_types::Scenario;
use std::alloc::Global;

/// The text of a scenario of a run.
#[tactic(auto, using(crate::proofs::Printing::scenario_is_printed))]
pub fn printed(alloc: Global, scenario: &Scenario) -> Result<Output, NoMemory>
    requires lawful { IsLawful scenario.now }
    requires of_form { IsOfForm Run scenario.now }
    ensures { IfOk result (λ output. PrintsScenario scenario.now (answer_in output)) }
{
    let text = scenario_text(alloc, scenario)?;
    Ok(Output { status: 0, text })
}
