//! A scenario with a plan that a seed draws.

ghost use Rattle.std.specs.Prelude.{◌≤◌, IfOk};
ghost use Rattle.am_lab_scenarios.specs.Faults.Plans.{with_drawn_plan};
ghost use Rattle.am_lab_scenarios.specs.Derived.Answers.{FaultsAnswers, PrintsScenario};
ghost use Rattle.am_main_lines.specs.Lines.{answer_in};
ghost use Rattle.am_scenario.specs.Grammar.{grammar};
ghost use Rattle.am_scenario_types.specs.Lawful.{IsLawful, IsOfForm};
ghost use Rattle.am_scenario_types.specs.declared.parts.Form.TheVariants.{Run};

use crate::derived::outputs::printed;
use crate::faults::draw_plan;
use am_main_lines::{Output, fault_output};
use am_names::NoMemory;
use am_scenario::{Form, ReadFault, Scenario, read};
use std::alloc::Global;

// A scenario with the plan that a seed draws, printed.
fn printed_with_plan(
    alloc: Global,
    seed: u64,
    percent: u8,
    scenario: Scenario,
) -> Result<Output, NoMemory>
    requires percent { percent ≤ 100 }
    requires lawful { IsLawful scenario }
    requires of_form { IsOfForm Run scenario }
    ensures { IfOk result (λ output. PrintsScenario (with_drawn_plan seed percent scenario) (answer_in output)) }
{
    let mut drawn = scenario;
    draw_plan(alloc, seed, percent, &mut drawn)?;
    printed(alloc, &drawn)
}

/// The scenario of a run that a text spells, with the plan that a seed draws in place of its own, as a text that spells it for `am2 run`;
/// the status is 0. About `percent` in a hundred, 0 to 100, of each link's first packets are lost, repeated or late, and the rest is as it
/// was. A text that spells no scenario is answered as `am2 run` does: its first fault, with status 3. `NoMemory` comes only for want of
/// memory, and leaves nothing of the text.
pub fn faulty_scenario(
    alloc: Global,
    seed: u64,
    percent: u8,
    bytes: &[u8],
) -> Result<Output, NoMemory>
    requires percent { percent ≤ 100 }
    ensures { IfOk result (λ output. FaultsAnswers seed percent (grammar Run bytes.now) (answer_in output)) }
{
    match read(alloc, Form::Run, bytes) {
        Ok(scenario) => printed_with_plan(alloc, seed, percent, scenario),
        Err(ReadFault::Refused(fault)) => Ok(fault_output(alloc, fault)?),
        Err(ReadFault::NoMemory) => Err(NoMemory),
    }
}
