//! The scenario that a seed is tried with.

ghost use Rattle.am_lab_schedules.specs.Trials.{StandsFor, tried};
ghost use Rattle.am_scenario_types.specs.Lawful.{IsLawful, IsOfForm};
ghost use Rattle.am_scenario_types.specs.declared.parts.Form.TheVariants.{Run};
ghost use Rattle.std.specs.Prelude.{◌≡◌, ◌≤◌, IfSome, OnOk};

use am_lab_scenarios::faults::draw_plan;
use am_scenario::Scenario;
use std::alloc::{AllocError, Global};

// Gives a scenario the plan that a seed draws, where one is to be drawn.
fn draw(
    alloc: Global,
    scenario: &mut Scenario,
    seed: u64,
    faults: Option<u8>,
) -> Result<(), AllocError>
    requires percent { IfSome faults (λ percent. percent ≤ 100) }
    requires lawful { IsLawful scenario.old }
    requires of_form { IsOfForm Run scenario.old }
    ensures exact { OnOk result (scenario.new ≡ tried faults seed scenario.old) }
    ensures lawful { OnOk result (IsLawful scenario.new) }
    ensures of_form { OnOk result (IsOfForm Run scenario.new) }
{
    match faults {
        Some(percent) => draw_plan(alloc, seed, percent, scenario),
        None => Ok(()),
    }
}

/// Makes a scenario the one that a seed is tried with: where a plan is to be drawn, of so many packets in a hundred, 0 to 100, the seed's
/// plan takes the place of the one that the scenario has. What was drawn before is of no account. `AllocError` comes only for want of
/// memory.
#[tactic(auto, using(crate::proofs::Trying::tried_stands))]
pub(crate) fn prepare(
    alloc: Global,
    scenario: &mut Scenario,
    seed: u64,
    faults: Option<u8>,
) -> Result<(), AllocError>
    requires percent { IfSome faults (λ percent. percent ≤ 100) }
    requires lawful { IsLawful scenario.old }
    requires of_form { IsOfForm Run scenario.old }
    ensures exact { OnOk result (scenario.new ≡ tried faults seed scenario.old) }
    ensures stands { OnOk result (StandsFor faults scenario.old scenario.new) }
{
    draw(alloc, scenario, seed, faults)
}
