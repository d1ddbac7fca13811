//! The scenario of a number.

ghost use Rattle.std.specs.Prelude.{IfOk};
ghost use Rattle.am_lab_scenarios.specs.Derived.Answers.{PrintsScenario};
ghost use Rattle.am_main_lines.specs.Lines.{answer_in};
ghost use Rattle.am_scenario_generator.specs.Scenarios.{generated};

use crate::derived::outputs::printed;
use am_main_lines::Output;
use am_names::NoMemory;
use am_scenario_generator::generate;
use std::alloc::Global;

/// The scenario that `am2 make` runs for a number, 0 to 2^64-1, as a text that spells it for `am2 run`; the status is
/// 0. `NoMemory` comes only for want of memory, and leaves nothing of the text.
#[tactic(auto, using(crate::proofs::Printing::made_is_printed))]
pub fn made_scenario(alloc: Global, n: u64) -> Result<Output, NoMemory>
    ensures { IfOk result (λ output. PrintsScenario (generated n) (answer_in output)) }
{
    let scenario = generate(alloc, n)?;
    printed(alloc, &scenario)
}
