//! The text of a scenario.

ghost use Rattle.std.specs.Prelude.{◌≡◌, ◌++◌, IfOk, OnOk, codes};
ghost use Rattle.std.specs.List.{flat_map};
ghost use Rattle.am_scenario_types.specs.declared.parts.Form.{Form};
ghost use Rattle.am_scenario_types.specs.declared.parts.Form.TheVariants.{Run};
ghost use Rattle.am_scenario_types.specs.Lawful.{IsLawful, IsOfForm};
ghost use Rattle.am_scenario.specs.Laws.{Spells};
ghost use Rattle.am_lab_scenarios.specs.Spelling.Texts as text;
ghost use Rattle.am_lab_scenarios.specs.Spelling.Texts.{as_printed};
ghost use Rattle.am_lab_scenarios.specs.Spelling.Laws.{PrintedRunsAreRead, PrintedScenariosAreRead};

use crate::spelling::lines::{
    network_word, put_bundle_line, put_call_line, put_end_line, put_plan_line, put_setting,
    put_step_line, put_swap_fault_line, put_thread_line,
};
use am_names::NoMemory;
use am_office_text::LinePiece::Text;
use am_office_text::put_line;
use am_scenario_types::{
    Bundle, EndLine, FaultLine, PlanLine, Scenario, ScriptCall, StepLine, ThreadLine,
};
use std::alloc::{AllocError, Global};

fn version_number(pool: Option<u8>) -> u32
    ensures { result ≡ text.version_number pool }
{
    match pool {
        None => 1,
        Some(_) => 2,
    }
}

fn put_pool(out: &mut Vec<u8>, pool: Option<u8>) -> Result<(), AllocError>
    ensures { OnOk result (out.new.items ≡ out.old.items ++ text.pool_line pool) }
{
    match pool {
        None => Ok(()),
        Some(pool) => put_setting(out, "pool", u32::from(pool)),
    }
}

#[tactic(auto, using(std::proofs::Common::append_assoc), unfolding(crate::specs::Spelling::Texts::number_lines))]
fn put_numbers(out: &mut Vec<u8>, scenario: &Scenario) -> Result<(), AllocError>
    ensures { OnOk result (out.new.items ≡ out.old.items ++ text.number_lines scenario.now) }
{
    put_setting(out, "nodes", u32::from(scenario.nodes))?;
    put_setting(out, "frames", u32::from(scenario.frames))?;
    put_setting(out, "channels", u32::from(scenario.channels))?;
    put_setting(out, "tries", u32::from(scenario.tries))?;
    put_setting(out, "bounces", u32::from(scenario.bounces))?;
    put_setting(out, "keep", u32::from(scenario.keep))?;
    put_setting(out, "log", scenario.log)?;
    put_setting(out, "turns", scenario.turns)
}

#[tactic(auto, using(std::proofs::Common::append_assoc), unfolding(crate::specs::Spelling::Texts::setting_lines))]
pub fn put_settings(out: &mut Vec<u8>, scenario: &Scenario) -> Result<(), AllocError>
    ensures { OnOk result (out.new.items ≡ out.old.items ++ text.setting_lines scenario.now) }
{
    put_setting(out, "am2", version_number(scenario.pool))?;
    put_line(out, "network", &[Text(network_word(scenario.network))])?;
    put_numbers(out, scenario)?;
    put_pool(out, scenario.pool)
}

pub fn put_ends(out: &mut Vec<u8>, ends: &[EndLine]) -> Result<(), AllocError>
    ensures { OnOk result (out.new.items ≡ out.old.items ++ flat_map text.end_line ends.now) }
{
    for end in ends {
        put_end_line(out, end)?;
    }
    Ok(())
}

pub fn put_bundles(out: &mut Vec<u8>, bundles: &[Bundle]) -> Result<(), AllocError>
    ensures { OnOk result (out.new.items ≡ out.old.items ++ flat_map text.bundle_line bundles.now) }
{
    for bundle in bundles {
        put_bundle_line(out, bundle)?;
    }
    Ok(())
}

pub fn put_threads(out: &mut Vec<u8>, threads: &[ThreadLine]) -> Result<(), AllocError>
    ensures { OnOk result (out.new.items ≡ out.old.items ++ flat_map text.thread_line threads.now) }
{
    for thread in threads {
        put_thread_line(out, thread)?;
    }
    Ok(())
}

fn put_plan(out: &mut Vec<u8>, plan: &[PlanLine]) -> Result<(), AllocError>
    ensures { OnOk result (out.new.items ≡ out.old.items ++ flat_map text.plan_line plan.now) }
{
    for planned in plan {
        put_plan_line(out, planned)?;
    }
    Ok(())
}

pub fn put_faults(out: &mut Vec<u8>, faults: &[FaultLine]) -> Result<(), AllocError>
    ensures { OnOk result (out.new.items ≡ out.old.items ++ flat_map text.swap_fault_line faults.now) }
{
    for fault in faults {
        put_swap_fault_line(out, fault)?;
    }
    Ok(())
}

#[tactic(auto, using(std::proofs::Common::append_assoc), unfolding(crate::specs::Spelling::Texts::declared_lines))]
fn put_declared(out: &mut Vec<u8>, scenario: &Scenario) -> Result<(), AllocError>
    ensures { OnOk result (out.new.items ≡ out.old.items ++ text.declared_lines scenario.now) }
{
    put_ends(out, &scenario.ends)?;
    put_bundles(out, &scenario.bundles)?;
    put_threads(out, &scenario.threads)?;
    put_plan(out, &scenario.plan)?;
    put_faults(out, &scenario.faults)
}

fn put_script(out: &mut Vec<u8>, script: &[ScriptCall]) -> Result<(), NoMemory>
    ensures { OnOk result (out.new.items ≡ out.old.items ++ flat_map text.call_line script.now) }
{
    for made in script {
        put_call_line(out, made)?;
    }
    Ok(())
}

fn put_steps(out: &mut Vec<u8>, steps: &[StepLine]) -> Result<(), NoMemory>
    ensures { OnOk result (out.new.items ≡ out.old.items ++ flat_map text.step_line steps.now) }
{
    for step in steps {
        put_step_line(out, step)?;
    }
    Ok(())
}

#[tactic(auto, using(std::proofs::Common::append_assoc), unfolding(crate::specs::Spelling::Texts::scenario_text))]
fn put_scenario(out: &mut Vec<u8>, scenario: &Scenario) -> Result<(), NoMemory>
    ensures { OnOk result (out.new.items ≡ out.old.items ++ text.scenario_text scenario.now) }
{
    put_settings(out, scenario)?;
    put_declared(out, scenario)?;
    put_script(out, &scenario.script)?;
    put_steps(out, &scenario.steps)
}

/// The text of a scenario, in one form and without comments: its version, every setting with its number, the endpoints, bundles,
/// threads, plan and swap faults, and a line for each call of a thread or each step (`scenario_text` of `specs/Texts.antt`).
/// The text of a lawful scenario spells it; but each step has the number of the line in which the text has it (`as_printed`), so a run's text spells it
/// exactly.
/// Where there is no memory the answer is `NoMemory`, and nothing is left of the text.
pub fn scenario_text(alloc: Global, scenario: &Scenario) -> Result<Vec<u8>, NoMemory>
    ensures exact { IfOk result (λ bytes. bytes.items ≡ text.scenario_text scenario.now) }
    ensures spells { IfOk result (λ bytes. (form : Form) → IsLawful scenario.now → IsOfForm form scenario.now → Spells form bytes.items (as_printed scenario.now)) }
    ensures spells_run { IfOk result (λ bytes. IsLawful scenario.now → IsOfForm Run scenario.now → Spells Run bytes.items scenario.now) }
{
    let mut out = Vec::new(alloc);
    put_scenario(&mut out, scenario)?;
    Ok(out)
}

/// The text of each lawful scenario spells it, its steps with the lines that they have there.
pub fn printed_scenarios_are_read()
    ensures scenarios { PrintedScenariosAreRead }
    ensures runs { PrintedRunsAreRead }
{}
