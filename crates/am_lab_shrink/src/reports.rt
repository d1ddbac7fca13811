//! The report of a text, and whether it has a line that begins with some words.

ghost use Rattle.am_lab_schedules.specs.Beginnings.{has_line_with};
ghost use Rattle.am_lab_shrink.specs.Reports.{Answers, IsOnly, TellsWhether, shows, without_turns};
ghost use Rattle.am_main_lines.specs.Lines.{answer_in};
ghost use Rattle.am_main_run.specs.Runs.{IsRunAnswer, RunAnswers};
ghost use Rattle.am_scenario.specs.Grammar.{grammar};
ghost use Rattle.am_scenario_types.specs.Lawful.{IsLawful};
ghost use Rattle.am_scenario_types.specs.declared.parts.Form.TheVariants as Forms;
ghost use Rattle.am_scenario_types.specs.declared.parts.Network.TheVariants as Networks;
ghost use Rattle.std.specs.Prelude.{◌≡◌, IfOk};

use am_cluster::alone;
use am_lab_schedules::beginnings::has_line_with;
use am_lab_schedules::one_seed::schedule_output;
use am_main_lines::{Output, fault_output};
use am_main_run::{ended_output, have_one_answer};
use am_main_step::{step_has_one_answer, step_output};
use am_names::NoMemory;
use am_scenario::{Form, ReadFault, Scenario, read};
use std::alloc::{AllocError, Global};

/// How the report of a text is made.
#[derive(Clone, Copy)]
pub enum Making {
    /// As `step` makes it.
    Steps,
    /// As `run` makes it without turns: what the drain makes of the empty journal.
    Drain,
    /// As `schedule` makes it by this seed.
    Seed(u64),
}

/// The scenario without turns.
fn without_turns(scenario: Scenario) -> Scenario
    ensures { result ≡ record scenario { turns = 0 } }
{
    Scenario {
        turns: 0,
        ..scenario
    }
}

/// What is printed of what the drain makes of the empty journal.
#[tactic(auto, using(am_cluster::proofs::Obeying::alone_is_done, am_cluster::proofs::Obeying::alone_is_stopped))]
fn drained_output(alloc: Global, scenario: &Scenario) -> Result<Output, AllocError>
    requires lawful { IsLawful scenario.now }
    requires packet { scenario.now.network ≡ Networks.Packet }
    ensures { IfOk result (λ output. IsRunAnswer scenario.now (answer_in output)) }
{
    let ended = alone(alloc, scenario);
    ended_output(alloc, scenario, ended)
}

/// What `run` prints of a text without its turns.
#[tactic(auto, using(crate::proofs::Turns::still_lawful))]
fn drain_output(alloc: Global, text: &[u8]) -> Result<Output, AllocError>
    ensures { IfOk result (λ output. RunAnswers (without_turns (grammar Forms.Run text.now)) (answer_in output)) }
{
    match read(alloc, Form::Run, text) {
        Ok(scenario) => drained_output(alloc, &without_turns(scenario)),
        Err(ReadFault::Refused(fault)) => fault_output(alloc, fault),
        Err(ReadFault::NoMemory) => Err(AllocError),
    }
}

/// The answer to a text: its report, or what is wrong with it. There is no other; but of a seed it is one that tells a run by this seed.
pub(crate) fn answer_of(alloc: Global, making: Making, text: &[u8]) -> Result<Output, AllocError>
    ensures answers { IfOk result (λ output. Answers making text.now (answer_in output)) }
    ensures only { IfOk result (λ output. IsOnly making text.now (answer_in output)) }
{
    step_has_one_answer();
    have_one_answer();
    match making {
        Making::Steps => step_output(alloc, text),
        Making::Drain => drain_output(alloc, text),
        Making::Seed(seed) => schedule_output(alloc, text, seed),
    }
}

/// Whether an answer is a report with a line that begins with these words.
#[tactic(auto, unfolding(crate::specs::Reports::shows))]
pub(crate) fn shows(words: &[u8], output: &Output) -> bool
    ensures { result ≡ shows words.now (answer_in output.now) }
{
    output.status == 0 && has_line_with(words, &output.text)
}

/// Whether the report of a text has a line that begins with these words.
#[tactic(auto, using(crate::proofs::Telling::told))]
pub(crate) fn tells(
    alloc: Global,
    making: Making,
    words: &[u8],
    text: &[u8],
) -> Result<bool, NoMemory>
    ensures { IfOk result (λ shown. TellsWhether making words.now text.now shown) }
{
    let output = answer_of(alloc, making, text)?;
    Ok(shows(words, &output))
}
