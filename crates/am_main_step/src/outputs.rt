//! What the command `step` gives to print.

ghost use Rattle.std.specs.Prelude.{◌≡◌, IfOk};
ghost use Rattle.am_main_lines.specs.Lines.{answer_in};
ghost use Rattle.am_main_step.specs.Answer.{not_enabled_line};
ghost use Rattle.am_main_step.specs.Meaning.{StepAnswers, StepHasOneAnswer};
ghost use Rattle.am_scenario.specs.Grammar.{grammar};
ghost use Rattle.am_scenario_types.specs.declared.parts.Form.TheVariants as Forms;

use crate::faults::StepFault;
use crate::steps::step_text;
use am_main_lines::{Output, condition_word, fault_output, full_output};
use am_office_entries::Condition;
use am_office_text::LinePiece::Text;
use am_office_text::{count, put_line};
use std::alloc::{AllocError, Global};

// The line that tells the first step that can't happen.
#[tactic(auto, unfolding(crate::specs::Answer::not_enabled_line))]
fn not_enabled_line(alloc: Global, line: u32, condition: Condition) -> Result<Vec<u8>, AllocError>
    ensures { IfOk result (λ text. text.items ≡ not_enabled_line line condition) }
{
    let mut text = Vec::new(alloc);
    let words = [
        count(line),
        Text("not-enabled"),
        Text(condition_word(condition)),
    ];
    put_line(&mut text, "refused line", &words)?;
    Ok(text)
}

// What is printed of it.
fn not_enabled_output(alloc: Global, line: u32, condition: Condition) -> Result<Output, AllocError>
    ensures { IfOk result (λ output. answer_in output ≡ record { status = 3; text = not_enabled_line line condition }) }
{
    let text = not_enabled_line(alloc, line, condition)?;
    Ok(Output { status: 3, text })
}

/// What `step` prints of a text: the report of the one history that follows its lines; its first step that isn't enabled, or that finds
/// a log full; or the first fault of the text.
#[tactic(auto, using(crate::proofs::Answers::step_reported, crate::proofs::Answers::step_refused, crate::proofs::Answers::step_not_enabled, crate::proofs::Answers::step_full))]
pub fn step_output(alloc: Global, bytes: &[u8]) -> Result<Output, AllocError>
    ensures { IfOk result (λ output. StepAnswers (grammar Forms.Step bytes.now) (answer_in output)) }
{
    match step_text(alloc, bytes) {
        Ok(text) => Ok(Output { status: 0, text }),
        Err(StepFault::Scenario(fault)) => fault_output(alloc, fault),
        Err(StepFault::NotEnabled { line, condition }) => {
            not_enabled_output(alloc, line, condition)
        }
        Err(StepFault::LogFull(part)) => full_output(alloc, part),
        Err(StepFault::NoMemory) => Err(AllocError),
    }
}

/// There is one answer of `step` to a text, and it is the one that the definition of answering computes.
pub fn step_has_one_answer()
    ensures { StepHasOneAnswer }
{}
