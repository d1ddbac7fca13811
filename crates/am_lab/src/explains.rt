//! The answer of `explain`.

ghost use Rattle.am_check.specs.Verdict.{Checks};
ghost use Rattle.am_check.specs.declared.faults.CheckStop.TheVariants as Stops;
ghost use Rattle.am_lab.specs.Explains.{Explains, ExplainsAlone, ExplainsBehind, ExplainsReport, no_report, refused_answer, stopped_text};
ghost use Rattle.am_lab_reasons.specs.Refusals.Refusals.{source_text};
ghost use Rattle.am_main_step.specs.Checks.{CheckAnswers};
ghost use Rattle.am_main_lines.specs.Lines.{answer_in, full_line};
ghost use Rattle.am_main_step.specs.Answer.{not_enabled_line};
ghost use Rattle.am_scenario.specs.Grammar.{grammar};
ghost use Rattle.am_scenario_types.specs.declared.parts.Form.TheVariants as Forms;
ghost use Rattle.std.specs.Prelude.{◌≡◌, ◌<◌, ◌^◌, ◌++◌, Err, IfOk, OnOk, length};

use am_check::{CheckStop, CheckWhat, check, place_of};
use am_lab_reasons::due::due;
use am_lab_reasons::refusals::{put_refusal, put_source};
use am_lab_reasons::stops::put_stop;
use am_main_lines::{Output, condition_word, full_line, refused_line};
use am_main_step::{StepFault, check_output, step_text};
use am_names::NoMemory;
use am_office_entries::{Condition, Part};
use am_office_text::LinePiece::Text;
use am_office_text::{count, put_line};
use am_scenario::{Form, ReadFault, ScenarioFault, read};
use std::alloc::{AllocError, Global};

/// An answer with more text behind it.
pub(crate) fn followed(mut output: Output, more: &[u8]) -> Result<Output, AllocError>
    ensures { IfOk result (λ o. answer_in o ≡ record { status = output.status; text = output.text.items ++ more.now }) }
{
    output.text.extend_from_slice(more)?;
    Ok(output)
}

// What `check` answers to a report that has a fault, and behind it what was due there.
fn with_due(
    alloc: Global,
    form: Form,
    bytes: &[u8],
    line: u32,
    what: CheckWhat,
    output: Output,
) -> Result<Output, NoMemory>
    requires few { length bytes.now < 2 ^ 31 }
    requires stopped { Checks form bytes.now (Err (Stops.Fault line what)) }
    requires checks { CheckAnswers form bytes.now (answer_in output) }
    ensures { IfOk result (λ o. ExplainsReport form bytes.now (answer_in o)) }
{
    let more = due(alloc, form, bytes, line, what)?;
    match followed(output, &more) {
        Ok(told) => Ok(told),
        Err(_) => Err(NoMemory),
    }
}

// What `check` answers, and behind a fault of the report what was due there.
#[tactic(auto, using(crate::proofs::Saying::explains_other))]
fn explained_report(alloc: Global, form: Form, bytes: &[u8]) -> Result<Output, NoMemory>
    requires { length bytes.now < 2 ^ 31 }
    ensures { IfOk result (λ o. ExplainsReport form bytes.now (answer_in o)) }
{
    let output = check_output(alloc, form, bytes)?;
    if output.status != 10 {
        return Ok(output);
    }
    match check(alloc, form, bytes) {
        Err(CheckStop::Fault { line, what }) => with_due(alloc, form, bytes, line, what, output),
        _ => Err(NoMemory),
    }
}

// A text that spells no scenario, explained.
fn refused(alloc: Global, form: Form, text: &[u8], fault: ScenarioFault) -> Result<Output, NoMemory>
    ensures { IfOk result (λ o. answer_in o ≡ refused_answer form text.now fault) }
{
    let mut out = refused_line(alloc, fault)?;
    put_refusal(&mut out, alloc, form, text, fault)?;
    Ok(Output {
        status: 3,
        text: out,
    })
}

fn no_report(alloc: Global) -> Result<Output, NoMemory>
    ensures { IfOk result (λ o. answer_in o ≡ no_report) }
{
    let text = Vec::from_slice(alloc, b"check line 1 form\nno report behind the scenario\n")?;
    Ok(Output { status: 10, text })
}

// The scenario of a run without a report, explained.
fn run_alone(alloc: Global, front: bool, bytes: &[u8]) -> Result<Output, NoMemory>
    ensures { IfOk result (λ o. ExplainsAlone front Forms.Run bytes.now (grammar Forms.Run bytes.now) (answer_in o)) }
{
    match read(alloc, Form::Run, bytes) {
        Ok(_) => no_report(alloc),
        Err(ReadFault::Refused(fault)) => refused(alloc, Form::Run, bytes, fault),
        Err(ReadFault::NoMemory) => Err(NoMemory),
    }
}

// The line that tells a step that can't happen.
#[tactic(auto, unfolding(am_main_step::specs::Answer::not_enabled_line))]
fn not_enabled_line(alloc: Global, line: u32, condition: Condition) -> Result<Vec<u8>, AllocError>
    ensures { IfOk result (λ text. text.items ≡ not_enabled_line line condition) }
{
    let mut text = Vec::new(alloc);
    let words = [
        count(line),
        Text("not-enabled"),
        Text(condition_word(condition)),
    ];
    put_line(&mut text, "refused line", &words)?;
    Ok(text)
}

// Appends what is told of the steps of a script that are stopped.
fn put_stopped(out: &mut Vec<u8>, alloc: Global, bytes: &[u8], front: bool) -> Result<(), NoMemory>
    ensures { OnOk result (out.new.items ≡ out.old.items ++ stopped_text front (grammar Forms.Step bytes.now)) }
{
    match read(alloc, Form::Step, bytes) {
        Ok(scenario) => put_stop(out, alloc, &scenario, front),
        Err(_) => Err(NoMemory),
    }
}

// A step that can't happen, with its line and what is told of it.
#[tactic(auto, using(std::proofs::Common::append_assoc))]
fn step_stopped(
    alloc: Global,
    bytes: &[u8],
    line: u32,
    condition: Condition,
    front: bool,
) -> Result<Output, NoMemory>
    ensures { IfOk result (λ o. answer_in o ≡ record { status = 3; text = not_enabled_line line condition ++ source_text line bytes.now ++ stopped_text front (grammar Forms.Step bytes.now) }) }
{
    let mut text = not_enabled_line(alloc, line, condition)?;
    put_source(&mut text, alloc, line, bytes)?;
    put_stopped(&mut text, alloc, bytes, front)?;
    Ok(Output { status: 3, text })
}

// A step that finds a log full, with what is told of it.
fn log_full(alloc: Global, bytes: &[u8], part: Part, front: bool) -> Result<Output, NoMemory>
    ensures { IfOk result (λ o. answer_in o ≡ record { status = 6; text = full_line part ++ stopped_text front (grammar Forms.Step bytes.now) }) }
{
    let mut text = full_line(alloc, part)?;
    put_stopped(&mut text, alloc, bytes, front)?;
    Ok(Output { status: 6, text })
}

// A step script without a report, explained.
#[tactic(auto, using(crate::proofs::Steps::lacks_report, crate::proofs::Steps::is_refused, crate::proofs::Steps::tells_step, crate::proofs::Steps::tells_full))]
fn steps_alone(alloc: Global, front: bool, bytes: &[u8]) -> Result<Output, NoMemory>
    ensures { IfOk result (λ o. ExplainsAlone front Forms.Step bytes.now (grammar Forms.Step bytes.now) (answer_in o)) }
{
    match step_text(alloc, bytes) {
        Ok(_) => no_report(alloc),
        Err(StepFault::Scenario(fault)) => refused(alloc, Form::Step, bytes, fault),
        Err(StepFault::NotEnabled { line, condition }) => {
            step_stopped(alloc, bytes, line, condition, front)
        }
        Err(StepFault::LogFull(part)) => log_full(alloc, bytes, part, front),
        Err(StepFault::NoMemory) => Err(NoMemory),
    }
}

// A text without a report, explained.
fn explained_alone(alloc: Global, front: bool, form: Form, bytes: &[u8]) -> Result<Output, NoMemory>
    ensures { IfOk result (λ o. ExplainsAlone front form bytes.now (grammar form bytes.now) (answer_in o)) }
{
    match form {
        Form::Step => steps_alone(alloc, front, bytes),
        Form::Run => run_alone(alloc, front, bytes),
    }
}

// A text with a report behind this front, explained.
fn explained_behind(
    alloc: Global,
    form: Form,
    bytes: &[u8],
    front: &[u8],
) -> Result<Output, NoMemory>
    requires { length bytes.now < 2 ^ 31 }
    ensures { IfOk result (λ o. ExplainsBehind form bytes.now front.now (grammar form front.now) (answer_in o)) }
{
    match read(alloc, form, front) {
        Ok(_) => explained_report(alloc, form, bytes),
        Err(ReadFault::Refused(fault)) => refused(alloc, form, front, fault),
        Err(ReadFault::NoMemory) => Err(NoMemory),
    }
}

/// What is wrong with a scenario or with its report, and what was due there; where the front is asked for, also the journal before a
/// step that can't be made.
pub(crate) fn explained(
    alloc: Global,
    front: bool,
    form: Form,
    bytes: &[u8],
) -> Result<Output, NoMemory>
    requires { length bytes.now < 2 ^ 31 }
    ensures { IfOk result (λ o. Explains front form bytes.now (answer_in o)) }
{
    match place_of(bytes) {
        Some(place) => explained_behind(alloc, form, bytes, &bytes[..place]),
        None => explained_alone(alloc, front, form, bytes),
    }
}
