//! The answers to a text that was read.

ghost use Rattle.am_lab.specs.Answers as answers;
ghost use Rattle.am_lab.specs.Answers.{AnswersText, AnswersTo, TellsWhy, no_endpoint};
ghost use Rattle.am_lab_schedules.specs.Finds.{FindAnswers};
ghost use Rattle.am_lab_schedules.specs.Schedules.{SchedulesAnswers};
ghost use Rattle.am_lab_schedules.specs.Trials.{ScheduleAnswers};
ghost use Rattle.am_lab_words.specs.Ranges.{AreTrials, IsInRange, IsPercent};
ghost use Rattle.am_lab_reasons.specs.Reasons.{IsDeclared};
ghost use Rattle.am_main_step.specs.Checks.{CheckAnswers};
ghost use Rattle.am_main_lines.specs.Lines.{answer_in};
ghost use Rattle.am_scenario.specs.Grammar.{grammar};
ghost use Rattle.am_scenario_types.specs.declared.parts.Form.TheVariants as Forms;
ghost use Rattle.std.specs.Prelude.{◌≡◌, ◌<◌, ◌^◌, IfOk, false, length, true};

use crate::charts::drawn_message;
use crate::cuts::{cut_report, full_line_of};
use crate::explains::explained;
use crate::fronts::{chart_front, why_front};
use am_check::laws::yes_is_true;
use am_lab_drawings::chart_output;
use am_lab_drawings::view::LineRange;
use am_lab_page::json::json_output;
use am_lab_page::page::page_output;
use am_lab_reasons::{is_declared, why};
use am_lab_scenarios::derived::{
    expanded_scenario, faulty_scenario, made_scenario, round_scenario,
};
use am_lab_scenarios::texts::{replay_output, scenario_output};
use am_lab_schedules::one_seed::seed_output;
use am_lab_schedules::{Wanted, find_output, schedules_output};
use am_lab_shiviz::shiviz_output;
use am_lab_shrink::{Making, shrink_output};
use am_lab_state::{StateLines, state_output};
use am_lab_words::{Asked, Lines, States, Trials};
use am_main_lines::Output;
use am_main_step::check_output;
use am_names::{EndpointId, NoMemory, Serial};
use am_office_text::{put_line, small};
use am_scenario::Form;
use std::alloc::{AllocError, Global};

/// That no line declares the endpoint of a message.
#[tactic(auto, unfolding(crate::specs::Answers::no_endpoint))]
pub(crate) fn no_endpoint(alloc: Global, end: EndpointId) -> Result<Output, AllocError>
    ensures { IfOk result (λ o. answer_in o ≡ no_endpoint end) }
{
    let mut text = Vec::new(alloc);
    put_line(&mut text, "no endpoint", &[small(end.0)])?;
    Ok(Output { status: 12, text })
}

// That no line declares the endpoint of a message of a report to which `check` says yes.
fn endpoint_lacking(
    alloc: Global,
    form: Form,
    bytes: &[u8],
    serial: Serial,
    checked: &Output,
) -> Result<Output, NoMemory>
    requires checks { CheckAnswers form bytes.now (answer_in checked.now) }
    requires right { checked.now.status ≡ 0 }
    requires undeclared { IsDeclared form bytes.now serial.source false }
    ensures { IfOk result (λ o. TellsWhy form bytes.now serial (answer_in o)) }
{
    match no_endpoint(alloc, serial.source) {
        Ok(lacking) => Ok(lacking),
        Err(_) => Err(NoMemory),
    }
}

// What became of a message of a report to which `check` says yes, and whose scenario declares the message's endpoint.
fn message_told(
    alloc: Global,
    form: Form,
    bytes: &[u8],
    serial: Serial,
    checked: &Output,
) -> Result<Output, NoMemory>
    requires few { length bytes.now < 2 ^ 31 }
    requires checks { CheckAnswers form bytes.now (answer_in checked.now) }
    requires right { checked.now.status ≡ 0 }
    requires declared { IsDeclared form bytes.now serial.source true }
    ensures { IfOk result (λ o. TellsWhy form bytes.now serial (answer_in o)) }
{
    yes_is_true();
    let text = why(alloc, form, bytes, serial)?;
    Ok(Output { status: 0, text })
}

// What is told of a message of a report to which `check` says yes.
fn message_output(
    alloc: Global,
    form: Form,
    bytes: &[u8],
    serial: Serial,
    checked: &Output,
) -> Result<Output, NoMemory>
    requires few { length bytes.now < 2 ^ 31 }
    requires checks { CheckAnswers form bytes.now (answer_in checked.now) }
    requires right { checked.now.status ≡ 0 }
    ensures { IfOk result (λ o. TellsWhy form bytes.now serial (answer_in o)) }
{
    yes_is_true();
    let declared = is_declared(alloc, form, bytes, serial.source)?;
    if declared {
        message_told(alloc, form, bytes, serial, checked)
    } else {
        endpoint_lacking(alloc, form, bytes, serial, checked)
    }
}

/// What `check` answers, but of a right report what became of a message.
#[tactic(auto, using(crate::proofs::Saying::tells_other))]
pub(crate) fn told_by(
    alloc: Global,
    form: Form,
    bytes: &[u8],
    serial: Serial,
    checked: Output,
) -> Result<Output, NoMemory>
    requires few { length bytes.now < 2 ^ 31 }
    requires checks { CheckAnswers form bytes.now (answer_in checked) }
    ensures { IfOk result (λ o. TellsWhy form bytes.now serial (answer_in o)) }
{
    if checked.status != 0 {
        return Ok(checked);
    }
    message_output(alloc, form, bytes, serial, &checked)
}

// What is told of a message of a report.
fn told_why(alloc: Global, form: Form, bytes: &[u8], serial: Serial) -> Result<Output, NoMemory>
    requires { length bytes.now < 2 ^ 31 }
    ensures { IfOk result (λ o. TellsWhy form bytes.now serial (answer_in o)) }
{
    let output = check_output(alloc, form, bytes)?;
    told_by(alloc, form, bytes, serial, output)
}

// The report of a run by a seed.
fn scheduled(alloc: Global, bytes: &[u8], seed: u64, faults: Option<u8>) -> Result<Output, NoMemory>
    requires { IsPercent faults }
    ensures { IfOk result (λ o. ScheduleAnswers faults seed (grammar Forms.Run bytes.now) (answer_in o)) }
{
    match seed_output(alloc, bytes, seed, faults) {
        Ok(output) => Ok(output),
        Err(_) => Err(NoMemory),
    }
}

// The part of a report that the words name.
fn part_of(lines: Option<Lines>) -> Option<LineRange>
    ensures { result ≡ answers.part_of lines }
{
    match lines {
        Some(lines) => Some(LineRange {
            from: lines.from,
            to: lines.to,
        }),
        None => None,
    }
}

// The report of the least of these seeds that has a line which begins with these words, or that has none.
fn found(
    alloc: Global,
    bytes: &[u8],
    trials: Trials,
    given: &[u8],
    wanted: Wanted,
) -> Result<Output, NoMemory>
    requires { AreTrials trials }
    ensures { IfOk result (λ o. FindAnswers trials.faults (grammar Forms.Run bytes.now) wanted given.now trials.seeds.from trials.seeds.to (answer_in o)) }
{
    let Trials { seeds, faults } = trials;
    find_output(alloc, bytes, faults, seeds.from, seeds.to, given, wanted)
}

// What is told of the runs of these seeds.
fn told_of_each(alloc: Global, bytes: &[u8], trials: Trials) -> Result<Output, NoMemory>
    requires { AreTrials trials }
    ensures { IfOk result (λ o. SchedulesAnswers trials.faults (grammar Forms.Run bytes.now) trials.seeds.from trials.seeds.to (answer_in o)) }
{
    let Trials { seeds, faults } = trials;
    schedules_output(alloc, bytes, faults, seeds.from, seeds.to)
}

// The lines whose states the words have.
fn lines_of(states: States) -> StateLines
    ensures { result ≡ answers.lines_of_states states }
{
    match states {
        States::End => StateLines::End,
        States::Behind(line) => StateLines::Behind(line),
        States::Between(lines) => StateLines::Between(lines.from, lines.to),
    }
}

// How the reports are made among which `shrink` looks for a line.
fn making_of(form: Form) -> Making
    ensures { result ≡ answers.making_of form }
{
    match form {
        Form::Step => Making::Steps,
        Form::Run => Making::Drain,
    }
}

/// The answer of a command to a text, where a line that is asked for begins with the given words.
#[tactic(auto, unfolding(crate::specs::Answers::AnswersText))]
pub(crate) fn answered(
    alloc: Global,
    asked: Asked,
    given: &[u8],
    bytes: &[u8],
) -> Result<Output, NoMemory>
    requires few { length bytes.now < 2 ^ 31 }
    requires in_range { IsInRange asked }
    ensures { IfOk result (λ o. AnswersText asked given.now bytes.now (answer_in o)) }
{
    match full_line_of(asked, bytes) {
        Some(line) => Ok(cut_report(alloc, line)?),
        None => answered_uncut(alloc, asked, given, bytes),
    }
}

// The answer of a command to a text with no line of a full log in front of a report.
#[tactic(auto, unfolding(crate::specs::Answers::AnswersTo))]
fn answered_uncut(
    alloc: Global,
    asked: Asked,
    given: &[u8],
    bytes: &[u8],
) -> Result<Output, NoMemory>
    requires few { length bytes.now < 2 ^ 31 }
    requires in_range { IsInRange asked }
    ensures { IfOk result (λ o. AnswersTo asked given.now bytes.now (answer_in o)) }
{
    match asked {
        Asked::Explain(form) => explained(alloc, false, form, bytes),
        Asked::Front => explained(alloc, true, Form::Step, bytes),
        Asked::Why { form, serial } => told_why(alloc, form, bytes, serial),
        Asked::WhyFront { form, serial } => why_front(alloc, form, bytes, serial),
        Asked::Chart { form, part } => chart_output(alloc, form, bytes, part_of(part)),
        Asked::ChartMessage { form, serial } => drawn_message(alloc, form, bytes, serial),
        Asked::ChartFront(form) => chart_front(alloc, form, bytes),
        Asked::Scenario(form) => scenario_output(alloc, form, bytes),
        Asked::Made(n) => made_scenario(alloc, n),
        Asked::Expanded => expanded_scenario(alloc, bytes),
        Asked::Round {
            nodes,
            turns,
            number,
        } => round_scenario(alloc, nodes, turns, number, bytes),
        Asked::Replay => replay_output(alloc, bytes),
        Asked::Schedule { seed, faults } => scheduled(alloc, bytes, seed, faults),
        Asked::Schedules(trials) => told_of_each(alloc, bytes, trials),
        Asked::Json(form) => json_output(alloc, form, bytes),
        Asked::Shiviz(form) => shiviz_output(alloc, form, bytes),
        Asked::Page(form) => page_output(alloc, form, bytes),
        Asked::State { form, states } => state_output(alloc, form, bytes, lines_of(states)),
        Asked::Find(trials) => found(alloc, bytes, trials, given, Wanted::WithLine),
        Asked::FindWithout(trials) => found(alloc, bytes, trials, given, Wanted::WithoutLine),
        Asked::Faults { seed, percent } => faulty_scenario(alloc, seed, percent, bytes),
        Asked::Shrink(form) => shrink_output(alloc, making_of(form), given, bytes),
        Asked::ShrinkSeeded(seed) => shrink_output(alloc, Making::Seed(seed), given, bytes),
    }
}
