//! What is answered of a report's states; of a text that isn't right what `check` says.

ghost use Rattle.am_check.specs.Exact.{IsChecked};
ghost use Rattle.am_check.specs.Verdict.{IsReportOf};
ghost use Rattle.am_lab_state.specs.Answers.{StateAnswers, TellsStateIn, answer_by, asked_text, behind, difference_of, is_line, no_such_lines, state_answer};
ghost use Rattle.am_lab_state.specs.Fronts.{HasSoMany};
ghost use Rattle.am_main_step.specs.Checks.{CheckAnswers};
ghost use Rattle.am_main_lines.specs.Lines.{answer_in};
ghost use Rattle.am_scenario_types.specs.Lawful.{IsLawful};
ghost use Rattle.am_scenario_types.specs.declared.parts.Form.{Form as Kind};
ghost use Rattle.std.specs.Prelude.{◌≡◌, ◌≤◌, ◌<◌, ◌^◌, IfOk, length, option_map};

use crate::asked::StateLines;
use crate::differences::difference;
use crate::fronts::front_text;
use am_check::laws::yes_is_true;
use am_check::{place_of, split_head};
use am_main_lines::Output;
use am_main_step::check_output;
use am_names::NoMemory;
use am_office_text::LinePiece::Number;
use am_office_text::put_line;
use am_scenario::{Form, Scenario, read};
use std::alloc::{AllocError, Global};

// The lines that a journal of so many entries has.
fn no_such_lines(alloc: Global, count: u64) -> Result<Vec<u8>, AllocError>
    requires { count < 2 ^ 31 }
    ensures { IfOk result (λ text. text.items ≡ no_such_lines count) }
{
    if count == 0 {
        return Vec::from_slice(alloc, b"no such lines: the journal has none\n");
    }
    let mut text = Vec::new(alloc);
    put_line(
        &mut text,
        "no such lines: the journal has lines 3 to",
        &[Number(count + 2)],
    )?;
    Ok(text)
}

// The answer, where this text is what was asked for of a journal of so many entries.
fn answered(alloc: Global, count: u64, text: Option<Vec<u8>>) -> Result<Output, NoMemory>
    requires { count < 2 ^ 31 }
    ensures { IfOk result (λ o. answer_in o ≡ answer_by count (option_map (λ t. t.items) text)) }
{
    match text {
        Some(text) => Ok(Output { status: 0, text }),
        None => {
            let text = no_such_lines(alloc, count)?;
            Ok(Output { status: 12, text })
        }
    }
}

// Whether a line of a report is one of a journal with so many entries.
fn is_line(count: u64, line: u32) -> bool
    requires { count < 2 ^ 31 }
    ensures { result ≡ is_line count line }
{
    3 <= line && u64::from(line) < count + 3
}

// The state behind a line of a report whose journal has so many entries, if it has the line.
fn behind(
    alloc: Global,
    scenario: &Scenario,
    bytes: &[u8],
    count: u64,
    line: u32,
) -> Result<Option<Vec<u8>>, NoMemory>
    requires few { length bytes.now < 2 ^ 31 }
    requires lawful { IsLawful scenario.now }
    requires count { count < 2 ^ 31 }
    requires report { (form : Kind) × HasSoMany form scenario.now bytes.now count }
    ensures { (form : Kind) (r : IsReportOf form scenario.now bytes.now) → length r.journal ≡ count → IfOk result (λ text. option_map (λ t. t.items) text ≡ behind scenario.now r.journal line) }
{
    if !is_line(count, line) {
        return Ok(None);
    }
    let text = front_text(alloc, scenario, bytes, line - 2)?;
    Ok(Some(text))
}

// How the state behind one line of a report differs from that behind another, if its journal has both lines.
fn between(
    alloc: Global,
    first: Option<Vec<u8>>,
    second: Option<Vec<u8>>,
) -> Result<Option<Vec<u8>>, NoMemory>
    ensures { IfOk result (λ text. option_map (λ t. t.items) text ≡ difference_of (option_map (λ t. t.items) first) (option_map (λ t. t.items) second)) }
{
    match (first, second) {
        (Some(first), Some(second)) => {
            let text = difference(alloc, &first, &second)?;
            Ok(Some(text))
        }
        _ => Ok(None),
    }
}

// What is asked for of a report whose journal has so many entries.
fn asked_text(
    alloc: Global,
    scenario: &Scenario,
    bytes: &[u8],
    count: u64,
    lines: StateLines,
) -> Result<Option<Vec<u8>>, NoMemory>
    requires few { length bytes.now < 2 ^ 31 }
    requires lawful { IsLawful scenario.now }
    requires count { count < 2 ^ 31 }
    requires report { (form : Kind) × HasSoMany form scenario.now bytes.now count }
    ensures { (form : Kind) (r : IsReportOf form scenario.now bytes.now) → length r.journal ≡ count → IfOk result (λ text. option_map (λ t. t.items) text ≡ asked_text scenario.now r.journal lines) }
{
    match lines {
        StateLines::End => {
            let text = front_text(alloc, scenario, bytes, count as u32)?;
            Ok(Some(text))
        }
        StateLines::Behind(line) => behind(alloc, scenario, bytes, count, line),
        StateLines::Between(first, second) => {
            let first = behind(alloc, scenario, bytes, count, first)?;
            let second = behind(alloc, scenario, bytes, count, second)?;
            between(alloc, first, second)
        }
    }
}

// What is told of the report of a scenario.
fn told_report(
    alloc: Global,
    scenario: &Scenario,
    bytes: &[u8],
    lines: StateLines,
) -> Result<Output, NoMemory>
    requires few { length bytes.now < 2 ^ 31 }
    requires lawful { IsLawful scenario.now }
    requires report { (form : Kind) × IsReportOf form scenario.now bytes.now }
    ensures { (form : Kind) (r : IsReportOf form scenario.now bytes.now) → IfOk result (λ o. answer_in o ≡ state_answer scenario.now r.journal lines) }
{
    let Some((count, _)) = split_head(bytes) else {
        return Err(NoMemory);
    };
    let text = asked_text(alloc, scenario, bytes, count, lines)?;
    answered(alloc, count, text)
}

// What is told of a text to which `check` says yes.
fn told_text(alloc: Global, form: Form, text: &[u8], lines: StateLines) -> Result<Output, NoMemory>
    requires few { length text.now < 2 ^ 31 }
    requires checked { IsChecked form text.now }
    ensures { IfOk result (λ o. TellsStateIn form text.now lines (answer_in o)) }
{
    let Some(place) = place_of(text) else {
        return Err(NoMemory);
    };
    match read(alloc, form, &text[..place]) {
        Ok(scenario) => told_report(alloc, &scenario, &text[place..], lines),
        Err(_) => Err(NoMemory),
    }
}

// What is told of a text, where `check` has answered that it is right.
fn told_right(
    alloc: Global,
    form: Form,
    bytes: &[u8],
    lines: StateLines,
    checked: &Output,
) -> Result<Output, NoMemory>
    requires few { length bytes.now < 2 ^ 31 }
    requires checks { CheckAnswers form bytes.now (answer_in checked.now) }
    requires right { checked.now.status ≡ 0 }
    ensures { IfOk result (λ o. StateAnswers form bytes.now lines (answer_in o)) }
{
    yes_is_true();
    told_text(alloc, form, bytes, lines)
}

/// What `state` prints of a scenario and its report: the state of the machine at the journal's end, or behind a line of the report,
/// or the lines by which two such states differ. Lines that the journal doesn't have are told with status 12 (`no such lines`, and
/// which lines it has). Of a text to which `check` doesn't say yes it prints what `check` does.
///
/// `NoMemory` comes where there is none for the journal that is made again, or for the text.
#[tactic(auto, using(crate::proofs::Answering::states_other))]
pub fn state_output(
    alloc: Global,
    form: Form,
    bytes: &[u8],
    lines: StateLines,
) -> Result<Output, NoMemory>
    requires { length bytes.now < 2 ^ 31 }
    ensures { IfOk result (λ o. StateAnswers form bytes.now lines (answer_in o)) }
{
    let output = check_output(alloc, form, bytes)?;
    if output.status != 0 {
        return Ok(output);
    }
    told_right(alloc, form, bytes, lines, &output)
}
