//! The answers of `why --front` and `chart --front`.

ghost use Rattle.am_check.specs.Verdict.{Checks};
ghost use Rattle.am_check.specs.declared.faults.CheckStop.TheVariants as Stops;
ghost use Rattle.am_lab.specs.Answers.{DrawsChartFront, DrawsCut, TellsCut, TellsFault, TellsFront, TellsUpTo, TellsWhyFront};
ghost use Rattle.am_lab.specs.Cuts as cuts;
ghost use Rattle.am_check.specs.Cut.{place_of};
ghost use Rattle.am_lab_reasons.specs.Before as fronts;
ghost use Rattle.am_main_lines.specs.Lines.{answer_in};
ghost use Rattle.am_main_step.specs.Checks.{CheckAnswers};
ghost use Rattle.std.specs.Prelude.{◌≡◌, ◌<◌, ◌^◌, ◌++◌, Err, IfOk, codes, length, true};

use crate::answers::told_by;
use crate::cuts::{full_before, without_line};
use crate::explains::followed;
use am_check::{CheckStop, CheckWhat, check};
use am_lab_drawings::chart_front_output;
use am_lab_reasons::before::{has_front, why_before};
use am_main_lines::Output;
use am_main_step::check_output;
use am_names::{NoMemory, Serial};
use am_scenario::Form;
use std::alloc::{AllocError, Global};

// What `check` answers to a report with a fault, and behind it what became of a message in front of that.
fn told_before(
    alloc: Global,
    form: Form,
    bytes: &[u8],
    serial: Serial,
    line: u32,
    what: CheckWhat,
    checked: Output,
) -> Result<Output, NoMemory>
    requires few { length bytes.now < 2 ^ 31 }
    requires stopped { Checks form bytes.now (Err (Stops.Fault line what)) }
    requires front { fronts.has_front line what ≡ true }
    ensures { IfOk result (λ o. TellsFront form bytes.now serial line what (answer_in checked) (answer_in o)) }
{
    let more = why_before(alloc, form, bytes, line, what, serial)?;
    match followed(checked, &more) {
        Ok(told) => Ok(told),
        Err(_) => Err(NoMemory),
    }
}

// What is told of a message of a report with a fault that `check` tells.
#[tactic(auto, using(crate::proofs::Saying::tells_front, crate::proofs::Saying::tells_none))]
fn told_fault(
    alloc: Global,
    form: Form,
    bytes: &[u8],
    serial: Serial,
    line: u32,
    what: CheckWhat,
    checked: Output,
) -> Result<Output, NoMemory>
    requires few { length bytes.now < 2 ^ 31 }
    requires stopped { Checks form bytes.now (Err (Stops.Fault line what)) }
    ensures { IfOk result (λ o. TellsFault form bytes.now serial (answer_in checked) (answer_in o)) }
{
    let has = has_front(line, what);
    if !has {
        return Ok(checked);
    }
    told_before(alloc, form, bytes, serial, line, what, checked)
}

// What is told of a message of a report that may have a fault.
#[tactic(auto, using(crate::proofs::Saying::up_to_other, crate::proofs::Saying::up_to_fault))]
fn told_up_to(alloc: Global, form: Form, bytes: &[u8], serial: Serial) -> Result<Output, NoMemory>
    requires { length bytes.now < 2 ^ 31 }
    ensures { IfOk result (λ o. TellsUpTo form serial bytes.now (answer_in o)) }
{
    let output = check_output(alloc, form, bytes)?;
    if output.status != 10 {
        return told_by(alloc, form, bytes, serial, output);
    }
    match check(alloc, form, bytes) {
        Err(CheckStop::Fault { line, what }) => {
            told_fault(alloc, form, bytes, serial, line, what, output)
        }
        _ => Err(NoMemory),
    }
}

// The line of a full log with an answer's text behind it.
#[tactic(auto, using(std::proofs::Common::append_assoc))]
fn behind_line(alloc: Global, line: &[u8], told: &Output) -> Result<Output, AllocError>
    ensures { IfOk result (λ o. answer_in o ≡ record { status = 6; text = line.now ++ codes "\n" ++ told.now.text.items }) }
{
    let mut text = Vec::from_slice(alloc, line)?;
    text.extend_from_slice(b"\n")?;
    text.extend_from_slice(&told.text)?;
    Ok(Output { status: 6, text })
}

// What is told of a message of a report with the line of a full log in front.
fn told_cut(
    alloc: Global,
    form: Form,
    bytes: &[u8],
    serial: Serial,
    line: &[u8],
) -> Result<Output, NoMemory>
    requires { length bytes.now < 2 ^ 31 }
    ensures { IfOk result (λ o. TellsCut form serial line.now (cuts.without_line bytes.now line.now (place_of bytes.now)) (answer_in o)) }
{
    let text = without_line(alloc, bytes, line)?;
    let told = told_up_to(alloc, form, &text, serial)?;
    let answer = behind_line(alloc, line, &told)?;
    Ok(answer)
}

/// What is told of a message of a report that may have a fault, or the line of a full log in front.
pub(crate) fn why_front(
    alloc: Global,
    form: Form,
    bytes: &[u8],
    serial: Serial,
) -> Result<Output, NoMemory>
    requires { length bytes.now < 2 ^ 31 }
    ensures { IfOk result (λ o. TellsWhyFront form serial bytes.now (answer_in o)) }
{
    match full_before(bytes) {
        Some(line) => told_cut(alloc, form, bytes, serial, line),
        None => told_up_to(alloc, form, bytes, serial),
    }
}

// The line of a full log, as it stands in front of what is said of a fault.
fn full_words(alloc: Global, line: &[u8]) -> Result<Vec<u8>, AllocError>
    ensures { IfOk result (λ words. words.items ≡ line.now ++ codes ", ") }
{
    let mut words = Vec::from_slice(alloc, line)?;
    words.extend_from_slice(b", ")?;
    Ok(words)
}

// What is drawn of a report with the line of a full log in front.
fn drawn_cut(alloc: Global, form: Form, bytes: &[u8], line: &[u8]) -> Result<Output, NoMemory>
    requires { length bytes.now < 2 ^ 31 }
    ensures { IfOk result (λ o. DrawsCut form line.now (cuts.without_line bytes.now line.now (place_of bytes.now)) (answer_in o)) }
{
    let text = without_line(alloc, bytes, line)?;
    let words = full_words(alloc, line)?;
    let drawn = chart_front_output(alloc, form, &text, &words)?;
    Ok(Output {
        status: 6,
        text: drawn.text,
    })
}

/// What is drawn of a report that may have a fault, or the line of a full log in front.
pub(crate) fn chart_front(alloc: Global, form: Form, bytes: &[u8]) -> Result<Output, NoMemory>
    requires { length bytes.now < 2 ^ 31 }
    ensures { IfOk result (λ o. DrawsChartFront form bytes.now (answer_in o)) }
{
    match full_before(bytes) {
        Some(line) => drawn_cut(alloc, form, bytes, line),
        None => chart_front_output(alloc, form, bytes, &[]),
    }
}
