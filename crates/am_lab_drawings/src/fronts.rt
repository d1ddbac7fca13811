//! The picture of what stands in front of a report's fault.

ghost use Rattle.am_check.specs.Verdict.{Checks};
ghost use Rattle.am_check.specs.declared.faults.CheckStop.TheVariants as Stops;
ghost use Rattle.am_lab_chart.specs.Before.{svg_before};
ghost use Rattle.am_lab_drawings.specs.Charts as charts;
ghost use Rattle.am_lab_drawings.specs.Fronts.{ChartFrontAnswers, DrawsFault, DrawsFront, fault_words, front_drawing, whole_picture};
ghost use Rattle.am_lab_drawings.specs.declared.view.parts.PictureFault.TheVariants.{NoMemory as Starved};
ghost use Rattle.am_lab_picture.specs.Layout.Layout.{IsDrawable};
ghost use Rattle.am_lab_reasons.specs.Before as fronts;
ghost use Rattle.am_lab_reasons.specs.Journal.Lines.{IsMadeAgain};
ghost use Rattle.am_main_lines.specs.Lines.{answer_in};
ghost use Rattle.am_main_step.specs.Checks.{CheckAnswers};
ghost use Rattle.am_model.specs.History.{EachAfter};
ghost use Rattle.am_model_scripts.specs.Layout.{layout_of};
ghost use Rattle.am_scenario_types.specs.Lawful.{IsLawful};
ghost use Rattle.std.specs.Prelude.{◌≡◌, ◌≢◌, ◌<◌, ◌^◌, [], Err, IfOk, length, true};

use crate::charts::{charted, too_many_rows};
use crate::view::{PictureFault, picture_part};
use am_check::{CheckStop, CheckWhat, check};
use am_lab_chart::chart_before;
use am_lab_picture::Picture;
use am_lab_reasons::before::{Front, front_of, has_front};
use am_main_lines::Output;
use am_main_step::check_output;
use am_names::NoMemory;
use am_scenario::Form;
use std::alloc::{AllocError, Global};

// What is said of a fault: these words, and the line of `check` without its newline.
fn fault_words(alloc: Global, words: &[u8], told: &[u8]) -> Result<Vec<u8>, AllocError>
    ensures { IfOk result (λ text. text.items ≡ fault_words words.now told.now) }
{
    let mut text = Vec::from_slice(alloc, words)?;
    text.extend_from_slice(&told[..told.len().saturating_sub(1)])?;
    Ok(text)
}

// A picture drawn with a fault as its last row.
fn with_fault(
    alloc: Global,
    picture: &Picture,
    line: u32,
    words: &[u8],
    checked: &Output,
) -> Result<Output, NoMemory>
    requires { IsDrawable picture.now }
    ensures { IfOk result (λ o. answer_in o ≡ record { status = checked.now.status; text = svg_before picture.now line (fault_words words.now checked.now.text.items) }) }
{
    let told = fault_words(alloc, words, &checked.text)?;
    let text = chart_before(alloc, picture, line, &told)?;
    Ok(Output {
        status: checked.status,
        text,
    })
}

// That a whole journal has too many lines for a picture, if that is why there is none.
fn refused(alloc: Global, fault: PictureFault) -> Result<Output, NoMemory>
    ensures told { IfOk result (λ o. answer_in o ≡ charts.too_many_rows) }
    ensures starved { IfOk result (λ _. fault ≢ Starved) }
{
    match fault {
        PictureFault::NoMemory => Err(NoMemory),
        PictureFault::NoSuchLines | PictureFault::TooManyRows => too_many_rows(alloc),
    }
}

// The drawing of a journal in front of a fault, with the fault as a last row.
fn front_drawn(
    alloc: Global,
    front: Front,
    line: u32,
    words: &[u8],
    checked: &Output,
) -> Result<Output, NoMemory>
    requires lawful { IsLawful front.scenario }
    requires again { EachAfter (IsMadeAgain (layout_of front.scenario)) [] front.journal }
    requires few { length front.journal < 2 ^ 31 }
    ensures { IfOk result (λ o. answer_in o ≡ front_drawing words.now line (answer_in checked.now) (whole_picture front.scenario front.journal)) }
{
    let Front { scenario, journal } = front;
    match picture_part(alloc, &scenario, journal, None) {
        Ok(picture) => with_fault(alloc, &picture, line, words, checked),
        Err(fault) => refused(alloc, fault),
    }
}

// The drawing of what stands in front of a fault that `check` tells.
fn drawn_before(
    alloc: Global,
    form: Form,
    bytes: &[u8],
    line: u32,
    what: CheckWhat,
    words: &[u8],
    checked: &Output,
) -> Result<Output, NoMemory>
    requires few { length bytes.now < 2 ^ 31 }
    requires stopped { Checks form bytes.now (Err (Stops.Fault line what)) }
    requires front { fronts.has_front line what ≡ true }
    ensures { IfOk result (λ o. DrawsFront form words.now bytes.now line what (answer_in checked.now) (answer_in o)) }
{
    let front = front_of(alloc, form, bytes, line, what)?;
    front_drawn(alloc, front, line, words, checked)
}

// What is told of a report with a fault that `check` tells.
#[tactic(auto, using(crate::proofs::Answering::draws_front, crate::proofs::Answering::draws_none))]
fn fault_drawn(
    alloc: Global,
    form: Form,
    bytes: &[u8],
    line: u32,
    what: CheckWhat,
    words: &[u8],
    checked: Output,
) -> Result<Output, NoMemory>
    requires few { length bytes.now < 2 ^ 31 }
    requires stopped { Checks form bytes.now (Err (Stops.Fault line what)) }
    ensures { IfOk result (λ o. DrawsFault form words.now bytes.now (answer_in checked) (answer_in o)) }
{
    let has = has_front(line, what);
    if !has {
        return Ok(checked);
    }
    drawn_before(alloc, form, bytes, line, what, words, &checked)
}

/// What `chart --front` prints of a scenario and its report: what `chart` does, but of a report with a fault the picture of the lines in
/// front of it, with the status of `check`; below its last row stands the fault, with the words in front of what `check` says. Where
/// no line of a journal can stand in front of the fault, it is what `check` prints. More than 20,000 lines are told with status
/// 11 (`more than 20000 lines`).
///
/// `NoMemory` comes where there is none for the journal that is made again, for the picture, or for the text.
#[tactic(auto, using(crate::proofs::Answering::fronts_other, crate::proofs::Answering::fronts_fault))]
pub fn chart_front_output(
    alloc: Global,
    form: Form,
    bytes: &[u8],
    words: &[u8],
) -> Result<Output, NoMemory>
    requires { length bytes.now < 2 ^ 31 }
    ensures { IfOk result (λ o. ChartFrontAnswers form words.now bytes.now (answer_in o)) }
{
    let output = check_output(alloc, form, bytes)?;
    if output.status != 10 {
        return charted(alloc, form, bytes, None, output);
    }
    match check(alloc, form, bytes) {
        Err(CheckStop::Fault { line, what }) => {
            fault_drawn(alloc, form, bytes, line, what, words, output)
        }
        _ => Err(NoMemory),
    }
}
