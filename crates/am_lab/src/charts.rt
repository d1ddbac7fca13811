//! The picture of one message of a right report.

ghost use Rattle.am_lab.specs.Answers.{MessageChartAnswers};
ghost use Rattle.am_lab_reasons.specs.Reasons.{IsDeclared};
ghost use Rattle.am_main_lines.specs.Lines.{answer_in};
ghost use Rattle.am_main_step.specs.Checks.{CheckAnswers};
ghost use Rattle.std.specs.Prelude.{◌≡◌, ◌<◌, ◌^◌, IfOk, false, length, true};

use crate::answers::no_endpoint;
use am_check::laws::yes_is_true;
use am_lab_drawings::message_chart;
use am_lab_reasons::is_declared;
use am_main_lines::Output;
use am_main_step::check_output;
use am_names::{NoMemory, Serial};
use am_scenario::Form;
use std::alloc::Global;

// That no line declares the endpoint of a message of a report to which `check` says yes.
fn undrawn(
    alloc: Global,
    form: Form,
    bytes: &[u8],
    serial: Serial,
    checked: &Output,
) -> Result<Output, NoMemory>
    requires checks { CheckAnswers form bytes.now (answer_in checked.now) }
    requires right { checked.now.status ≡ 0 }
    requires undeclared { IsDeclared form bytes.now serial.source false }
    ensures { IfOk result (λ o. MessageChartAnswers form bytes.now serial (answer_in o)) }
{
    match no_endpoint(alloc, serial.source) {
        Ok(lacking) => Ok(lacking),
        Err(_) => Err(NoMemory),
    }
}

// The picture of a message of a report to which `check` says yes, and whose scenario declares the message's endpoint.
fn drawn(
    alloc: Global,
    form: Form,
    bytes: &[u8],
    serial: Serial,
    checked: &Output,
) -> Result<Output, NoMemory>
    requires few { length bytes.now < 2 ^ 31 }
    requires checks { CheckAnswers form bytes.now (answer_in checked.now) }
    requires right { checked.now.status ≡ 0 }
    requires declared { IsDeclared form bytes.now serial.source true }
    ensures { IfOk result (λ o. MessageChartAnswers form bytes.now serial (answer_in o)) }
{
    yes_is_true();
    let output = message_chart(alloc, form, bytes, serial)?;
    Ok(output)
}

// What is drawn of a message of a report to which `check` says yes.
fn drawn_right(
    alloc: Global,
    form: Form,
    bytes: &[u8],
    serial: Serial,
    checked: &Output,
) -> Result<Output, NoMemory>
    requires few { length bytes.now < 2 ^ 31 }
    requires checks { CheckAnswers form bytes.now (answer_in checked.now) }
    requires right { checked.now.status ≡ 0 }
    ensures { IfOk result (λ o. MessageChartAnswers form bytes.now serial (answer_in o)) }
{
    let declared = is_declared(alloc, form, bytes, serial.source)?;
    if declared {
        drawn(alloc, form, bytes, serial, checked)
    } else {
        undrawn(alloc, form, bytes, serial, checked)
    }
}

/// What `check` answers, but of a right report the picture of a message.
#[tactic(auto, using(crate::proofs::Saying::draws_other))]
pub(crate) fn drawn_message(
    alloc: Global,
    form: Form,
    bytes: &[u8],
    serial: Serial,
) -> Result<Output, NoMemory>
    requires { length bytes.now < 2 ^ 31 }
    ensures { IfOk result (λ o. MessageChartAnswers form bytes.now serial (answer_in o)) }
{
    let output = check_output(alloc, form, bytes)?;
    if output.status != 0 {
        return Ok(output);
    }
    drawn_right(alloc, form, bytes, serial, &output)
}
