//! What `check` prints of a text.

ghost use Rattle.std.specs.Prelude.{◌≡◌, IfOk};
ghost use Rattle.am_main_step.specs.Checks.{CheckAnswers, IsVerdict, check_line, disabled_line, told_line, yes};
ghost use Rattle.am_main_lines.specs.Lines.{answer_in};

use am_check::laws::yes_is_true;
use am_check::{CheckStop, CheckWhat, check};
use am_main_lines::{Output, condition_word, fault_output, full_output};
use am_office_entries::Condition;
use am_office_text::LinePiece::Text;
use am_office_text::{count, put_line};
use am_scenario::Form;
use std::alloc::{AllocError, Global};

// The line that tells a fault by one word.
#[tactic(auto, unfolding(crate::specs::Checks::told_line))]
fn told_line(alloc: Global, line: u32, what: &'static str) -> Result<Vec<u8>, AllocError>
    ensures { IfOk result (λ text. text.items ≡ told_line line what.now) }
{
    let mut text = Vec::new(alloc);
    put_line(&mut text, "check line", &[count(line), Text(what)])?;
    Ok(text)
}

// The line that tells an event which isn't enabled.
#[tactic(auto, unfolding(crate::specs::Checks::disabled_line))]
fn disabled_line(alloc: Global, line: u32, condition: Condition) -> Result<Vec<u8>, AllocError>
    ensures { IfOk result (λ text. text.items ≡ disabled_line line condition) }
{
    let mut text = Vec::new(alloc);
    let words = [
        count(line),
        Text("not-enabled"),
        Text(condition_word(condition)),
    ];
    put_line(&mut text, "check line", &words)?;
    Ok(text)
}

// The line that tells the first fault of a report.
fn check_line(alloc: Global, line: u32, what: CheckWhat) -> Result<Vec<u8>, AllocError>
    ensures { IfOk result (λ text. text.items ≡ check_line line what) }
{
    match what {
        CheckWhat::Form => told_line(alloc, line, "form"),
        CheckWhat::NotEnabled(condition) => disabled_line(alloc, line, condition),
        CheckWhat::Outcome => told_line(alloc, line, "outcome"),
        CheckWhat::Follows => told_line(alloc, line, "follows"),
        CheckWhat::Tail => told_line(alloc, line, "tail"),
    }
}

// What the checker says of bytes.
fn verdict(alloc: Global, form: Form, bytes: &[u8]) -> Result<(), CheckStop>
    ensures { IsVerdict form bytes.now result }
{
    yes_is_true();
    check(alloc, form, bytes)
}

// What is printed of the first fault of a report.
fn line_output(alloc: Global, line: u32, what: CheckWhat) -> Result<Output, AllocError>
    ensures { IfOk result (λ output. answer_in output ≡ record { status = 10; text = check_line line what }) }
{
    let text = check_line(alloc, line, what)?;
    Ok(Output { status: 10, text })
}

// What is printed of the report of a history.
fn yes_output(alloc: Global) -> Result<Output, AllocError>
    ensures { IfOk result (λ output. answer_in output ≡ yes) }
{
    let text = Vec::from_slice(alloc, b"check ok\n")?;
    Ok(Output { status: 0, text })
}

/// What `check` prints of a text: `check ok` where it is a scenario of this form and the report of a history that follows it, else its first
/// fault: a line of the report, the first fault of the scenario, or the full log that an event of the report would meet.
#[tactic(auto, using(crate::proofs::CheckAnswers::says_yes))]
pub fn check_output(alloc: Global, form: Form, bytes: &[u8]) -> Result<Output, AllocError>
    ensures { IfOk result (λ output. CheckAnswers form bytes.now (answer_in output)) }
{
    match verdict(alloc, form, bytes) {
        Ok(()) => yes_output(alloc),
        Err(CheckStop::Scenario(fault)) => fault_output(alloc, fault),
        Err(CheckStop::Fault { line, what }) => line_output(alloc, line, what),
        Err(CheckStop::LogFull(part)) => full_output(alloc, part),
        Err(CheckStop::NoMemory) => Err(AllocError),
    }
}
