//! The command `json --shiviz`: the journal of a right report for ShiViz.

ghost use Rattle.am_check.specs.Exact.{IsChecked};
ghost use Rattle.am_check.specs.Verdict.{IsReportOf};
ghost use Rattle.am_lab_shiviz.specs.Answers.{ShivizAnswers};
ghost use Rattle.am_lab_shiviz.specs.Texts.{shiviz_of};
ghost use Rattle.am_main_step.specs.Checks.{CheckAnswers};
ghost use Rattle.am_main_lines.specs.Lines.{answer_in};
ghost use Rattle.am_scenario_types.specs.Lawful.{IsLawful};
ghost use Rattle.am_scenario_types.specs.declared.parts.Form.{Form as Kind};
ghost use Rattle.std.specs.Prelude.{◌≡◌, ◌<◌, ◌^◌, IfOk, length};

use crate::texts::shiviz_text;
use am_check::laws::yes_is_true;
use am_lab_picture::IndexedJournal;
use am_lab_reasons::journal::journal_of;
use am_lab_reasons::parts_of;
use am_main_lines::Output;
use am_main_step::check_output;
use am_names::NoMemory;
use am_office_entries::Journal;
use am_scenario::{Form, Scenario};
use am_scenario_types::EndLine;
use std::alloc::Global;

// A journal for ShiViz.
fn journal_text(alloc: Global, ends: &[EndLine], journal: Journal) -> Result<Vec<u8>, NoMemory>
    requires { length journal < 2 ^ 31 }
    ensures { IfOk result (λ text. text.items ≡ shiviz_of ends.now journal) }
{
    let indexed = IndexedJournal::new(alloc, journal)?;
    shiviz_text(alloc, ends, &indexed)
}

// The journal of a report of a scenario, for ShiViz.
fn report_text(alloc: Global, scenario: &Scenario, bytes: &[u8]) -> Result<Vec<u8>, NoMemory>
    requires few { length bytes.now < 2 ^ 31 }
    requires lawful { IsLawful scenario.now }
    requires report { (form : Kind) × IsReportOf form scenario.now bytes.now }
    ensures { (form : Kind) (r : IsReportOf form scenario.now bytes.now) → IfOk result (λ text. text.items ≡ shiviz_of scenario.now.ends r.journal) }
{
    let journal = journal_of(alloc, scenario, bytes)?;
    journal_text(alloc, &scenario.ends, journal)
}

// The journal of the report in a text to which `check` says yes, for ShiViz.
fn checked_text(alloc: Global, form: Form, text: &[u8]) -> Result<Vec<u8>, NoMemory>
    requires few { length text.now < 2 ^ 31 }
    requires checked { IsChecked form text.now }
    ensures { (checked : IsChecked form text.now) → IfOk result (λ told. told.items ≡ shiviz_of checked.scenario.ends checked.report.journal) }
{
    let (scenario, bytes) = parts_of(alloc, form, text)?;
    report_text(alloc, &scenario, bytes)
}

// What is told of a text to which `check` says yes.
fn told_right(alloc: Global, form: Form, bytes: &[u8], checked: &Output) -> Result<Output, NoMemory>
    requires few { length bytes.now < 2 ^ 31 }
    requires checks { CheckAnswers form bytes.now (answer_in checked.now) }
    requires right { checked.now.status ≡ 0 }
    ensures { IfOk result (λ o. ShivizAnswers form bytes.now (answer_in o)) }
{
    yes_is_true();
    let text = checked_text(alloc, form, bytes)?;
    Ok(Output { status: 0, text })
}

/// What `json --shiviz` prints of a scenario and its report: two lines for each entry of the report's journal, in order, its node with a
/// vector clock and its line in the report (`shiviz_of` of specs/Texts). Of a text to which `check` doesn't say yes it prints what
/// `check` does.
///
/// `NoMemory` comes where there is none for the journal that is made again, for the clocks, or for the text.
#[tactic(auto, using(crate::proofs::Told::shiviz_other))]
pub fn shiviz_output(alloc: Global, form: Form, bytes: &[u8]) -> Result<Output, NoMemory>
    requires { length bytes.now < 2 ^ 31 }
    ensures { IfOk result (λ o. ShivizAnswers form bytes.now (answer_in o)) }
{
    let output = check_output(alloc, form, bytes)?;
    if output.status != 0 {
        return Ok(output);
    }
    told_right(alloc, form, bytes, &output)
}
