//! The command `json`: the journal of a right report, an object an entry.

ghost use Rattle.am_check.specs.Exact.{IsChecked};
ghost use Rattle.am_check.specs.Verdict.{IsReportOf};
ghost use Rattle.am_lab_page.specs.Json.Answers.{JsonAnswers};
ghost use Rattle.am_lab_page.specs.Json.Objects.{json_of};
ghost use Rattle.am_main_step.specs.Checks.{CheckAnswers};
ghost use Rattle.am_main_lines.specs.Lines.{answer_in};
ghost use Rattle.am_scenario_types.specs.Lawful.{IsLawful};
ghost use Rattle.am_scenario_types.specs.declared.parts.Form.{Form as Kind};
ghost use Rattle.std.specs.Prelude.{◌≡◌, ◌<◌, ◌^◌, IfOk, length};

mod laws;
mod objects;
mod texts;

pub use crate::json::laws::{each_entry_has_its_line, nothing_is_escaped, objects_are_inert};
pub use crate::json::objects::objects_text;
use am_check::laws::yes_is_true;
use am_check::place_of;
use am_lab_picture::{IndexedJournal, Lines, rows};
use am_lab_reasons::journal::journal_of;
use am_main_lines::Output;
use am_main_step::check_output;
use am_names::NoMemory;
use am_office_entries::Journal;
use am_scenario::{Form, Scenario, read};
use std::alloc::Global;

// The lines of a journal's objects.
fn journal_text(alloc: Global, journal: Journal) -> Result<Vec<u8>, NoMemory>
    requires { length journal < 2 ^ 31 }
    ensures { IfOk result (λ text. text.items ≡ json_of journal) }
{
    let count = journal.entries.len() as u32;
    let indexed = IndexedJournal::new(alloc, journal)?;
    let rows = rows(alloc, &indexed, Lines { first: 3, count })?;
    let text = objects_text(alloc, &rows)?;
    Ok(text)
}

// The journal of a report of a scenario, as JSON.
fn report_text(alloc: Global, scenario: &Scenario, bytes: &[u8]) -> Result<Vec<u8>, NoMemory>
    requires few { length bytes.now < 2 ^ 31 }
    requires lawful { IsLawful scenario.now }
    requires report { (form : Kind) × IsReportOf form scenario.now bytes.now }
    ensures { (form : Kind) (r : IsReportOf form scenario.now bytes.now) → IfOk result (λ text. text.items ≡ json_of r.journal) }
{
    let journal = journal_of(alloc, scenario, bytes)?;
    journal_text(alloc, journal)
}

// The journal of the report in a text to which `check` says yes, as JSON.
fn checked_text(alloc: Global, form: Form, text: &[u8]) -> Result<Vec<u8>, NoMemory>
    requires few { length text.now < 2 ^ 31 }
    requires checked { IsChecked form text.now }
    ensures { (checked : IsChecked form text.now) → IfOk result (λ json. json.items ≡ json_of checked.report.journal) }
{
    let Some(place) = place_of(text) else {
        return Err(NoMemory);
    };
    match read(alloc, form, &text[..place]) {
        Ok(scenario) => report_text(alloc, &scenario, &text[place..]),
        Err(_) => Err(NoMemory),
    }
}

// What is told of a text to which `check` says yes.
fn told_right(alloc: Global, form: Form, bytes: &[u8], checked: &Output) -> Result<Output, NoMemory>
    requires few { length bytes.now < 2 ^ 31 }
    requires checks { CheckAnswers form bytes.now (answer_in checked.now) }
    requires right { checked.now.status ≡ 0 }
    ensures { IfOk result (λ o. JsonAnswers form bytes.now (answer_in o)) }
{
    yes_is_true();
    let text = checked_text(alloc, form, bytes)?;
    Ok(Output { status: 0, text })
}

/// What `json` prints of a scenario and its report: a line for each entry of the report's journal, in order, each a JSON
/// object with what the entry says (`object_of` of `specs/Json/Objects.antt`). Of a text to which `check` doesn't say yes
/// it prints what `check` does.
///
/// `NoMemory` comes where there is none for the journal that is made again, or for the text.
#[tactic(auto, using(crate::proofs::Answering::json_other))]
pub fn json_output(alloc: Global, form: Form, bytes: &[u8]) -> Result<Output, NoMemory>
    requires { length bytes.now < 2 ^ 31 }
    ensures { IfOk result (λ o. JsonAnswers form bytes.now (answer_in o)) }
{
    let output = check_output(alloc, form, bytes)?;
    if output.status != 0 {
        return Ok(output);
    }
    told_right(alloc, form, bytes, &output)
}
