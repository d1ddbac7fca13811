//! What each entry changes, as it stands in a page.

ghost use Rattle.am_check.specs.Exact.{IsChecked};
ghost use Rattle.am_check.specs.Verdict.{IsReportOf};
ghost use Rattle.am_lab_page.specs.Page.Pages.{changes_element, changes_told};
ghost use Rattle.am_scenario_types.specs.Lawful.{IsLawful};
ghost use Rattle.am_scenario_types.specs.declared.parts.Form.{Form as Kind};
ghost use Rattle.std.specs.Prelude.{◌≡◌, ◌<◌, ◌^◌, ◌++◌, IfOk, OnOk, Some, length, option_map};

use am_check::{place_of, split_head};
use am_lab_state::changes_text;
use am_lab_xml::put_text;
use am_names::NoMemory;
use am_office_text::LinePiece::Text;
use am_office_text::put_word;
use am_scenario::{Form, Scenario, read};
use std::alloc::{AllocError, Global};

// The most entries of which a page tells what each changes.
const MOST: u64 = 2000;

// What each entry of the report of a scenario changes, if there are few.
fn report_changes(
    alloc: Global,
    scenario: &Scenario,
    bytes: &[u8],
) -> Result<Option<Vec<u8>>, NoMemory>
    requires few { length bytes.now < 2 ^ 31 }
    requires lawful { IsLawful scenario.now }
    requires report { (form : Kind) × IsReportOf form scenario.now bytes.now }
    ensures { (form : Kind) (r : IsReportOf form scenario.now bytes.now) → IfOk result (λ told. option_map (λ t. t.items) told ≡ changes_told scenario.now r.journal) }
{
    let Some((count, _)) = split_head(bytes) else {
        return Err(NoMemory);
    };
    if count > MOST {
        return Ok(None);
    }
    let text = changes_text(alloc, scenario, bytes)?;
    Ok(Some(text))
}

/// What each entry of the report in a text changes, to which `check` says yes, if there are at most 2,000.
pub(crate) fn checked_changes(
    alloc: Global,
    form: Form,
    text: &[u8],
) -> Result<Option<Vec<u8>>, NoMemory>
    requires few { length text.now < 2 ^ 31 }
    requires checked { IsChecked form text.now }
    ensures { (checked : IsChecked form text.now) → IfOk result (λ told. option_map (λ t. t.items) told ≡ changes_told checked.scenario checked.report.journal) }
{
    let Some(place) = place_of(text) else {
        return Err(NoMemory);
    };
    match read(alloc, form, &text[..place]) {
        Ok(scenario) => report_changes(alloc, &scenario, &text[place..]),
        Err(_) => Err(NoMemory),
    }
}

// Appends the element with these changes.
fn put_element(out: &mut Vec<u8>, changes: &[u8]) -> Result<(), AllocError>
    ensures { OnOk result (out.new.items ≡ out.old.items ++ changes_element (Some changes.now)) }
{
    put_word(out, Text("<template id=\"changes\">"))?;
    put_text(out, changes)?;
    put_word(out, Text("</template>\n"))
}

/// Appends the element with these changes, if they are told.
#[tactic(auto, unfolding(crate::specs::Page::Pages::changes_element))]
pub(crate) fn put_changes(out: &mut Vec<u8>, told: Option<Vec<u8>>) -> Result<(), AllocError>
    ensures { OnOk result (out.new.items ≡ out.old.items ++ changes_element (option_map (λ t. t.items) told)) }
{
    match told {
        Some(changes) => put_element(out, &changes),
        None => Ok(()),
    }
}
