//! The picture of one message.

ghost use Rattle.am_check.specs.Exact.{IsChecked};
ghost use Rattle.am_check.specs.Verdict.{IsReportOf};
ghost use Rattle.am_lab_drawings.specs.View.Messages.{ShowsMessage, ShowsMessageOf, message_picture_of};
ghost use Rattle.am_lab_reasons.specs.Journal.Lines.{IsMadeAgain};
ghost use Rattle.am_model.specs.History.{EachAfter};
ghost use Rattle.am_model_scripts.specs.Layout.{layout_of};
ghost use Rattle.am_scenario_types.specs.Lawful.{IsLawful};
ghost use Rattle.am_scenario_types.specs.declared.parts.Form.{Form as Kind};
ghost use Rattle.std.specs.Prelude.{◌≡◌, ◌+◌, ◌<◌, ◌^◌, [], IfOk, length};

use crate::view::pictures::drawn;
use am_check::place_of;
use am_lab_picture as pictures;
use am_lab_picture::{Lines, Picture};
use am_lab_reasons::journal::journal_of;
use am_names::{NoMemory, Serial};
use am_office_entries::Journal;
use am_scenario::{Form, Scenario, read};
use std::alloc::Global;

// The picture of a message of a journal.
fn message_of(
    alloc: Global,
    scenario: &Scenario,
    journal: Journal,
    serial: Serial,
) -> Result<Picture, NoMemory>
    requires lawful { IsLawful scenario.now }
    requires again { EachAfter (IsMadeAgain (layout_of scenario.now)) [] journal }
    requires few { length journal + 3 < 2 ^ 32 }
    ensures { IfOk result (λ picture. picture ≡ message_picture_of scenario.now journal serial) }
{
    let lines = Lines {
        first: 3,
        count: journal.entries.len() as u32,
    };
    let whole = drawn(alloc, scenario, journal, lines)?;
    let picture = pictures::message_picture(alloc, &whole, serial)?;
    Ok(picture)
}

// The picture of a message of the report of a scenario.
fn message_in(
    alloc: Global,
    scenario: &Scenario,
    bytes: &[u8],
    serial: Serial,
) -> Result<Picture, NoMemory>
    requires few { length bytes.now < 2 ^ 31 }
    requires lawful { IsLawful scenario.now }
    requires report { (form : Kind) × IsReportOf form scenario.now bytes.now }
    ensures { (form : Kind) → IsReportOf form scenario.now bytes.now → IfOk result (ShowsMessageOf form scenario.now bytes.now serial) }
{
    let journal = journal_of(alloc, scenario, bytes)?;
    message_of(alloc, scenario, journal, serial)
}

/// The picture of a message of the report in a text which is that of a journal that follows the scenario in front of it: of the
/// lines that touch the message, with the state in front of each.
///
/// `NoMemory` comes where there is none for the journal that is made again, or for the picture.
pub fn message_picture(
    alloc: Global,
    form: Form,
    text: &[u8],
    serial: Serial,
) -> Result<Picture, NoMemory>
    requires few { length text.now < 2 ^ 31 }
    requires checked { IsChecked form text.now }
    ensures { IfOk result (ShowsMessage form text.now serial) }
{
    let Some(place) = place_of(text) else {
        return Err(NoMemory);
    };
    match read(alloc, form, &text[..place]) {
        Ok(scenario) => message_in(alloc, &scenario, &text[place..], serial),
        Err(_) => Err(NoMemory),
    }
}
