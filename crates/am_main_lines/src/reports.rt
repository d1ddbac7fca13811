//! The report of a journal.

ghost use Rattle.std.specs.Prelude.{◌≡◌, ◌++◌, IfOk};
ghost use Rattle.am_main_lines.specs.Lines.{full_line, ids_of};
ghost use Rattle.am_office_report.specs.Report.{report};

use crate::words::full_line;
use am_names::EndpointId;
use am_office_entries::Part;
use am_office_entries::logged::LoggedJournal;
use am_office_report::report;
use am_scenario_types::{EndLine, Scenario};
use std::alloc::{AllocError, Global};

/// The endpoints of a scenario, in ascending order.
pub fn ids_of(alloc: Global, ends: &[EndLine]) -> Result<Vec<EndpointId>, AllocError>
    ensures { IfOk result (λ ids. ids.items ≡ ids_of ends.now) }
{
    let mut ids = Vec::with_capacity(alloc, ends.len())?;
    for end in ends {
        ids.push(end.id)?;
    }
    Ok(ids)
}

/// The report of a journal with the endpoints of a scenario.
pub fn report_of(
    alloc: Global,
    scenario: &Scenario,
    journal: &LoggedJournal,
) -> Result<Vec<u8>, AllocError>
    ensures { IfOk result (λ text. text.items ≡ report (ids_of scenario.now.ends) journal.now) }
{
    let ids = ids_of(alloc, &scenario.ends)?;
    match report(alloc, &ids, journal) {
        Ok(text) => Ok(text),
        Err(_) => Err(AllocError),
    }
}

/// The line that tells a full log, and behind it the report of what was made before.
pub fn cut_text(
    alloc: Global,
    scenario: &Scenario,
    part: Part,
    journal: &LoggedJournal,
) -> Result<Vec<u8>, AllocError>
    ensures { IfOk result (λ text. text.items ≡ full_line part ++ report (ids_of scenario.now.ends) journal.now) }
{
    let mut text = full_line(alloc, part)?;
    let lines = report_of(alloc, scenario, journal)?;
    text.extend_from_slice(&lines)?;
    Ok(text)
}
