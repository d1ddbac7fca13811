//! The parts of a picture, put together.

ghost use Rattle.am_check.specs.Verdict.{IsReportOf};
ghost use Rattle.am_lab_picture.specs.Arrows as ways;
ghost use Rattle.am_lab_picture.specs.Rows as entries;
ghost use Rattle.am_lab_reasons.specs.Journal.Lines.{IsMadeAgain};
ghost use Rattle.am_lab_drawings.specs.View.Pictures.{ShowsOf, picture_by, picture_of};
ghost use Rattle.am_lab_drawings.specs.View.Parts as parts;
ghost use Rattle.am_lab_drawings.specs.declared.view.parts.PictureFault.TheVariants.{NoMemory as Starved};
ghost use Rattle.am_model.specs.History.{EachAfter};
ghost use Rattle.am_office_report.specs.Report.{summary};
ghost use Rattle.am_scenario_types.specs.Lawful.{IsLawful};
ghost use Rattle.am_scenario_types.specs.declared.parts.Form.{Form as Kind};
ghost use Rattle.am_model_scripts.specs.Layout.{layout_of};
ghost use Rattle.std.specs.Prelude.{◌≡◌, ◌⊎◌, ◌+◌, ◌≤◌, ◌<◌, ◌^◌, [], Err, IfOk, length};

use crate::view::lanes::lanes;
use crate::view::parts::{LineRange, PictureFault, lines_of};
use am_lab_picture::{
    Arrow, Cross, IndexedJournal, Lines, Picture, PlacedRow, arrows, crosses, placed_rows,
};
use am_lab_reasons::journal::journal_of;
use am_names::NoMemory;
use am_office_entries::Journal;
use am_office_entries::logged::LoggedJournal;
use am_office_report::summary;
use am_scenario::Scenario;
use std::alloc::{AllocError, Global};

// The two lines of a journal's summary.
fn summary_of(alloc: Global, journal: &Journal) -> Result<Vec<u8>, NoMemory>
    ensures { IfOk result (λ lines. lines.items ≡ summary journal.now) }
{
    let logged = LoggedJournal::of(alloc, &journal.entries)?;
    summary(alloc, &logged)
}

// What a picture shows of a journal alone.
#[derive(Drop)]
struct Shown {
    rows: Vec<PlacedRow>,
    arrows: Vec<Arrow>,
    crosses: Vec<Cross>,
}

fn shown_in(alloc: Global, indexed: &IndexedJournal, lines: Lines) -> Result<Shown, AllocError>
    requires first { 3 ≤ lines.first }
    requires within { lines.first + lines.count ≤ length indexed.now + 3 }
    requires few { length indexed.now + 3 < 2 ^ 32 }
    ensures rows { IfOk result (λ shown. shown.rows.items ≡ entries.placed_rows lines indexed.now) }
    ensures arrows { IfOk result (λ shown. shown.arrows.items ≡ ways.arrows lines indexed.now) }
    ensures crosses { IfOk result (λ shown. shown.crosses.items ≡ ways.crosses lines indexed.now) }
{
    let rows = placed_rows(alloc, indexed, lines)?;
    let arrows = arrows(alloc, indexed, lines)?;
    let crosses = crosses(alloc, indexed, lines)?;
    Ok(Shown {
        rows,
        arrows,
        crosses,
    })
}

// What is shown of some lines of a journal.
fn shown_of(alloc: Global, journal: Journal, lines: Lines) -> Result<Shown, NoMemory>
    requires first { 3 ≤ lines.first }
    requires within { lines.first + lines.count ≤ length journal + 3 }
    requires few { length journal + 3 < 2 ^ 32 }
    ensures rows { IfOk result (λ shown. shown.rows.items ≡ entries.placed_rows lines journal) }
    ensures arrows { IfOk result (λ shown. shown.arrows.items ≡ ways.arrows lines journal) }
    ensures crosses { IfOk result (λ shown. shown.crosses.items ≡ ways.crosses lines journal) }
{
    let indexed = IndexedJournal::new(alloc, journal)?;
    let shown = shown_in(alloc, &indexed, lines)?;
    Ok(shown)
}

/// The picture of some lines of a journal.
pub(crate) fn drawn(
    alloc: Global,
    scenario: &Scenario,
    journal: Journal,
    lines: Lines,
) -> Result<Picture, NoMemory>
    requires lawful { IsLawful scenario.now }
    requires again { EachAfter (IsMadeAgain (layout_of scenario.now)) [] journal }
    requires first { 3 ≤ lines.first }
    requires within { lines.first + lines.count ≤ length journal + 3 }
    requires few { length journal + 3 < 2 ^ 32 }
    ensures { IfOk result (λ picture. picture ≡ picture_of scenario.now journal lines) }
{
    let lanes = lanes(alloc, scenario, &journal.entries, lines)?;
    let summary = summary_of(alloc, &journal)?;
    let shown = shown_of(alloc, journal, lines)?;
    Ok(Picture {
        network: scenario.network,
        nodes: scenario.nodes,
        rows: shown.rows,
        arrows: shown.arrows,
        crosses: shown.crosses,
        lanes,
        summary,
    })
}

/// The picture of some lines of a journal, or why there is none.
pub(crate) fn picture_part(
    alloc: Global,
    scenario: &Scenario,
    journal: Journal,
    part: Option<LineRange>,
) -> Result<Picture, PictureFault>
    requires lawful { IsLawful scenario.now }
    requires again { EachAfter (IsMadeAgain (layout_of scenario.now)) [] journal }
    requires few { length journal + 3 < 2 ^ 32 }
    ensures { (result ≡ Err Starved) ⊎ (result ≡ picture_by scenario.now journal (parts.lines_of (length journal) part)) }
{
    let lines = lines_of(part, journal.entries.len() as u32)?;
    match drawn(alloc, scenario, journal, lines) {
        Ok(picture) => Ok(picture),
        Err(NoMemory) => Err(PictureFault::NoMemory),
    }
}

/// The picture of some lines of the report of a scenario.
pub(crate) fn picture_in(
    alloc: Global,
    scenario: &Scenario,
    bytes: &[u8],
    part: Option<LineRange>,
) -> Result<Picture, PictureFault>
    requires few { length bytes.now < 2 ^ 31 }
    requires lawful { IsLawful scenario.now }
    requires report { (form : Kind) × IsReportOf form scenario.now bytes.now }
    ensures { (form : Kind) → IsReportOf form scenario.now bytes.now → (result ≡ Err Starved) ⊎ ShowsOf form scenario.now bytes.now part result }
{
    match journal_of(alloc, scenario, bytes) {
        Ok(journal) => picture_part(alloc, scenario, journal, part),
        Err(NoMemory) => Err(PictureFault::NoMemory),
    }
}
