//! What stands in front of a fault of a report: the journal up to there, and what became of a message in that.

ghost use Rattle.am_check.specs.Verdict.{Checks, HasJournal, StopsReport};
ghost use Rattle.am_check.specs.declared.faults.CheckStop.TheVariants as Stops;
ghost use Rattle.am_lab_reasons.specs.Before.{IsFrontOf, StandsBefore, TellsBefore, has_front, is_behind};
ghost use Rattle.am_lab_reasons.specs.Due.Due.{IsBehindJournal};
ghost use Rattle.am_lab_reasons.specs.Journal.Lines.{IsMadeAgain};
ghost use Rattle.am_lab_reasons.specs.Reasons.{reasons};
ghost use Rattle.am_model.specs.History.{EachAfter};
ghost use Rattle.am_model_scripts.specs.Layout.{layout_of};
ghost use Rattle.am_office_entries.specs.declared.Entry.{Entry as Made};
ghost use Rattle.am_scenario_types.specs.Lawful.{IsLawful};
ghost use Rattle.am_scenario_types.specs.declared.parts.Form.{Form as Kind};
ghost use Rattle.std.specs.Prelude.{◌≡◌, ◌<◌, ◌^◌, [], Err, IfOk, List, length, true};

use crate::journal::{journal_in, reach, reach_end};
use crate::parts::parts_of;
use crate::receipts::TracedJournal;
use crate::text_of;
use am_check::CheckWhat;
use am_machine::Cluster;
use am_names::{NoMemory, Serial};
use am_office_entries::Journal;
use am_scenario::{Form, Scenario};
use std::alloc::Global;

/// The scenario of a text, and the journal in front of a fault of the report behind it.
#[derive(Drop)]
pub struct Front {
    pub scenario: Scenario,
    pub journal: Journal,
}

// Whether a fault lies behind the report's journal.
fn is_behind(what: CheckWhat) -> bool
    ensures { result ≡ is_behind what }
{
    match what {
        CheckWhat::Tail => true,
        CheckWhat::Form | CheckWhat::NotEnabled(_) | CheckWhat::Outcome | CheckWhat::Follows =>
            false,
    }
}

/// Whether the report has lines of a journal in front of a fault, or might have: not where no report stands there, and not
/// where its second line doesn't tell how many lines it has.
pub fn has_front(line: u32, what: CheckWhat) -> bool
    ensures { result ≡ has_front line what }
{
    match what {
        CheckWhat::Form => 3 <= line,
        CheckWhat::NotEnabled(_) | CheckWhat::Outcome | CheckWhat::Follows | CheckWhat::Tail => {
            true
        }
    }
}

/// The journal that the lines in front of a line tell.
pub(crate) fn journal_at(
    alloc: Global,
    scenario: &Scenario,
    bytes: &[u8],
    line: u32,
) -> Result<Journal, NoMemory>
    requires lawful { IsLawful scenario.now }
    requires place { (form : Kind) × IsBehindJournal form scenario.now bytes.now line }
    ensures { (form : Kind) (place : IsBehindJournal form scenario.now bytes.now line) → IfOk result (λ journal. journal ≡ place.journal) }
{
    let mut cluster = Cluster::new(alloc, scenario)?;
    reach(&mut cluster, bytes, line)?;
    journal_in(alloc, &cluster)
}

// The journal of as many lines as the report's second line tells.
fn whole_journal(alloc: Global, scenario: &Scenario, bytes: &[u8]) -> Result<Journal, NoMemory>
    requires lawful { IsLawful scenario.now }
    requires journal { (form : Kind) × (journal : List Made) × HasJournal form scenario.now bytes.now journal }
    ensures { (form : Kind) (journal : List Made) → HasJournal form scenario.now bytes.now journal → IfOk result (λ made. made ≡ journal) }
{
    let mut cluster = Cluster::new(alloc, scenario)?;
    reach_end(&mut cluster, bytes)?;
    journal_in(alloc, &cluster)
}

// The journal in front of a fault of the report of a scenario.
fn journal_before(
    alloc: Global,
    scenario: &Scenario,
    bytes: &[u8],
    line: u32,
    what: CheckWhat,
) -> Result<Journal, NoMemory>
    requires few { length bytes.now < 2 ^ 31 }
    requires lawful { IsLawful scenario.now }
    requires stopped { (form : Kind) × StopsReport form scenario.now bytes.now (Stops.Fault line what) }
    requires front { has_front line what ≡ true }
    ensures { (form : Kind) → StopsReport form scenario.now bytes.now (Stops.Fault line what) → IfOk result (λ journal. StandsBefore form scenario.now bytes.now line what journal) }
{
    let behind = is_behind(what);
    if behind {
        whole_journal(alloc, scenario, bytes)
    } else {
        journal_at(alloc, scenario, bytes, line)
    }
}

/// The scenario of a text, and the journal in front of the fault that `check` tells of the report behind it: the entries whose
/// lines stand in front of the line with this number, which have begun to follow the scenario; where the fault lies behind the
/// journal, the whole journal.
///
/// `NoMemory` comes where there is none for the scenario, or for the journal that is made again.
pub fn front_of(
    alloc: Global,
    form: Form,
    text: &[u8],
    line: u32,
    what: CheckWhat,
) -> Result<Front, NoMemory>
    requires few { length text.now < 2 ^ 31 }
    requires stopped { Checks form text.now (Err (Stops.Fault line what)) }
    requires front { has_front line what ≡ true }
    ensures front { IfOk result (λ front. IsFrontOf form text.now line what front.scenario front.journal) }
    ensures lawful { IfOk result (λ front. IsLawful front.scenario) }
    ensures again { IfOk result (λ front. EachAfter (IsMadeAgain (layout_of front.scenario)) [] front.journal) }
    ensures few { IfOk result (λ front. length front.journal < 2 ^ 31) }
{
    let (scenario, bytes) = parts_of(alloc, form, text)?;
    let journal = journal_before(alloc, &scenario, bytes, line, what)?;
    Ok(Front { scenario, journal })
}

// What became of a message in the journal in front of a fault.
fn front_text(alloc: Global, front: Front, serial: Serial) -> Result<Vec<u8>, NoMemory>
    requires { length front.journal < 2 ^ 31 }
    ensures { IfOk result (λ out. out.items ≡ reasons front.scenario.plan front.journal serial) }
{
    let Front { scenario, journal } = front;
    let traced = TracedJournal::new(alloc, journal)?;
    text_of(alloc, &scenario.plan, &traced, serial)
}

/// What became of a message of a report that has a fault, as `check` tells it, in the journal in front of that: in the form of `why`.
///
/// `NoMemory` comes where there is none for the scenario, for the journal that is made again, or for the text.
pub fn why_before(
    alloc: Global,
    form: Form,
    text: &[u8],
    line: u32,
    what: CheckWhat,
    serial: Serial,
) -> Result<Vec<u8>, NoMemory>
    requires few { length text.now < 2 ^ 31 }
    requires stopped { Checks form text.now (Err (Stops.Fault line what)) }
    requires front { has_front line what ≡ true }
    ensures { IfOk result (λ out. TellsBefore form text.now line what serial out.items) }
{
    let front = front_of(alloc, form, text, line, what)?;
    front_text(alloc, front, serial)
}
