//! What was due at a line of a report.

ghost use Rattle.am_check.specs.Follows.{ids_of};
ghost use Rattle.am_check.specs.Verdict.{HasJournal};
ghost use Rattle.am_lab_reasons.specs.Due.Choices.{choices, step_line};
ghost use Rattle.am_lab_reasons.specs.Due.Due.{DueEntry, DueLine, FoundState, HasEvent, IsBehindJournal, MightCome, StandsAt};
ghost use Rattle.am_lab_reasons.specs.Due.Found.{found};
ghost use Rattle.am_lab_reasons.specs.Due.Texts.{due_entry, due_line};
ghost use Rattle.am_lab_reasons.specs.Journal.Lines.{IsMadeAgain};
ghost use Rattle.am_model.specs.History.{EachAfter, is_in_range};
ghost use Rattle.am_office_entries.specs.declared.Entry.{Entry as Made};
ghost use Rattle.am_office_report.specs.Report as texts;
ghost use Rattle.am_scenario_types.specs.declared.parts.Form.{Form as Kind};
ghost use Rattle.am_lexer.specs.Text.{lines_of};
ghost use Rattle.am_check_lines.specs.Reading.{event_of};
ghost use Rattle.am_scenario_types.specs.Lawful.{IsLawful};
ghost use Rattle.am_scenario_types.specs.declared.parts.Form.TheVariants as Forms;
ghost use Rattle.am_scenario_types.specs.declared.parts.Network.TheVariants.{Packet};
ghost use Rattle.am_model_scripts.specs.Layout.{events_of, layout_of};
ghost use Rattle.std.specs.Prelude.{◌≡◌, ◌≤◌, ◌-◌, [], ◌∷◌, ℕ, List, IfOk, OnOk, slice_get, true};

use crate::before::journal_at;
use crate::due::choices::put_choices;
use crate::due::found::put_found;
use crate::due::texts::{put_due_entry, put_due_line, put_step};
use crate::journal::{reach, reach_end};
use crate::refusals::line_at;
use am_check::step_event;
use am_check_lines::parse_line;
use am_cluster_scripted::ScriptedCluster;
use am_lexer::next_line;
use am_machine::Cluster;
use am_main_lines::report_of;
use am_names::NoMemory;
use am_office_entries::{Condition, Entry, Event};
use am_scenario::Scenario;
use std::alloc::{AllocError, Global};

// The event that the first of some lines tells.
fn first_event(lines: &[u8]) -> Option<Event>
    ensures { (line : List ℕ) (left : List (List ℕ)) → lines_of lines.now ≡ line ∷ left → result ≡ event_of line }
{
    let (line, _) = next_line(lines)?;
    match parse_line(line) {
        Some(told) => Some(told.event),
        None => None,
    }
}

fn entry_text(alloc: Global, entry: &Entry) -> Result<Vec<u8>, NoMemory>
    ensures { IfOk result (λ out. out.items ≡ due_entry entry.now) }
{
    let mut out = Vec::new(alloc);
    put_due_entry(&mut out, entry)?;
    Ok(out)
}

/// What the machine makes of the event of a line.
pub(crate) fn due_entry(
    alloc: Global,
    scenario: &Scenario,
    bytes: &[u8],
    line: u32,
) -> Result<Vec<u8>, NoMemory>
    requires lawful { IsLawful scenario.now }
    requires event { (form : Kind) × HasEvent form scenario.now bytes.now line }
    ensures { (form : Kind) → HasEvent form scenario.now bytes.now line → IfOk result (λ out. DueEntry form scenario.now bytes.now line out.items) }
{
    let mut cluster = Cluster::new(alloc, scenario)?;
    let lines = reach(&mut cluster, bytes, line)?;
    let Some(event) = first_event(lines) else {
        return Err(NoMemory);
    };
    match cluster.apply(&event) {
        Ok(entry) => entry_text(alloc, &entry),
        Err(_) => Err(NoMemory),
    }
}

// The text of what an event finds.
fn found_text(
    alloc: Global,
    cluster: &Cluster,
    scenario: &Scenario,
    event: Event,
    condition: Condition,
) -> Result<Vec<u8>, NoMemory>
    requires layout { cluster.now.layout ≡ layout_of scenario.now }
    requires in_range { is_in_range (layout_of scenario.now) event ≡ true }
    ensures { IfOk result (λ out. out.items ≡ found (layout_of scenario.now) cluster.now.journal event condition) }
{
    let mut out = Vec::new(alloc);
    put_found(&mut out, cluster, scenario, event, condition)?;
    Ok(out)
}

/// What the event of a line finds for which a condition does not hold.
pub(crate) fn found_state(
    alloc: Global,
    scenario: &Scenario,
    bytes: &[u8],
    line: u32,
    condition: Condition,
) -> Result<Vec<u8>, NoMemory>
    requires lawful { IsLawful scenario.now }
    requires event { (form : Kind) × HasEvent form scenario.now bytes.now line }
    ensures { (form : Kind) → HasEvent form scenario.now bytes.now line → IfOk result (λ out. FoundState form scenario.now bytes.now line condition out.items) }
{
    let mut cluster = Cluster::new(alloc, scenario)?;
    let lines = reach(&mut cluster, bytes, line)?;
    let Some(event) = first_event(lines) else {
        return Err(NoMemory);
    };
    found_text(alloc, &cluster, scenario, event, condition)
}

fn line_text(alloc: Global, text: &[u8], line: u32) -> Result<Vec<u8>, AllocError>
    ensures { IfOk result (λ out. out.items ≡ due_line (slice_get (lines_of text.now) (line - 1))) }
{
    let mut out = Vec::new(alloc);
    put_due_line(&mut out, line_at(text, line.saturating_sub(1)))?;
    Ok(out)
}

// The report of the journal of a cluster.
fn cluster_report(
    alloc: Global,
    scenario: &Scenario,
    cluster: &Cluster,
) -> Result<Vec<u8>, NoMemory>
    ensures { IfOk result (λ text. text.items ≡ texts.report (ids_of scenario.now) cluster.now.journal) }
{
    let journal = cluster.journal(alloc)?;
    match report_of(alloc, scenario, &journal) {
        Ok(text) => Ok(text),
        Err(_) => Err(NoMemory),
    }
}

// The line with this number of the report of the journal of a cluster.
fn reported_line(
    alloc: Global,
    scenario: &Scenario,
    cluster: &Cluster,
    line: u32,
) -> Result<Vec<u8>, NoMemory>
    ensures { IfOk result (λ out. out.items ≡ due_line (slice_get (lines_of (texts.report (ids_of scenario.now) cluster.now.journal)) (line - 1))) }
{
    let text = cluster_report(alloc, scenario, cluster)?;
    Ok(line_text(alloc, &text, line)?)
}

/// The line that should stand with this number in the report of the journal that its lines tell.
pub(crate) fn due_line(
    alloc: Global,
    scenario: &Scenario,
    bytes: &[u8],
    line: u32,
) -> Result<Vec<u8>, NoMemory>
    requires lawful { IsLawful scenario.now }
    requires journal { (form : Kind) × (journal : List Made) × HasJournal form scenario.now bytes.now journal }
    ensures { (form : Kind) (journal : List Made) → HasJournal form scenario.now bytes.now journal → IfOk result (λ out. DueLine form scenario.now bytes.now line out.items) }
{
    let mut cluster = Cluster::new(alloc, scenario)?;
    reach_end(&mut cluster, bytes)?;
    reported_line(alloc, scenario, &cluster, line)
}

/// The step that might have come in place of a line.
pub(crate) fn next_step(alloc: Global, scenario: &Scenario, line: u32) -> Result<Vec<u8>, NoMemory>
    requires { 3 ≤ line }
    ensures { IfOk result (λ out. out.items ≡ step_line (slice_get (events_of scenario.now.steps) (line - 3))) }
{
    let mut out = Vec::new(alloc);
    put_step(&mut out, step_event(&scenario.steps, (line - 3) as usize))?;
    Ok(out)
}

// Makes the entries of a cluster's journal in a run of its scenario.
fn follow(run: &mut ScriptedCluster, entries: &[Entry]) -> Result<(), NoMemory>
    requires fresh { run.old.journal ≡ [] }
    requires again { EachAfter (IsMadeAgain (layout_of run.old.scenario)) [] entries.now }
    ensures scenario { run.new.scenario ≡ run.old.scenario }
    ensures journal { OnOk result (run.new.journal ≡ entries.now) }
{
    for entry in entries {
        let Ok(_) = run.step(entry.event) else {
            return Err(NoMemory);
        };
    }
    Ok(())
}

// A cluster that runs the scripts of a scenario, in which these entries are made.
fn followed<'a>(
    alloc: Global,
    scenario: &'a Scenario,
    entries: &[Entry],
) -> Result<ScriptedCluster<'a>, NoMemory>
    requires lawful { IsLawful scenario.now }
    requires packet { scenario.now.network ≡ Packet }
    requires again { EachAfter (IsMadeAgain (layout_of scenario.now)) [] entries.now }
    ensures scenario { IfOk result (λ run. run.scenario ≡ scenario.now) }
    ensures journal { IfOk result (λ run. run.journal ≡ entries.now) }
{
    let mut run = ScriptedCluster::new(alloc, scenario)?;
    follow(&mut run, entries)?;
    Ok(run)
}

// The cluster that runs the scripts of a scenario, as it stands in front of a line.
fn follow_line<'a>(
    alloc: Global,
    scenario: &'a Scenario,
    bytes: &[u8],
    line: u32,
) -> Result<ScriptedCluster<'a>, NoMemory>
    requires lawful { IsLawful scenario.now }
    requires packet { scenario.now.network ≡ Packet }
    requires place { IsBehindJournal Forms.Run scenario.now bytes.now line }
    ensures scenario { IfOk result (λ run. run.scenario ≡ scenario.now) }
    ensures at { IfOk result (λ run. (left : List (List ℕ)) × StandsAt Forms.Run scenario.now bytes.now line run.journal left) }
{
    let journal = journal_at(alloc, scenario, bytes, line)?;
    followed(alloc, scenario, &journal.entries)
}

fn choices_text(alloc: Global, run: &ScriptedCluster) -> Result<Vec<u8>, NoMemory>
    ensures { IfOk result (λ out. out.items ≡ choices Forms.Run run.now.scenario run.now.journal) }
{
    let mut out = Vec::new(alloc);
    put_choices(&mut out, run)?;
    Ok(out)
}

/// The events that might have come in a run in place of a line.
pub(crate) fn next_events(
    alloc: Global,
    scenario: &Scenario,
    bytes: &[u8],
    line: u32,
) -> Result<Vec<u8>, NoMemory>
    requires lawful { IsLawful scenario.now }
    requires packet { scenario.now.network ≡ Packet }
    requires place { IsBehindJournal Forms.Run scenario.now bytes.now line }
    ensures { IfOk result (λ out. MightCome Forms.Run scenario.now bytes.now line out.items) }
{
    let run = follow_line(alloc, scenario, bytes, line)?;
    choices_text(alloc, &run)
}
