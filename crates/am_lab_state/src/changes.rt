//! What each entry of a report's journal changes in the state of the machine.

ghost use Rattle.am_check.specs.Verdict.{IsReportOf};
ghost use Rattle.am_lab_reasons.specs.Journal.Lines.{IsMadeAgain};
ghost use Rattle.am_lab_state.specs.Changes.{change, changes};
ghost use Rattle.am_lab_state.specs.Texts.{state_text};
ghost use Rattle.am_model.specs.History.{EachAfter, is_in_range};
ghost use Rattle.am_model_drain.specs.Made.{next_entry};
ghost use Rattle.am_model_scripts.specs.Layout.{layout_of};
ghost use Rattle.am_scenario_types.specs.Lawful.{IsLawful};
ghost use Rattle.am_scenario_types.specs.declared.parts.Form.{Form as Kind};
ghost use Rattle.std.specs.Prelude.{◌≡◌, ◌+◌, ◌<◌, ◌^◌, ◌++◌, ◌∷◌, [], IfOk, OnOk, length, true};

use crate::differences::put_difference;
use crate::states::state_text;
use am_lab_reasons::journal::journal_of;
use am_machine::Cluster;
use am_names::NoMemory;
use am_office_entries::{Entry, Event};
use am_office_text::LinePiece::Number;
use am_office_text::put_line;
use am_scenario::Scenario;
use std::alloc::{AllocError, Global};

// Makes the entry of an event.
fn make(cluster: &mut Cluster, event: &Event) -> Result<(), NoMemory>
    requires { is_in_range cluster.old.layout event.now ≡ true }
    ensures layout { OnOk result (cluster.new.layout ≡ cluster.old.layout) }
    ensures made { OnOk result (cluster.new.journal ≡ cluster.old.journal ++ next_entry cluster.old.layout cluster.old.journal event.now ∷ []) }
{
    match cluster.make(event) {
        Ok(()) => Ok(()),
        Err(_) => Err(NoMemory),
    }
}

// Appends the line of an entry, and how the state behind it differs from that in front of it.
#[tactic(auto, using(std::proofs::Common::append_assoc))]
fn put_change(
    out: &mut Vec<u8>,
    number: u64,
    before: &[u8],
    behind: &[u8],
) -> Result<(), AllocError>
    ensures { OnOk result (out.new.items ≡ out.old.items ++ change number before.now behind.now) }
{
    put_line(out, "line", &[Number(number)])?;
    put_difference(out, before, behind)
}

// Makes the entry of an event, appends its line and how the state behind it differs from this one, and gives the state behind it.
fn put_next(
    out: &mut Vec<u8>,
    alloc: Global,
    cluster: &mut Cluster,
    scenario: &Scenario,
    number: u64,
    event: &Event,
    before: &[u8],
) -> Result<Vec<u8>, NoMemory>
    requires lawful { IsLawful scenario.now }
    requires layout { cluster.old.layout ≡ layout_of scenario.now }
    requires in_range { is_in_range cluster.old.layout event.now ≡ true }
    requires few { length cluster.old.journal + 1 < 2 ^ 31 }
    ensures layout { IfOk result (λ behind. cluster.new.layout ≡ cluster.old.layout) }
    ensures made { IfOk result (λ behind. cluster.new.journal ≡ cluster.old.journal ++ next_entry cluster.old.layout cluster.old.journal event.now ∷ []) }
    ensures state { IfOk result (λ behind. behind.items ≡ state_text scenario.now cluster.new.journal) }
    ensures put { IfOk result (λ behind. out.new.items ≡ out.old.items ++ change number before.now behind.items) }
{
    make(cluster, event)?;
    let behind = state_text(alloc, cluster, scenario)?;
    put_change(out, number, before, &behind)?;
    Ok(behind)
}

// Appends what each of these entries changes, which are made again on a fresh cluster.
fn put_changes(
    out: &mut Vec<u8>,
    alloc: Global,
    cluster: &mut Cluster,
    scenario: &Scenario,
    entries: &[Entry],
) -> Result<(), NoMemory>
    requires lawful { IsLawful scenario.now }
    requires layout { cluster.old.layout ≡ layout_of scenario.now }
    requires fresh { cluster.old.journal ≡ [] }
    requires again { EachAfter (IsMadeAgain (layout_of scenario.now)) [] entries.now }
    requires few { length entries.now < 2 ^ 31 }
    ensures { OnOk result (out.new.items ≡ out.old.items ++ changes scenario.now entries.now) }
{
    let mut before = state_text(alloc, cluster, scenario)?;
    let mut number: u64 = 3;
    for entry in entries {
        before = put_next(out, alloc, cluster, scenario, number, &entry.event, &before)?;
        number += 1;
    }
    Ok(())
}

// What each of these entries changes, which a cluster of the scenario makes again.
fn entries_text(alloc: Global, scenario: &Scenario, entries: &[Entry]) -> Result<Vec<u8>, NoMemory>
    requires lawful { IsLawful scenario.now }
    requires again { EachAfter (IsMadeAgain (layout_of scenario.now)) [] entries.now }
    requires few { length entries.now < 2 ^ 31 }
    ensures { IfOk result (λ text. text.items ≡ changes scenario.now entries.now) }
{
    let mut cluster = Cluster::new(alloc, scenario)?;
    let mut out = Vec::new(alloc);
    put_changes(&mut out, alloc, &mut cluster, scenario, entries)?;
    Ok(out)
}

/// What each entry of the journal of a scenario's report changes in the state of the machine: for each, in order, a line `line N`, which
/// is its own in the report, and behind it the lines by which the state behind it differs from that in front of it, as `state` tells them
/// of two lines. The entries are made again one after the other, and each state is told once; so it takes time for as many states as there
/// are entries.
///
/// `NoMemory` comes where there is none for the journal that is made again, for two states, or for the text.
pub fn changes_text(alloc: Global, scenario: &Scenario, bytes: &[u8]) -> Result<Vec<u8>, NoMemory>
    requires few { length bytes.now < 2 ^ 31 }
    requires lawful { IsLawful scenario.now }
    requires report { (form : Kind) × IsReportOf form scenario.now bytes.now }
    ensures { (form : Kind) (r : IsReportOf form scenario.now bytes.now) → IfOk result (λ text. text.items ≡ changes scenario.now r.journal) }
{
    let journal = journal_of(alloc, scenario, bytes)?;
    entries_text(alloc, scenario, &journal.entries)
}
