//! A cluster as it stands in front of a line of a report, and behind its journal.

ghost use Rattle.am_check.specs.Verdict.{IsReportOf, count_of};
ghost use Rattle.am_lab_reasons.specs.Journal.Lines.{AreLines, HasEnd, IsBehindLines};
ghost use Rattle.am_lexer.specs.Text.{lines_of};
ghost use Rattle.am_office_entries.specs.declared.Entry.{Entry};
ghost use Rattle.am_scenario_types.specs.Lawful.{IsLawful};
ghost use Rattle.am_scenario_types.specs.declared.parts.Form.{Form};
ghost use Rattle.std.specs.Prelude.{◌≡◌, ◌+◌, ◌<◌, ◌^◌, [], ℕ, List, IfOk, OnOk, Some, drop, length};

use crate::journal::plays::play;
use am_check::split_head;
use am_machine::Cluster;
use am_names::NoMemory;
use am_office_entries::Journal;
use am_scenario::Scenario;
use std::alloc::Global;

/// Makes the entries of a report's journal up to the line with this number, counted from 1, on a fresh cluster, and gives the lines
/// from that one on.
pub fn reach<'a>(cluster: &mut Cluster, bytes: &'a [u8], line: u32) -> Result<&'a [u8], NoMemory>
    requires fresh { cluster.old.journal ≡ [] }
    requires place { IsBehindLines cluster.old.layout bytes.now line }
    ensures layout { cluster.new.layout ≡ cluster.old.layout }
    ensures reached { (journal : List Entry) (left : List (List ℕ)) → AreLines cluster.old.layout (drop 2 (lines_of bytes.now)) journal left → line ≡ length journal + 3 → IfOk result (λ rest. (cluster.new.journal ≡ journal) × (lines_of rest.now ≡ left)) }
{
    let Some((_, lines)) = split_head(bytes) else {
        return Err(NoMemory);
    };
    play(cluster, lines, u64::from(line - 3))
}

/// Makes all the entries of a report's journal on a fresh cluster.
pub fn reach_end(cluster: &mut Cluster, bytes: &[u8]) -> Result<(), NoMemory>
    requires fresh { cluster.old.journal ≡ [] }
    requires end { HasEnd cluster.old.layout bytes.now }
    ensures layout { cluster.new.layout ≡ cluster.old.layout }
    ensures reached { (journal : List Entry) (left : List (List ℕ)) → AreLines cluster.old.layout (drop 2 (lines_of bytes.now)) journal left → count_of (lines_of bytes.now) ≡ Some (length journal) → OnOk result (cluster.new.journal ≡ journal) }
{
    let Some((count, lines)) = split_head(bytes) else {
        return Err(NoMemory);
    };
    match play(cluster, lines, count) {
        Ok(_) => Ok(()),
        Err(fault) => Err(fault),
    }
}

/// The journal of a cluster, with its entries in it. `NoMemory` comes where there is none for it.
pub fn journal_in(alloc: Global, cluster: &Cluster) -> Result<Journal, NoMemory>
    ensures { IfOk result (λ journal. journal ≡ cluster.now.journal) }
{
    let logged = cluster.journal(alloc)?;
    logged.copied(alloc)
}

/// The journal of a report of a scenario, made again from the report's lines. `NoMemory` comes where there is none for it.
pub fn journal_of(alloc: Global, scenario: &Scenario, bytes: &[u8]) -> Result<Journal, NoMemory>
    requires few { length bytes.now < 2 ^ 31 }
    requires lawful { IsLawful scenario.now }
    requires report { (form : Form) × IsReportOf form scenario.now bytes.now }
    ensures made { (form : Form) (report : IsReportOf form scenario.now bytes.now) → IfOk result (λ journal. journal ≡ report.journal) }
    ensures few { IfOk result (λ journal. length journal < 2 ^ 31) }
{
    let mut cluster = Cluster::new(alloc, scenario)?;
    reach_end(&mut cluster, bytes)?;
    journal_in(alloc, &cluster)
}
