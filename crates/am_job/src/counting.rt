//! The counts of a job's words.

ghost use Rattle.std.specs.Prelude.{◌≡◌, ◌≤◌, ℕ, IfOk, List, OnOk, [], length};
ghost use Rattle.am_job.specs.Words.Counts.{IsCountOf, IsTallyOf, times};
ghost use Rattle.am_job.specs.Asked.{ask_script, asked_by, asked_in_all, run_in_all};
ghost use Rattle.am_job.specs.Rounds.{IsJob};

use crate::scenario::Job;
use crate::words::{Tally, WordCount};
use am_names::NoMemory;
use am_office_entries::logged::LoggedJournal;
use am_scenario_types::{Scenario, ScriptCall};
use std::alloc::Global;

/// Counts each word that a script sends. After `NoMemory` the counts are of no more use.
pub fn ask_script(alloc: Global, tally: &mut Tally, script: &[ScriptCall]) -> Result<(), NoMemory>
    ensures { OnOk result (tally.new ≡ ask_script tally.old script.now) }
{
    for made in script {
        tally.ask(alloc, &made.call)?;
    }
    Ok(())
}

// Counts each word that a round sends.
fn ask_round(alloc: Global, tally: &mut Tally, round: &Scenario) -> Result<(), NoMemory>
    ensures { OnOk result (tally.new ≡ ask_script tally.old round.now.script) }
{
    ask_script(alloc, tally, &round.script)
}

// The counts of what rounds send.
fn ask_rounds(alloc: Global, rounds: &[Scenario]) -> Result<Tally, NoMemory>
    ensures { IfOk result (λ tally. IsTallyOf tally (asked_in_all rounds.now) []) }
{
    let mut tally = Tally::new(alloc);
    for round in rounds {
        ask_round(alloc, &mut tally, round)?;
    }
    Ok(tally)
}

// Counts what journals run.
fn see_journals(
    alloc: Global,
    tally: &mut Tally,
    journals: &[LoggedJournal],
) -> Result<(), NoMemory>
    ensures { OnOk result ((asked : List (List ℕ)) → IsTallyOf tally.old asked [] → IsTallyOf tally.new asked (run_in_all journals.now)) }
{
    for journal in journals {
        tally.see_journal(alloc, journal)?;
    }
    Ok(())
}

/// How often each word of a job ran in the journals of its rounds, and how often it was sent beyond that, in ascending order of the
/// words' bytes. There is one journal for each round, and they run no word more often than the rounds send it. `NoMemory` comes only
/// for want of memory.
pub fn counts(
    alloc: Global,
    job: &Job,
    journals: &[LoggedJournal],
) -> Result<Vec<WordCount>, NoMemory>
    requires of_text { IsJob job.now }
    requires each { length journals.now ≡ length job.now.rounds }
    requires few { (word : List ℕ) → times (run_in_all journals.now) word ≤ times (asked_by job.now) word }
    ensures { IfOk result (λ rows. IsCountOf (asked_by job.now) (run_in_all journals.now) rows.items) }
{
    let mut tally = ask_rounds(alloc, &job.rounds)?;
    see_journals(alloc, &mut tally, journals)?;
    let rows = tally.rows(alloc)?;
    Ok(rows)
}
