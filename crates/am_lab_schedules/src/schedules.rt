//! The runs of a scenario by many seeds.

ghost use Rattle.am_lab_schedules.specs.Schedules.{IsMade, SchedulesAnswers, TellsRuns};
ghost use Rattle.am_lab_schedules.specs.SeedRuns.{IsSeedRun};
ghost use Rattle.am_lab_schedules.specs.Told.{AreTold};
ghost use Rattle.am_lab_schedules.specs.Trials.{StandsFor};
ghost use Rattle.am_main_lines.specs.Lines.{answer_in};
ghost use Rattle.am_scenario.specs.Grammar.{grammar};
ghost use Rattle.am_scenario_types.specs.Lawful.{IsLawful, IsOfForm};
ghost use Rattle.am_scenario_types.specs.Lists.{ScenarioLists};
ghost use Rattle.am_scenario_types.specs.declared.parts.Form.TheVariants as Forms;
ghost use Rattle.am_scenario_types.specs.declared.parts.Network.TheVariants as Networks;
ghost use Rattle.std.specs.Prelude.{◌≡◌, ◌+◌, ◌<◌, ◌≤◌, IfErr, IfOk, IfSome, OnOk, Option, ℕ};

use crate::outcomes::{SeedRun, Telling};
use crate::trials::prepare;
use am_cluster::{Finished, RunFault, RunJournal};
use am_cluster_schedule::run_scheduled;
use am_main_lines::{Output, fault_output};
use am_names::NoMemory;
use am_office_entries::Part;
use am_scenario::{Form, ReadFault, Scenario, read};
use std::alloc::Global;

/// What is kept of the run of this seed, which made this journal, and met the full log of a part, if one is given.
fn kept(
    alloc: Global,
    seed: u64,
    full: Option<Part>,
    journal: &RunJournal,
) -> Result<SeedRun, NoMemory>
    ensures { IfOk result (λ run. run ≡ record { seed = seed; full = full; journal = journal.now }) }
{
    let journal = journal.copied(alloc)?;
    Ok(SeedRun {
        seed,
        full,
        journal,
    })
}

/// The run of this seed.
#[tactic(auto, using(crate::proofs::Ordered::kept_cut))]
fn run_of(alloc: Global, scenario: &Scenario, seed: u64) -> Result<SeedRun, NoMemory>
    requires lawful { IsLawful scenario.now }
    requires packet { scenario.now.network ≡ Networks.Packet }
    ensures seed { IfOk result (λ run. run.seed ≡ seed) }
    ensures made { IfOk result (λ run. IsSeedRun scenario.now seed run.full run.journal) }
{
    match run_scheduled(alloc, scenario, seed) {
        Ok(Finished { journal }) => kept(alloc, seed, None, &journal),
        Err(RunFault::LogFull { part, journal }) => kept(alloc, seed, Some(part), &journal),
        Err(RunFault::NoMemory) => Err(NoMemory),
    }
}

/// The run of this seed, of the scenario that it is tried with, which takes the scenario's place.
#[tactic(auto, using(crate::proofs::Trying::is_made))]
fn trial_of(
    alloc: Global,
    scenario: &mut Scenario,
    seed: u64,
    faults: Option<u8>,
) -> Result<SeedRun, NoMemory>
    requires percent { IfSome faults (λ percent. percent ≤ 100) }
    requires lawful { IsLawful scenario.old }
    requires of_form { IsOfForm Forms.Run scenario.old }
    ensures stands { OnOk result (StandsFor faults scenario.old scenario.new) }
    ensures seed { IfOk result (λ run. run.seed ≡ seed) }
    ensures made { IfOk result (IsMade faults scenario.old) }
{
    prepare(alloc, scenario, seed, faults)?;
    run_of(alloc, scenario, seed)
}

/// Tells the run of the first seed; the further ones will be compared with it.
fn begin(alloc: Global, run: SeedRun) -> Result<Telling, NoMemory>
    ensures { (faults : Option ℕ) (s : ScenarioLists) (seed : ℕ) → run.seed ≡ seed → IsMade faults s run → IfOk result (AreTold faults s seed (seed + 1)) }
{
    let telling = Telling::new(alloc, &run)?;
    telling.tell(alloc, &run)
}

/// Tells the run of one seed more.
fn tell_next(alloc: Global, run: SeedRun, telling: Telling) -> Result<Telling, NoMemory>
    ensures { (faults : Option ℕ) (s : ScenarioLists) (from seed : ℕ) → from < seed → run.seed ≡ seed → IsMade faults s run → AreTold faults s from seed telling → IfOk result (AreTold faults s from (seed + 1)) }
{
    telling.tell(alloc, &run)
}

/// Tells the runs of the seeds from one up to another.
fn told_runs(
    alloc: Global,
    scenario: &mut Scenario,
    faults: Option<u8>,
    from: u64,
    to: u64,
) -> Result<Telling, NoMemory>
    requires percent { IfSome faults (λ percent. percent ≤ 100) }
    requires lawful { IsLawful scenario.old }
    requires of_form { IsOfForm Forms.Run scenario.old }
    requires some { from < to }
    ensures { IfOk result (AreTold faults scenario.old from to) }
{
    let first = trial_of(alloc, scenario, from, faults)?;
    let mut telling = begin(alloc, first)?;
    for seed in from + 1..to {
        let run = trial_of(alloc, scenario, seed, faults)?;
        let next = tell_next(alloc, run, telling)?;
        telling = next;
    }
    Ok(telling)
}

/// What is printed of a scenario's runs by these seeds.
fn scenario_output(
    alloc: Global,
    scenario: Scenario,
    faults: Option<u8>,
    from: u64,
    to: u64,
) -> Result<Output, NoMemory>
    requires percent { IfSome faults (λ percent. percent ≤ 100) }
    requires lawful { IsLawful scenario }
    requires of_form { IsOfForm Forms.Run scenario }
    requires some { from < to }
    ensures { IfOk result (λ output. TellsRuns faults scenario from to (answer_in output)) }
{
    let mut drawn = scenario;
    let telling = told_runs(alloc, &mut drawn, faults, from, to)?;
    telling.output()
}

/// What `schedule` prints of a text and the seeds from one up to another, which isn't among them: a line for the run of each seed,
/// and how many distinct journals there were; or the first fault of the text. Each run is made by its own seed, as [`seed_output`] makes
/// it, of the scenario that the text spells, or, where `faults` says of how many packets in a hundred, 0 to 100, of that scenario with the
/// plan that the seed draws. The status is 6 where one of them met a full log, which its line tells. `NoMemory` comes only for want of memory.
pub fn schedules_output(
    alloc: Global,
    bytes: &[u8],
    faults: Option<u8>,
    from: u64,
    to: u64,
) -> Result<Output, NoMemory>
    requires percent { IfSome faults (λ percent. percent ≤ 100) }
    requires some { from < to }
    ensures { IfOk result (λ output. SchedulesAnswers faults (grammar Forms.Run bytes.now) from to (answer_in output)) }
{
    match read(alloc, Form::Run, bytes) {
        Ok(scenario) => scenario_output(alloc, scenario, faults, from, to),
        Err(ReadFault::Refused(fault)) => Ok(fault_output(alloc, fault)?),
        Err(ReadFault::NoMemory) => Err(NoMemory),
    }
}
