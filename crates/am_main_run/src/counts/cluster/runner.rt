//! What runs the scenario of a round over the cluster.

ghost use Rattle.std.specs.Prelude.{◌≡◌, OnOk};
ghost use Rattle.am_cluster.specs.Runs.{IsRunCutOff};
ghost use Rattle.am_main_run.specs.Counts.Cluster.Ends.{rounds_add_up};
ghost use Rattle.am_main_run.specs.Counts.Cluster.Rounds.{IsRoundRun};
ghost use Rattle.am_job.specs.Words.Counts.{see_journal};

use am_cluster::{OpenGate, RunFault, RunJournal, run};
use am_job::count::{RunStop, Runner};
use am_job::words::Tally;
use am_office_entries::NoMemory;
use am_scenario_types::Scenario;
use std::alloc::Global;
use std::thread::Threads;

/// Runs scenarios over a cluster whose threads, interfaces and drivers make their turns at the same time.
#[derive(Drop)]
pub(crate) struct ClusterRunner;

// Counts the words that a run ran.
fn see_run(alloc: Global, tally: &mut Tally, journal: &RunJournal) -> Result<(), NoMemory>
    ensures { OnOk result (tally.new ≡ see_journal tally.old journal.now) }
{
    let logged = journal.logged(alloc)?;
    tally.see_journal(alloc, &logged)
}

impl Runner for ClusterRunner {
    ghost is_run = { λ _. IsRoundRun };

    ghost is_cut = { λ _. IsRunCutOff };

    ghost adds_up = { λ _. rounds_add_up };

    fn run<T: Threads + Sync>(
        &self,
        rt: &T,
        alloc: Global,
        scenario: &Scenario,
        tally: &mut Tally,
    ) -> Result<(), RunStop> {
        match run(rt, alloc, scenario, &OpenGate) {
            Ok(finished) => match see_run(alloc, tally, &finished.journal) {
                Ok(()) => Ok(()),
                Err(_) => Err(RunStop::NoMemory),
            },
            Err(RunFault::LogFull { part, journal }) => match journal.copied(alloc) {
                Ok(journal) => Err(RunStop::LogFull { part, journal }),
                Err(_) => Err(RunStop::NoMemory),
            },
            Err(RunFault::NoMemory) => Err(RunStop::NoMemory),
        }
    }
}
