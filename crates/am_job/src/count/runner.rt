//! What runs the scenario of a round.

ghost use Rattle.std.specs.Prelude.{ℕ, ◌<◌, ◌≤◌, List, IfErr, OnOk};
ghost use Rattle.std.specs.Thread.{IsSync};
ghost use Rattle.am_office_entries.specs.declared.Entry.{Entry};
ghost use Rattle.am_office_entries.specs.declared.Part.{Part};
ghost use Rattle.am_scenario_types.specs.Lawful.{IsLawful, IsOfForm};
ghost use Rattle.am_scenario_types.specs.Lists.{ScenarioLists};
ghost use Rattle.am_scenario_types.specs.declared.parts.Form.TheVariants.{Run};
ghost use Rattle.am_job.specs.declared.words.codes.CodedWord.{CodedWord};
ghost use Rattle.am_job.specs.Rounds.{scenario};
ghost use Rattle.am_job.specs.Count.Counting.{SeesRun};
ghost use Rattle.am_job.specs.Count.Left.{AddsUp};
ghost use Rattle.am_job.specs.Count.Stops.{IsRunStop};

use crate::words::Tally;
use am_office_entries::{Journal, Part};
use am_scenario_types::Scenario;
use std::alloc::Global;
use std::thread::Threads;
use thiserror::Error;

/// Why a run did not come to its end.
#[derive(Debug, Drop, Error)]
pub enum RunStop {
    /// The log of this part is full, and the next entry would have to go into it. The journal has the entries before it.
    #[error("a log is full")]
    LogFull { part: Part, journal: Journal },
    /// There is no memory for the run.
    #[error("there is no memory for the run")]
    NoMemory,
}

/// Runs scenarios, and counts what they ran.
pub trait Runner {
    /// The journal is that of a run of the scenario which came to its end.
    ghost is_run: { Self → ScenarioLists → List Entry → Type 0 };

    /// The journal is that of a run of the scenario which met a full log of the part.
    ghost is_cut: { Self → ScenarioLists → Part → List Entry → Type 0 };

    /// Runs a scenario of the packet network, with threads where it starts some, and counts the words that it ran. What starts threads
    /// may be shared between them. After an error the counts are of no more use.
    fn run<T: Threads + Sync>(
        &self,
        rt: &T,
        alloc: Global,
        scenario: &Scenario,
        tally: &mut Tally,
    ) -> Result<(), RunStop>
        requires shared { IsSync T.row }
        requires lawful { IsLawful scenario.now }
        requires of_form { IsOfForm Run scenario.now }
        ensures run { OnOk result (SeesRun (is_run self.now scenario.now) tally.old tally.new) }
        ensures stop { IfErr result (IsRunStop (is_cut self.now scenario.now)) };

    /// In the run of a round each word that is sent runs, or its request is refused, or its message is returned.
    ghost adds_up: { (r : Self) (w turns : ℕ) (words : List CodedWord) (journal : List Entry) → 0 < w → w ≤ 8 → is_run r (scenario w turns words) journal → AddsUp (scenario w turns words) journal };
}
