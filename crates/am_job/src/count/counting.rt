//! The rounds are run one after another, and counted.

ghost use Rattle.std.specs.Prelude.{◌≡◌, ◌<◌, ◌≤◌, IfErr, IfOk, OnOk, length};
ghost use Rattle.am_scenario_types.specs.Lawful.{IsLawful, IsOfForm};
ghost use Rattle.am_scenario_types.specs.declared.parts.Form.TheVariants.{Run};
ghost use Rattle.am_job.specs.Words.Codes.{sent_words};
ghost use Rattle.am_job.specs.Rounds.{round_count};
ghost use Rattle.am_job.specs.Count.Counting.{CountsAll, HasCounted, PrintsCount};
ghost use Rattle.am_job.specs.Count.Stops.{IsCountStop, IsRoundStop};

use crate::count::print::count_text;
use crate::count::runner::{RunStop, Runner};
use crate::words::{CodedWord, Tally, split};
use crate::{ask_script, round, round_count};
use am_names::NoMemory;
use am_office_entries::{Journal, Part};
use am_scenario_types::Scenario;
use std::alloc::{AllocError, Global};
use std::thread::Threads;
use thiserror::Error;

/// Why words were not counted.
#[derive(Debug, Drop, Error)]
pub enum CountStop {
    /// In the run of this scenario, which is that of a round, the log of this part is full, and the next entry would have to go into
    /// it. The journal has the entries of the run before it.
    #[error("a log is full")]
    LogFull {
        scenario: Scenario,
        part: Part,
        journal: Journal,
    },
    /// There is no memory.
    #[error("there is no memory")]
    NoMemory,
}

impl From<NoMemory> for CountStop {
    ghost use Rattle.std.specs.Prelude.{◌≡◌};
    ghost use Rattle.am_job.specs.declared.count.counting.CountStop.TheVariants.{NoMemory};

    ghost from_gives = { λ _ e. e ≡ NoMemory };

    fn from(_e: NoMemory) -> CountStop {
        CountStop::NoMemory
    }
}

impl From<AllocError> for CountStop {
    ghost use Rattle.std.specs.Prelude.{◌≡◌};
    ghost use Rattle.am_job.specs.declared.count.counting.CountStop.TheVariants.{NoMemory};

    ghost from_gives = { λ _ e. e ≡ NoMemory };

    fn from(_e: AllocError) -> CountStop {
        CountStop::NoMemory
    }
}

// Runs a round, and counts its words. Its scenario and its journal are given back before the next.
fn count_round<T: Threads + Sync, R: Runner>(
    rt: &T,
    runner: &R,
    alloc: Global,
    tally: &mut Tally,
    scenario: Scenario,
) -> Result<(), CountStop>
    requires lawful { IsLawful scenario }
    requires of_form { IsOfForm Run scenario }
    ensures counted { OnOk result (HasCounted (R.is_run runner.now) scenario tally.old tally.new) }
    ensures stop { IfErr result (IsRoundStop (R.is_cut runner.now) scenario) }
{
    ask_script(alloc, tally, &scenario.script)?;
    match runner.run(rt, alloc, &scenario, tally) {
        Ok(()) => Ok(()),
        Err(RunStop::LogFull { part, journal }) => Err(CountStop::LogFull {
            scenario,
            part,
            journal,
        }),
        Err(RunStop::NoMemory) => Err(CountStop::NoMemory),
    }
}

// Runs all rounds.
#[tactic(auto, using(crate::proofs::Counted::stopped_next))]
fn count_rounds<T: Threads + Sync, R: Runner>(
    rt: &T,
    runner: &R,
    alloc: Global,
    w: u8,
    turns: u32,
    sent: &[CodedWord],
) -> Result<Tally, CountStop>
    requires some { 0 < w }
    requires nodes { w ≤ 8 }
    requires turns { turns ≤ 10000 }
    ensures counted { IfOk result (CountsAll (R.is_run runner.now) w turns sent.now (round_count w (length sent.now))) }
    ensures stop { IfErr result (IsCountStop (R.is_run runner.now) (R.is_cut runner.now) w turns sent.now) }
{
    let mut tally = Tally::new(alloc);
    for number in 0..round_count(w, sent.len()) {
        let scenario = round(alloc, w, turns, sent, number)?;
        count_round(rt, runner, alloc, &mut tally, scenario)?;
    }
    Ok(tally)
}

/// What is printed of the words of a text, which 1 to 8 nodes count in rounds of 0 to 10,000 turns. The text has at most 1,048,576
/// bytes. LogFull: a log is full in the run of a round, and each round before it was run to its end. NoMemory: there is none for a round
/// or for what is printed; the text is as it was, what was counted is let go, and the runner made the runs of some rounds.
pub fn count<T: Threads + Sync, R: Runner>(
    rt: &T,
    runner: &R,
    alloc: Global,
    w: u8,
    turns: u32,
    text: &[u8],
) -> Result<Vec<u8>, CountStop>
    requires some { 0 < w }
    requires nodes { w ≤ 8 }
    requires turns { turns ≤ 10000 }
    requires size { length text.now ≤ 1048576 }
    ensures prints { IfOk result (λ printed. PrintsCount (R.is_run runner.now) w turns text.now printed.items) }
    ensures stop { IfErr result (IsCountStop (R.is_run runner.now) (R.is_cut runner.now) w turns (sent_words text.now)) }
{
    let words = split(alloc, text)?;
    let tally = count_rounds(rt, runner, alloc, w, turns, &words.sent)?;
    let rows = tally.rows(alloc)?;
    let all = (words.sent.as_slice().len() as u64).saturating_add(words.long);
    Ok(count_text(alloc, w, turns, all, words.long, &rows)?)
}
