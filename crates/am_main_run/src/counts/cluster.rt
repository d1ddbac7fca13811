//! The words of a text, counted over the cluster.

ghost use Rattle.std.specs.Prelude.{◌<◌, ◌≤◌, IfErr, IfOk, length};
ghost use Rattle.am_job.specs.Words.Codes.{sent_words};
ghost use Rattle.am_cluster.specs.Runs.{IsRunCutOff};
ghost use Rattle.am_job.specs.Count.Counting.{PrintsCount};
ghost use Rattle.am_job.specs.Count.Stops.{IsCountStop};
ghost use Rattle.am_main_run.specs.Counts.Cluster.Rounds.{IsRoundRun};

mod runner;

pub use am_job::count::CountStop;
use am_job::count::count;
use runner::ClusterRunner;
use std::alloc::Global;
use std::thread::Threads;

/// What is printed of the words of a text, which 1 to 8 nodes count in rounds of 0 to 10,000 turns. The text has at most 1,048,576
/// bytes. The threads, interfaces and drivers of a round make their turns at the same time, and nothing is asked of the schedule.
/// LogFull: a log is full in the run of a round, the first in which one is. NoMemory: there is none for a round or for what is printed;
/// the text is as it was, and what was counted is let go.
pub fn count_over_cluster<R: Threads + Sync>(
    rt: &R,
    alloc: Global,
    w: u8,
    turns: u32,
    text: &[u8],
) -> Result<Vec<u8>, CountStop>
    requires some { 0 < w }
    requires nodes { w ≤ 8 }
    requires turns { turns ≤ 10000 }
    requires size { length text.now ≤ 1048576 }
    ensures prints { IfOk result (λ printed. PrintsCount IsRoundRun w turns text.now printed.items) }
    ensures stop { IfErr result (IsCountStop IsRoundRun IsRunCutOff w turns (sent_words text.now)) }
{
    count(rt, &ClusterRunner, alloc, w, turns, text)
}
