//! What `count` prints of a text.

ghost use Rattle.std.specs.Prelude.{◌≡◌, ◌<◌, ◌≤◌, ◌++◌, IfOk, length};
ghost use Rattle.am_main_run.specs.Counts.Counts.{CountAnswers, IsCountAnswer};
ghost use Rattle.am_main_lines.specs.Lines.{answer_in, full_line, ids_of};
ghost use Rattle.am_office_report.specs.Report.{report};

use crate::counts::cluster::{CountStop, count_over_cluster};
use am_main_lines::{Output, cut_text};
use am_office_entries::logged::LoggedJournal;
use am_office_entries::{Journal, Part};
use am_scenario_types::Scenario;
use std::alloc::{AllocError, Global};
use std::thread::Threads;

// How many bytes a text that is counted has at most.
const MOST_COUNTED: usize = 1_048_576;

// The line that tells the full log which a round met, and behind it the report of what its run made before.
fn cut_count_text(
    alloc: Global,
    scenario: &Scenario,
    part: Part,
    journal: &Journal,
) -> Result<Vec<u8>, AllocError>
    ensures { IfOk result (λ text. text.items ≡ full_line part ++ report (ids_of scenario.now.ends) journal.now) }
{
    match LoggedJournal::of(alloc, &journal.entries) {
        Ok(journal) => cut_text(alloc, scenario, part, &journal),
        Err(_) => Err(AllocError),
    }
}

// What is printed of the words of a text that is not too long: their counts; or the full log that the run of a round met, and the
// report of what that run made before.
#[tactic(auto, using(crate::proofs::CountAnswers::words_counted, crate::proofs::CountAnswers::count_cut))]
fn counts_output<R: Threads + Sync>(
    rt: &R,
    alloc: Global,
    nodes: u8,
    turns: u32,
    bytes: &[u8],
) -> Result<Output, AllocError>
    requires some { 0 < nodes }
    requires nodes { nodes ≤ 8 }
    requires turns { turns ≤ 10000 }
    requires size { length bytes.now ≤ 1048576 }
    ensures { IfOk result (λ output. IsCountAnswer nodes turns bytes.now (answer_in output)) }
{
    match count_over_cluster(rt, alloc, nodes, turns, bytes) {
        Ok(text) => Ok(Output { status: 0, text }),
        Err(
            CountStop::LogFull {
                scenario,
                part,
                journal,
            },
        ) => {
            let text = cut_count_text(alloc, &scenario, part, &journal)?;
            Ok(Output { status: 6, text })
        }
        Err(CountStop::NoMemory) => Err(AllocError),
    }
}

/// What `count` prints of a text: the counts of its words, which this many nodes made by messages in rounds of so many turns; the full log
/// that the run of a round met, and the report of what it made before; or that the text is too long, where it has more than 1,048,576 bytes.
#[tactic(auto, using(crate::proofs::CountAnswers::text_is_too_long, crate::proofs::CountAnswers::text_counted))]
pub fn count_output<R: Threads + Sync>(
    rt: &R,
    alloc: Global,
    nodes: u8,
    turns: u32,
    bytes: &[u8],
) -> Result<Output, AllocError>
    requires some { 0 < nodes }
    requires nodes { nodes ≤ 8 }
    requires turns { turns ≤ 10000 }
    ensures { IfOk result (λ output. CountAnswers nodes turns bytes.now (answer_in output)) }
{
    if bytes.len() > MOST_COUNTED {
        let text = Vec::from_slice(alloc, b"text too long\n")?;
        Ok(Output { status: 11, text })
    } else {
        counts_output(rt, alloc, nodes, turns, bytes)
    }
}
