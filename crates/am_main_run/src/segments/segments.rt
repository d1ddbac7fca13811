//! The run of a scenario with segments.

ghost use Rattle.std.specs.Prelude.{◌≡◌, ◌≤◌, ◌++◌, IfOk, length};
ghost use Rattle.std.specs.List.{All};
ghost use Rattle.am_main_lines.specs.Lines.{answer_in, ids_of};
ghost use Rattle.am_main_run.specs.Segments.Segments.{IsSegmentsAnswer, SegmentsAnswers};
ghost use Rattle.am_office_report.specs.Report.{report};
ghost use Rattle.am_scenario_types.specs.Lawful.{IsLawful};
ghost use Rattle.am_scenario_types.specs.declared.parts.Network.TheVariants as Networks;
ghost use Rattle.am_segment.specs.Printed.{segments_text};
ghost use Rattle.am_segment.specs.Spelling.{segment_grammar};
ghost use Rattle.am_segment.specs.Lawful.{HasSegment};

use crate::{cut_run_text, run_text};
use am_cluster::{OpenGate, RunFault, RunJournal, run};
use am_main_lines::{Output, fault_output};
use am_office_entries::NoMemory;
use am_scenario::ReadFault;
use am_segment::{SegmentScenario, read_segments, segments_text};
use std::alloc::{AllocError, Global};
use std::thread::Threads;

// The bytes of the segments after a run, and what ran of the transfers.
fn segments_lines(
    alloc: Global,
    read: &SegmentScenario,
    journal: &RunJournal,
) -> Result<Vec<u8>, NoMemory>
    requires { length read.now.expanded.transfers ≤ 16384 }
    ensures { IfOk result (λ lines. lines.items ≡ segments_text read.now.expanded journal.now) }
{
    let logged = journal.logged(alloc)?;
    segments_text(alloc, &read.expanded, &logged)
}

// The report of a run, and behind it the segments and the transfers.
fn segments_report(
    alloc: Global,
    read: &SegmentScenario,
    journal: &RunJournal,
) -> Result<Vec<u8>, AllocError>
    requires { length read.now.expanded.transfers ≤ 16384 }
    ensures { IfOk result (λ text. text.items ≡ report (ids_of read.now.scenario.ends) journal.now ++ segments_text read.now.expanded journal.now) }
{
    let mut text = run_text(alloc, &read.scenario, journal)?;
    let Ok(lines) = segments_lines(alloc, read, journal) else {
        return Err(AllocError);
    };
    text.extend_from_slice(&lines)?;
    Ok(text)
}

// What is printed of the run of a scenario with segments.
#[tactic(auto, using(crate::proofs::SegmentMeaning::segments_reported, crate::proofs::SegmentMeaning::segments_cut))]
fn segments_run<R: Threads + Sync>(
    rt: &R,
    alloc: Global,
    read: &SegmentScenario,
) -> Result<Output, AllocError>
    requires lawful { IsLawful read.now.scenario }
    requires packet { read.now.scenario.network ≡ Networks.Packet }
    requires few { length read.now.expanded.transfers ≤ 16384 }
    requires placed { All (HasSegment read.now.expanded.segments) read.now.expanded.transfers }
    ensures { IfOk result (λ output. IsSegmentsAnswer read.now (answer_in output)) }
{
    match run(rt, alloc, &read.scenario, &OpenGate) {
        Ok(finished) => {
            let text = segments_report(alloc, read, &finished.journal)?;
            Ok(Output { status: 0, text })
        }
        Err(RunFault::LogFull { part, journal }) => {
            let text = cut_run_text(alloc, &read.scenario, part, &journal)?;
            Ok(Output { status: 6, text })
        }
        Err(RunFault::NoMemory) => Err(AllocError),
    }
}

/// What `segments` prints of a text: the report of the run of the scenario that it spells, the bytes of its segments and what ran of
/// its transfers; the full log that the run met, and the report of what it made before; or the first fault of the text.
pub fn segments_output<R: Threads + Sync>(
    rt: &R,
    alloc: Global,
    bytes: &[u8],
) -> Result<Output, AllocError>
    ensures { IfOk result (λ output. SegmentsAnswers (segment_grammar bytes.now) (answer_in output)) }
{
    match read_segments(alloc, bytes) {
        Ok(read) => segments_run(rt, alloc, &read),
        Err(ReadFault::Refused(fault)) => fault_output(alloc, fault),
        Err(ReadFault::NoMemory) => Err(AllocError),
    }
}
