//! The scenario that a text with segments stands for.

ghost use Rattle.std.specs.Prelude.{IfOk};
ghost use Rattle.am_lab_scenarios.specs.Derived.Answers.{ExpandedAnswers};
ghost use Rattle.am_main_lines.specs.Lines.{answer_in};
ghost use Rattle.am_segment.specs.Spelling.{segment_grammar};

use crate::derived::outputs::printed;
use am_main_lines::{Output, fault_output};
use am_names::NoMemory;
use am_scenario_types::ReadFault;
use am_segment::read_segments;
use std::alloc::Global;

/// The scenario that `am2 segments` runs for a text, in which requests and polls stand for the lines of transfers and
/// serves, as a text that spells it for `am2 run`; the status is 0. A text that spells no scenario with segments is
/// answered as `am2 segments` does: its first fault, with status 3. `NoMemory` comes only for want of memory, and
/// leaves nothing of the text.
pub fn expanded_scenario(alloc: Global, bytes: &[u8]) -> Result<Output, NoMemory>
    ensures { IfOk result (λ output. ExpandedAnswers (segment_grammar bytes.now) (answer_in output)) }
{
    match read_segments(alloc, bytes) {
        Ok(read) => printed(alloc, &read.scenario),
        Err(ReadFault::Refused(fault)) => Ok(fault_output(alloc, fault)?),
        Err(ReadFault::NoMemory) => Err(NoMemory),
    }
}
