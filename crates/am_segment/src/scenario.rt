//! The scenario that a text with segments spells.

ghost use Rattle.std.specs.Prelude.{◌≡◌, ◌≤◌, ◌-◌, IfOk, length};
ghost use Rattle.am_scenario_types.specs.Lawful.{IsLawful, IsOfForm};
ghost use Rattle.am_scenario_types.specs.declared.parts.Form.TheVariants as Forms;
ghost use Rattle.am_segment.specs.Expansion.{Answers};
ghost use Rattle.am_segment.specs.Spelling.{line_behind, origin_of, segment_grammar};

use crate::expansion::Expanded;
use crate::reading::expand;
use am_lexer::next_line;
use am_scenario::{Form, ReadFault, Scenario, ScenarioFault, read};
use std::alloc::Global;

/// A scenario with segments and transfers.
#[derive(Drop)]
pub struct SegmentScenario {
    pub expanded: Expanded,
    /// The scenario that the expanded text spells.
    pub scenario: Scenario,
}

// The number of the line behind the last.
fn line_behind(bytes: &[u8]) -> u32
    ensures { result ≡ line_behind bytes.now }
{
    let mut number: u32 = 1;
    let mut rest = bytes;
    while let Some((_, after)) = next_line(rest) {
        number = number.saturating_add(1);
        rest = after;
    }
    number
}

// The line that a line of the text came from.
fn origin_of(origin: &[u32], behind: u32, number: u32) -> u32
    ensures { result ≡ origin_of origin.now behind number }
{
    match origin.get(number.saturating_sub(1) as usize) {
        Some(line) => *line,
        None => behind,
    }
}

/// The scenario that the bytes spell, with its segments and transfers. A fault of an own line comes before all others; a fault of
/// the expanded text is told with the line that it came from, and one behind its last line with the number of the line behind the
/// last of the bytes. Without memory the answer is `NoMemory`, and nothing is left of the scenario.
#[tactic(auto, unfolding(crate::specs::Spelling::segment_grammar))]
pub fn read_segments(alloc: Global, bytes: &[u8]) -> Result<SegmentScenario, ReadFault>
    ensures exact { Answers result (segment_grammar bytes.now) }
    ensures lawful { IfOk result (λ s. IsLawful s.scenario) }
    ensures of_form { IfOk result (λ s. IsOfForm Forms.Run s.scenario) }
    ensures few { IfOk result (λ s. length s.expanded.transfers ≤ 16384) }
{
    let expanded = match expand(alloc, bytes) {
        Ok(expanded) => expanded,
        Err(fault) => return Err(fault),
    };
    match read(alloc, Form::Run, &expanded.text) {
        Ok(scenario) => Ok(SegmentScenario { expanded, scenario }),
        Err(ReadFault::Refused(fault)) => {
            let line = origin_of(&expanded.origin, line_behind(bytes), fault.line);
            let what = fault.what;
            Err(ReadFault::Refused(ScenarioFault { line, what }))
        }
        Err(ReadFault::NoMemory) => Err(ReadFault::NoMemory),
    }
}
