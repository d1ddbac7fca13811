//! The scenario that a text spells.

ghost use Rattle.std.specs.Prelude.{IfOk};
ghost use Rattle.am_scenario.specs.Grammar.{grammar};
ghost use Rattle.am_scenario.specs.Answers.{Answers};
ghost use Rattle.am_scenario.specs.Laws.{ExactlyOne, SpellsLawful};
ghost use Rattle.am_scenario_types.specs.Lawful.{IsLawful, IsOfForm};

use crate::drafts::Draft;
use crate::finish::finish;
use crate::order::take_line;
use am_lexer::{lines_are_text, next_line};
use am_scenario_types::{Form, ReadFault, Scenario};
use std::alloc::Global;

/// The scenario that the bytes spell, in the grammar of docs/MANUAL.md, or the line and the cause of their first
/// fault. A line's number stands still at 2^32-1. Without memory the answer is `NoMemory`, and nothing is left of the scenario.
pub fn read(alloc: Global, form: Form, bytes: &[u8]) -> Result<Scenario, ReadFault>
    ensures exact { Answers result (grammar form bytes.now) }
    ensures lawful { IfOk result IsLawful }
    ensures of_form { IfOk result (IsOfForm form) }
{
    let mut draft = Draft::new(alloc);
    let mut number: u32 = 1;
    let mut rest = bytes;
    let printable = lines_are_text(bytes);
    while let Some((line, after)) = next_line(rest) {
        if let Err(fault) = take_line(alloc, form, number, &mut draft, printable, line) {
            return Err(fault.at_line(number));
        }
        number = number.saturating_add(1);
        rest = after;
    }
    match finish(alloc, draft) {
        Ok(scenario) => Ok(scenario),
        Err(fault) => Err(fault.at_line(number)),
    }
}

/// Each text spells one scenario or has one first fault, and never both; and a scenario that is spelled is lawful.
pub fn one_scenario_or_fault()
    ensures one { ExactlyOne }
    ensures lawful { SpellsLawful }
{}
