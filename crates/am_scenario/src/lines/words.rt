//! What a line says, by its first word and the words behind it.

ghost use Rattle.am_lexer.specs.Text.{words_of};
ghost use Rattle.am_scenario.specs.Drafts.Drafts.{said};
ghost use Rattle.am_scenario.specs.Lines.Lines.{words_say};
ghost use Rattle.am_scenario.specs.Lines.Answers.{Yields};

use crate::drafts::{Draft, Line, LineFault};
use crate::lines::bundle::bundle_line;
use crate::lines::declarations::{endpoint_line, plan_line, swap_fault_line, thread_line};
use crate::lines::head::Head;
use crate::lines::lined::lined;
use crate::lines::script::script_line;
use crate::lines::settings::{set_line, version_line};
use crate::lines::steps::{driver_line, interface_line, outside_line};
use am_scenario_types::Form;
use std::alloc::Global;

/// What the words behind a first word say, or their first fault.
#[tactic(auto, unfolding(crate::specs::Lines::Lines::words_say))]
pub fn words_say(
    alloc: Global,
    form: Form,
    draft: &Draft,
    head: Head,
    rest: &[u8],
) -> Result<Line, LineFault>
    ensures { Yields (λ line. line) result (words_say form (said draft.now) head (words_of rest.now)) }
{
    match head {
        Head::Version => lined(version_line(draft, rest)),
        Head::Setting(name) => lined(set_line(form, &draft.settings, name, rest)),
        Head::Endpoint => lined(endpoint_line(draft, rest)),
        Head::Bundle => bundle_line(alloc, draft, rest),
        Head::Thread => lined(thread_line(draft, rest)),
        Head::Plan => lined(plan_line(draft, rest)),
        Head::SwapFault => lined(swap_fault_line(draft, rest)),
        Head::Outside => lined(outside_line(draft, rest)),
        Head::OfThread(number) => script_line(alloc, draft, number, rest),
        Head::OfInterface(number) => lined(interface_line(draft, number, rest)),
        Head::OfDriver(number) => lined(driver_line(draft, number, rest)),
    }
}
