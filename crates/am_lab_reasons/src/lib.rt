//! What became of a message of a report: each line that touches it, the packets that carried it and its answers, and its fate with
//! its cause.
#![tactic(auto)]

ghost use Rattle.am_check.specs.Declares as declarations;
ghost use Rattle.am_check.specs.Exact.{IsChecked};
ghost use Rattle.am_check.specs.Verdict.{IsReportOf};
ghost use Rattle.am_lab_reasons.specs.Parts.{HasReport};
ghost use Rattle.am_lab_reasons.specs.Reasons.{IsDeclared, TellsReasons, TellsOf, reasons};
ghost use Rattle.am_scenario_types.specs.Lawful.{IsLawful};
ghost use Rattle.am_scenario_types.specs.declared.parts.Form.{Form as Kind};
ghost use Rattle.std.specs.Prelude.{◌≡◌, ◌<◌, ◌^◌, IfOk, length};

pub mod before;
pub mod due;
pub mod journal;
mod packets;
mod parts;
mod receipts;
pub mod refusals;
pub mod stops;
mod told;
mod touches;
mod whereabouts;

use crate::journal::journal_of;
pub use crate::parts::parts_of;
pub use crate::receipts::TracedJournal;
use crate::told::put_reasons;
use am_names::{EndpointId, NoMemory, Serial};
use am_scenario::{EndLine, Form, PlanLine, Scenario};
use std::alloc::Global;

/// What became of a message of a journal, as `why` tells it (`reasons` of specs/Reasons). The plan is that of the scenario whose journal
/// it is. Goes over the entries a few times, and over the plan for each packet of the message that none receives.
///
/// `NoMemory` comes where there is none for the text.
pub fn text_of(
    alloc: Global,
    plan: &[PlanLine],
    journal: &TracedJournal,
    serial: Serial,
) -> Result<Vec<u8>, NoMemory>
    requires { length journal.now < 2 ^ 31 }
    ensures { IfOk result (λ out. out.items ≡ reasons plan.now journal.now serial) }
{
    let mut out = Vec::new(alloc);
    put_reasons(&mut out, plan, journal, serial)?;
    Ok(out)
}

// What became of a message of the report of a scenario.
fn reasons_of(
    alloc: Global,
    scenario: &Scenario,
    bytes: &[u8],
    serial: Serial,
) -> Result<Vec<u8>, NoMemory>
    requires few { length bytes.now < 2 ^ 31 }
    requires lawful { IsLawful scenario.now }
    requires report { (form : Kind) × IsReportOf form scenario.now bytes.now }
    ensures { (form : Kind) → IsReportOf form scenario.now bytes.now → IfOk result (λ out. TellsOf form scenario.now bytes.now serial out.items) }
{
    let journal = TracedJournal::new(alloc, journal_of(alloc, scenario, bytes)?)?;
    text_of(alloc, &scenario.plan, &journal, serial)
}

/// What became of a message of the report in a text which is that of a journal that follows the scenario in front of it. Each entry
/// that touches the message stands in a line `line N` and what the report prints, in order; behind one that emits a packet stands where
/// that was received, or why it never was; and the last line tells the message's fate. A message that no entry accepts is told to be none.
///
/// `NoMemory` comes where there is none for the journal that is made again, or for the text.
pub fn why(alloc: Global, form: Form, text: &[u8], serial: Serial) -> Result<Vec<u8>, NoMemory>
    requires few { length text.now < 2 ^ 31 }
    requires checked { IsChecked form text.now }
    ensures { IfOk result (λ out. TellsReasons form text.now serial out.items) }
{
    let (scenario, bytes) = parts_of(alloc, form, text)?;
    reasons_of(alloc, &scenario, bytes, serial)
}

// Whether one of these lines declares an endpoint.
fn declares(lines: &[EndLine], end: EndpointId) -> bool
    ensures { result ≡ declarations.declares end lines.now }
{
    lines.iter().any(|line| end.0 == line.id.0)
}

// Whether a scenario declares an endpoint.
fn has_end(scenario: &Scenario, end: EndpointId) -> bool
    ensures { result ≡ declarations.declares end scenario.now.ends }
{
    declares(&scenario.ends, end)
}

/// Whether the scenario in front of the report in a text declares an endpoint.
///
/// `NoMemory` comes where there is none for the scenario.
pub fn is_declared(
    alloc: Global,
    form: Form,
    text: &[u8],
    end: EndpointId,
) -> Result<bool, NoMemory>
    requires report { HasReport form text.now }
    ensures { IfOk result (IsDeclared form text.now end) }
{
    let (scenario, _) = parts_of(alloc, form, text)?;
    Ok(has_end(&scenario, end))
}
