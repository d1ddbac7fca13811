//! The parts of a text: its scenario, and the report behind that.

ghost use Rattle.am_lab_reasons.specs.Parts.{HasParts, HasReport};
ghost use Rattle.am_scenario_types.specs.Lawful.{IsLawful, IsOfForm};
ghost use Rattle.std.specs.Prelude.{◌≤◌, IfOk, length};

use am_check::place_of;
use am_names::NoMemory;
use am_scenario::{Form, ReadFault, Scenario, read};
use std::alloc::Global;

/// The scenario that a text spells up to its report, and the report with what stands behind it.
///
/// `NoMemory` comes where there is none for the scenario.
pub fn parts_of(alloc: Global, form: Form, text: &[u8]) -> Result<(Scenario, &[u8]), NoMemory>
    requires report { HasReport form text.now }
    ensures parts { IfOk result (λ parts. HasParts form text.now parts.0 parts.1.now) }
    ensures lawful { IfOk result (λ parts. IsLawful parts.0) }
    ensures of_form { IfOk result (λ parts. IsOfForm form parts.0) }
    ensures short { IfOk result (λ parts. length parts.1.now ≤ length text.now) }
{
    let Some(place) = place_of(text) else {
        unreachable!()
    };
    match read(alloc, form, &text[..place]) {
        Ok(scenario) => Ok((scenario, &text[place..])),
        Err(ReadFault::NoMemory) => Err(NoMemory),
        Err(ReadFault::Refused(_)) => unreachable!(),
    }
}
