//! The state behind so many entries of a report's journal.

ghost use Rattle.am_check.specs.Verdict.{IsReportOf};
ghost use Rattle.am_lab_state.specs.Texts.{state_text};
ghost use Rattle.am_lab_state.specs.Fronts.{IsFrontOf};
ghost use Rattle.am_model_scripts.specs.Layout.{layout_of};
ghost use Rattle.am_scenario_types.specs.Lawful.{IsLawful};
ghost use Rattle.am_scenario_types.specs.declared.parts.Form.{Form as Kind};
ghost use Rattle.std.specs.Prelude.{◌≡◌, ◌≤◌, ◌<◌, ◌^◌, IfOk, length, take};

use crate::states::state_text;
use am_lab_reasons::journal::reach;
use am_machine::Cluster;
use am_names::NoMemory;
use am_scenario::Scenario;
use std::alloc::Global;

/// The text of the state behind the first so many entries of the journal of a report of the scenario, which are made again.
/// `NoMemory` comes where there is none for them, or for the text.
pub(crate) fn front_text(
    alloc: Global,
    scenario: &Scenario,
    bytes: &[u8],
    count: u32,
) -> Result<Vec<u8>, NoMemory>
    requires few { length bytes.now < 2 ^ 31 }
    requires lawful { IsLawful scenario.now }
    requires front { (form : Kind) × IsFrontOf form scenario.now bytes.now count }
    ensures { (form : Kind) (r : IsReportOf form scenario.now bytes.now) → count ≤ length r.journal → IfOk result (λ text. text.items ≡ state_text scenario.now (take count r.journal)) }
{
    let mut cluster = Cluster::new(alloc, scenario)?;
    reach(&mut cluster, bytes, count + 3)?;
    state_text(alloc, &cluster, scenario)
}
