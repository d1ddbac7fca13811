//! Scenarios for tests.

ghost use Rattle.am_scenario_types.specs.Lawful.{IsLawful};
ghost use Rattle.am_scenario_types.specs.declared.parts.Network.TheVariants.{Packet};
ghost use Rattle.std.specs.Prelude.{◌≡◌, ◌≤◌, IfOk};

use am_office_entries::NoMemory;
use am_scenario::{Form, Scenario, generate, read};
use std::alloc::Global;
use std::process::Abort;

/// The made workload with a number of turns, 0 to 10,000.
pub fn workload(alloc: Global, turns: u32) -> Result<Scenario, NoMemory>
    requires turns { turns ≤ 10_000 }
    ensures lawful { IfOk result IsLawful }
    ensures packet { IfOk result (λ scenario. scenario.network ≡ Packet) }
    ensures turns { IfOk result (λ scenario. scenario.turns ≡ turns) }
{
    let scenario = generate(alloc, 0)?;
    Ok(Scenario { turns, ..scenario })
}

/// The scenario of a text of the packet network.
pub fn scenario_of(rt: &impl Abort, alloc: Global, text: &str) -> Scenario
    ensures lawful { IsLawful result }
    ensures packet { result.network ≡ Packet }
{
    let Ok(scenario) = read(alloc, Form::Run, text.as_bytes()) else {
        rt.panic("no scenario")
    };
    scenario
}
