//! The plan that a seed draws for a scenario's links.

ghost use Rattle.am_lab_scenarios.specs.Faults.Plans.{drawn_plan, fault_of, is_drawn, line_at, packets_asked, with_drawn_plan};
ghost use Rattle.am_scenario_types.specs.Lawful.{IsLawful, IsOfForm};
ghost use Rattle.am_scenario_types.specs.declared.parts.Form.TheVariants.{Run};
ghost use Rattle.std.specs.Prelude.{◌≡◌, ◌*◌, ◌<◌, ◌≤◌, IfOk, OnErr, OnOk};

use am_names::NodeId;
use am_scenario_types::{LinkFault, PlanLine, Scenario};
use rand_core::utils::NextWord;
use rand_pcg::Lcg64Xsh32;
use std::alloc::{AllocError, Global};

// The stream of the generator's words.
const STREAM: u64 = 55;

// How many lines a plan has at most.
const MOST_LINES: u32 = 4096;

// Whether a word says something of its packet.
fn is_drawn(percent: u8, word: u32) -> bool
    ensures { result ≡ is_drawn percent word }
{
    word % 100 < u32::from(percent)
}

// What a word says of its packet.
fn fault_of(word: u32) -> LinkFault
    ensures { result ≡ fault_of word }
{
    let kind = word / 100 % 3;
    if kind == 0 {
        LinkFault::Lose
    } else if kind == 1 {
        LinkFault::Repeat
    } else {
        LinkFault::Late(1 + (word / 300 % 16) as u8)
    }
}

// The line of the packet at this place, which a word gives.
fn line_at(nodes: u8, packets: u32, place: u32, word: u32) -> PlanLine
    requires nodes { nodes ≤ 16 }
    requires packets { packets ≤ 4096 }
    requires place { place < nodes * nodes * packets }
    ensures { result ≡ line_at nodes packets place word }
{
    let link = place / packets;
    PlanLine {
        from: NodeId((link / u32::from(nodes)) as u8),
        to: NodeId((link % u32::from(nodes)) as u8),
        number: place % packets + 1,
        fault: fault_of(word),
    }
}

// How many packets of each link are asked about, where there are so many calls.
fn packets_asked(nodes: u8, calls: u32) -> u32
    requires some { 0 < nodes }
    requires nodes { nodes ≤ 16 }
    requires calls { calls ≤ 16384 }
    ensures { result ≡ packets_asked nodes calls }
{
    let links = u32::from(nodes) * u32::from(nodes);
    (2 * calls).min(MOST_LINES / links)
}

// The plan that a seed draws for the links between so many nodes, of so many packets of each.
#[tactic(auto, using(crate::proofs::Drawing::lines_more, crate::proofs::Drawing::lines_none, am_scenario_generator::proofs::Drawn::steps_more, am_scenario_generator::proofs::Drawn::steps_none))]
fn drawn_plan(
    alloc: Global,
    seed: u64,
    percent: u8,
    nodes: u8,
    packets: u32,
) -> Result<Vec<PlanLine>, AllocError>
    requires nodes { nodes ≤ 16 }
    requires packets { packets ≤ 4096 }
    ensures { IfOk result (λ plan. plan.items ≡ drawn_plan seed percent nodes packets) }
{
    let mut rng = Lcg64Xsh32::new(seed, STREAM);
    let mut plan = Vec::new(alloc);
    let places = u32::from(nodes) * u32::from(nodes) * packets;
    for place in 0..places {
        let word = rng.next_word();
        if is_drawn(percent, word) {
            plan.push(line_at(nodes, packets, place, word))?;
        }
    }
    Ok(plan)
}

/// Gives the scenario of a run the plan that a seed draws, in place of its own: of the first packets of each link, which are twice as many as the
/// scenario has calls or as many as a plan has room for, about so many in a hundred are lost, repeated or late. `percent` is 0 to 100.
/// The rest stays as it is, and the scenario lawful. `AllocError` comes only for want of memory, and leaves the scenario as it was.
pub fn draw_plan(
    alloc: Global,
    seed: u64,
    percent: u8,
    scenario: &mut Scenario,
) -> Result<(), AllocError>
    requires percent { percent ≤ 100 }
    requires lawful { IsLawful scenario.old }
    requires of_form { IsOfForm Run scenario.old }
    ensures exact { OnOk result (scenario.new ≡ with_drawn_plan seed percent scenario.old) }
    ensures lawful { OnOk result (IsLawful scenario.new) }
    ensures of_form { OnOk result (IsOfForm Run scenario.new) }
    ensures err { OnErr result (scenario.new ≡ scenario.old) }
{
    let packets = packets_asked(scenario.nodes, scenario.script.len() as u32);
    let plan = drawn_plan(alloc, seed, percent, scenario.nodes, packets)?;
    scenario.plan = plan;
    Ok(())
}
