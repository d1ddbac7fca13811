//! The generated scenario.

ghost use Rattle.std.specs.Prelude.{◌≡◌, ◌≤◌, IfOk, length, map};
ghost use Rattle.std.specs.List.{range_with_len};
ghost use Rattle.am_scenario_types.specs.declared.parts.Form.TheVariants.{Run};
ghost use Rattle.am_scenario_types.specs.declared.parts.Network.TheVariants.{Packet};
ghost use Rattle.am_scenario_types.specs.Lawful.{IsLawful, IsOfForm};
ghost use Rattle.am_scenario_generator.specs.Scenarios.{end_line, thread_line, generated};

use crate::calls::make_script;
use crate::plan::make_plan;
use am_names::{EndpointId, NoMemory, NodeId, Tag};
use am_scenario_types::{EndLine, Network, Scenario, ThreadLine};
use rand_pcg::Lcg64Xsh32;
use std::alloc::{AllocError, Global};

#[tactic(auto, using(am_lemmas::proofs::Numbered::lines_more))]
fn make_ends(alloc: Global, count: u8) -> Result<Vec<EndLine>, AllocError>
    ensures { IfOk result (λ ends. ends.items ≡ map end_line (range_with_len 0 count)) }
{
    let mut ends = Vec::new(alloc);
    for id in 0..count {
        ends.push(EndLine {
            id: EndpointId(id),
            node: NodeId(id % 4),
            tag: Tag(100 + u64::from(id)),
            disk: false,
        })?;
    }
    Ok(ends)
}

#[tactic(auto, using(am_lemmas::proofs::Numbered::lines_more))]
fn make_threads(alloc: Global, count: u8) -> Result<Vec<ThreadLine>, AllocError>
    ensures { IfOk result (λ threads. threads.items ≡ map thread_line (range_with_len 0 count)) }
{
    let mut threads = Vec::new(alloc);
    for id in 0..count {
        threads.push(ThreadLine {
            id,
            node: NodeId(id % 4),
        })?;
    }
    Ok(threads)
}

/// The scenario of a number: twelve endpoints and eight threads on four nodes, 1,744 calls, and up to 32 packets that
/// are lost, repeated or late, all by the words of the generator `Lcg64Xsh32` with this state and the stream 54.
/// `NoMemory` comes only for want of memory.
#[tactic(auto, unfolding(crate::specs::Scenarios::generated))]
pub fn generate(alloc: Global, n: u64) -> Result<Scenario, NoMemory>
    ensures exact { IfOk result (λ scenario. scenario ≡ generated n) }
    ensures lawful { IfOk result IsLawful }
    ensures of_form { IfOk result (IsOfForm Run) }
    ensures packet { IfOk result (λ scenario. scenario.network ≡ Packet) }
    ensures calls { IfOk result (λ scenario. length scenario.script ≡ 1744) }
    ensures plan { IfOk result (λ scenario. length scenario.plan ≤ 32) }
{
    let mut rng = Lcg64Xsh32::new(n, 54);
    let ends = make_ends(alloc, 12)?;
    let threads = make_threads(alloc, 8)?;
    let script = make_script(alloc, &mut rng)?;
    let plan = make_plan(alloc, &mut rng, 32)?;
    Ok(Scenario {
        network: Network::Packet,
        nodes: 4,
        frames: 2,
        channels: 2,
        tries: 4,
        bounces: 3,
        pool: None,
        keep: 2,
        log: 65_536,
        turns: 0,
        ends,
        bundles: Vec::new(alloc),
        threads,
        plan,
        faults: Vec::new(alloc),
        script,
        steps: Vec::new(alloc),
    })
}
