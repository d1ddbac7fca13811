//! The plan of the generated links.

ghost use Rattle.std.specs.Prelude.{◌≡◌, IfOk};
ghost use Rattle.am_scenario_generator.specs.Plan.{fault_of, line_of, stands, with_line, plan_after};

use am_names::NodeId;
use am_scenario_plan::{LinkFault, PlanLine};
use rand_core::utils::NextWord;
use rand_pcg::Lcg64Xsh32;
use std::alloc::{AllocError, Global};

fn fault_of(word: u32) -> LinkFault
    ensures { result ≡ fault_of word }
{
    let kind = word / 8192 % 3;
    if kind == 0 {
        LinkFault::Lose
    } else if kind == 1 {
        LinkFault::Repeat
    } else {
        LinkFault::Late(1 + (word / 32_768 % 16) as u8)
    }
}

fn line_of(word: u32) -> PlanLine
    ensures { result ≡ line_of word }
{
    PlanLine {
        from: NodeId((word % 4) as u8),
        to: NodeId((word / 4 % 4) as u8),
        number: 1 + word / 16 % 400,
        fault: fault_of(word),
    }
}

fn stands(plan: &[PlanLine], line: PlanLine) -> bool
    ensures { result ≡ stands plan.now line }
{
    plan.iter().any(|other| {
        other.from.0 == line.from.0 && other.to.0 == line.to.0 && other.number == line.number
    })
}

// Adds a line, unless one of the same link and number stands.
fn add_line(plan: &mut Vec<PlanLine>, line: PlanLine) -> Result<(), AllocError>
    ensures { IfOk result (λ _. plan.new.items ≡ with_line plan.old.items line) }
{
    if !stands(plan, line) {
        plan.push(line)?;
    }
    Ok(())
}

/// The plan's lines, of so many words.
#[tactic(auto, using(crate::proofs::Drawn::plan_more, crate::proofs::Drawn::plan_none, crate::proofs::Drawn::steps_more, crate::proofs::Drawn::steps_none))]
pub fn make_plan(
    alloc: Global,
    rng: &mut Lcg64Xsh32,
    words: u8,
) -> Result<Vec<PlanLine>, AllocError>
    ensures { IfOk result (λ plan. plan.items ≡ plan_after rng.old words) }
{
    let mut plan = Vec::new(alloc);
    for _line in 0..words {
        let word = rng.next_word();
        add_line(&mut plan, line_of(word))?;
    }
    Ok(plan)
}
