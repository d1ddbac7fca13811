//! Each node has the number of one line of standard input. They are summed at one endpoint, and the sum is sent to all nodes. The word
//! is a seed: of which packets are lost, come late or twice, and of the order in which the workers take turns.
#![tactic(auto)]

mod reduce;

use crate::reduce::{Reduced, reduce};
use am_library::BySeed;
use am_library::lines::{late, lost, repeated};
use am_names::{NodeId, Words};
use am_scenario_types::PlanLine;
use anyhow::Result;
use std::alloc::{AllocError, Global};
use std::env;

// Of the packets to the root one is lost and the next is late; of those from the root one comes twice.
fn plan_by(alloc: Global, seed: u64, nodes: u8) -> Result<Vec<PlanLine>, AllocError> {
    let mut plan = Vec::new(alloc);
    for node in 1..nodes {
        let number = 1 + (seed.wrapping_add(u64::from(node)) % 3) as u32;
        let (from, to) = (NodeId(node), NodeId(0));
        plan.push(lost(from, to, number))?;
        plan.push(late(from, to, number + 1, 1))?;
        plan.push(repeated(to, from, number))?;
    }
    Ok(plan)
}

fn print(rt: &impl Print, reduced: &Reduced) -> Result<()> {
    match reduced {
        Reduced::Whole { sum, notes } => {
            println!(rt; "sum {sum}")?;
            for (node, note) in notes.iter().enumerate() {
                match note {
                    Some(number) => println!(rt; "node {node} heard {number}")?,
                    None => println!(rt; "node {node} heard nothing")?,
                }
            }
        }
        Reduced::Open(summed) => {
            println!(rt; "open {}", summed.sum)?;
            for words in &summed.left {
                println!(rt; "left {} of node {}", words.a, words.b)?;
            }
            for words in &summed.unknown {
                println!(rt; "unknown {} of node {}", words.a, words.b)?;
            }
        }
    }
    Ok(())
}

// The numbers, one a line, each with its node.
fn read_numbers(rt: &(impl Input + AllocGlobal)) -> Result<Vec<Words>> {
    let mut numbers = Vec::new(rt.alloc());
    let mut b: u64 = 0;
    for line in rt.lines(rt.alloc()) {
        let a = line?.parse::<u64>()?;
        numbers.push(Words { a, b, c: 0, d: 0 })?;
        b = b.saturating_add(1);
    }
    Ok(numbers)
}

fn main(rt: HostRuntime) -> Result<()> {
    let seed = match env::args(&rt)?.nth(1) {
        Some(word) => word.parse::<u64>()?,
        None => 0,
    };
    let numbers = read_numbers(&rt)?;
    let nodes = u8::try_from(numbers.len())?;
    let plan = plan_by(rt.alloc(), seed, nodes)?;
    let reduced = reduce(&rt, &BySeed(seed), rt.alloc(), nodes, &plan, &numbers)?;
    print(&rt, &reduced)
}
