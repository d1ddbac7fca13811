//! Remote calls that happen at most once. Each line of the input is `call N`, `round`, or `lose NODE PACKET`: in the round above, the packet
//! with this number from node 1, which asks, or node 0, which answers, is lost. With a number behind the program's name threads take turns by
//! that seed, and without one there is the drain alone.
#![tactic(auto)]

ghost use Rattle.std.specs.Prelude.{◌≡◌, count_by};
ghost use Rattle.am_example_calls.specs.Answers.{has_run};

mod answers;

use crate::answers::{Answer, answers_to};
use am_library::{BySeed, DrainAlone};
use am_names::NodeId;
use am_scenario_types::{LinkFault, PlanLine};
use anyhow::{Result, bail};
use std::alloc::Global;
use std::env;

/// What is asked, and the plan of each round.
#[derive(Drop)]
struct Asked {
    arguments: Vec<u64>,
    plans: Vec<Vec<PlanLine>>,
}

impl Asked {
    fn read(&mut self, alloc: Global, words: &[&str]) -> Result<()> {
        match *words {
            ["call", argument] => self.arguments.push(argument.parse()?)?,
            ["round"] => self.plans.push(Vec::new(alloc))?,
            ["lose", node, packet] => self.lose(node.parse()?, packet.parse()?)?,
            _ => bail!("a line is no call, no round and no loss"),
        }
        Ok(())
    }

    fn lose(&mut self, node: u8, number: u32) -> Result<()> {
        let line = PlanLine {
            from: NodeId(node),
            to: NodeId(if node == 0 { 1 } else { 0 }),
            number,
            fault: LinkFault::Lose,
        };
        match self.plans.last_mut() {
            Some(plan) => plan.push(line)?,
            None => bail!("a loss in no round"),
        }
        Ok(())
    }
}

// How many calls ran. Each counts once, however often its request ran.
fn count_ran(answers: &[Answer]) -> usize
    ensures { result ≡ count_by has_run answers.now }
{
    answers
        .iter()
        .filter(|answer| !matches!(**answer, Answer::NeverRan))
        .count()
}

fn print(rt: &impl Print, answers: &[Answer]) -> Result<()> {
    for (token, answer) in answers.iter().enumerate() {
        match *answer {
            Answer::Heard(words) => println!(rt; "call {token}: {}", words.b)?,
            Answer::Unheard => println!(rt; "call {token}: ran, unheard")?,
            Answer::NeverRan => println!(rt; "call {token}: never ran")?,
        }
    }
    println!(rt; "ran {}", count_ran(answers))?;
    Ok(())
}

fn main(rt: HostRuntime) -> Result<()> {
    let alloc = rt.alloc();
    let mut asked = Asked {
        arguments: Vec::new(alloc),
        plans: Vec::new(alloc),
    };
    for line in rt.lines(alloc) {
        let line = line?;
        let words: Vec<&str> = line.split_whitespace().collect(alloc)?;
        asked.read(alloc, &words)?;
    }
    let seed = env::args(&rt)?.nth(1);
    let answers = match seed {
        Some(seed) => answers_to(
            &BySeed(seed.parse()?),
            &rt,
            alloc,
            &asked.arguments,
            &asked.plans,
        )?,
        None => answers_to(&DrainAlone, &rt, alloc, &asked.arguments, &asked.plans)?,
    };
    print(&rt, &answers)
}
