//! The links between the nodes of a scenario, made before its run: one from each node to each, each by its two ends.

ghost use Rattle.am_wire.specs.AllLinks.Links.{AreLinks};
ghost use Rattle.std.specs.Prelude.{IfOk};

mod making;
mod spreading;

use crate::all_links::making::open_row;
use crate::all_links::spreading::{open_columns, spread};
use crate::{LinkIn, LinkOut};
pub use am_names::NoMemory;
use am_names::NodeId;
use am_scenario_plan::PlanLine;
use std::alloc::Global;

/// The links between all nodes.
#[derive(Drop)]
pub struct Links {
    /// For each node, by its number, the ends of the links from it, by the numbers of the nodes to which they go.
    pub outs: Vec<Vec<LinkOut>>,
    /// For each node, by its number, the ends of the links to it, by the numbers of the nodes from which they come.
    pub ins: Vec<Vec<LinkIn>>,
}

/// The links from each of so many nodes to each. Each releases what the plan says of it, and has room for a packet. Of the
/// plan it holds the lines that name it. `NoMemory` comes only for want of memory.
pub fn open_links(alloc: Global, plan: &[PlanLine], nodes: u8) -> Result<Links, NoMemory>
    ensures { IfOk result (AreLinks plan.now nodes) }
{
    let mut outs = Vec::new(alloc);
    let mut ins = open_columns(alloc, nodes)?;
    for from in 0..nodes {
        let row = open_row(alloc, plan, NodeId(from), nodes)?;
        spread(row.ins, &mut ins)?;
        outs.push(row.outs)?;
    }
    Ok(Links { outs, ins })
}
