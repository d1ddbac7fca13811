//! The links from one node, as they are made.

ghost use Rattle.am_wire.specs.AllLinks.Links.{IsOpened, IsRow, is_of_link, plan_of};
ghost use Rattle.std.specs.Prelude.{◌≡◌, IfOk};

use crate::{LinkIn, LinkOut, make_link};
use am_names::{NoMemory, NodeId};
use am_scenario_plan::PlanLine;
use std::alloc::Global;

/// The links from one node, by the numbers of the nodes to which they go.
#[derive(Drop)]
pub(crate) struct Row {
    pub(crate) outs: Vec<LinkOut>,
    pub(crate) ins: Vec<LinkIn>,
}

/// Whether the plan's line is one of the link.
fn is_of_link(line: PlanLine, from: NodeId, to: NodeId) -> bool
    ensures { result ≡ is_of_link from to line }
{
    from.0 == line.from.0 && to.0 == line.to.0
}

/// The lines of the plan that name the link.
#[tactic(auto, using(crate::proofs::Planned::plan_in, crate::proofs::Planned::plan_out))]
fn plan_of(
    alloc: Global,
    plan: &[PlanLine],
    from: NodeId,
    to: NodeId,
) -> Result<Vec<PlanLine>, NoMemory>
    ensures { IfOk result (λ lines. lines.items ≡ plan_of plan.now from to) }
{
    let mut lines = Vec::new(alloc);
    for line in plan {
        if is_of_link(*line, from, to) {
            lines.push(*line)?;
        }
    }
    Ok(lines)
}

/// A link from a node to a node, with room for a packet.
#[tactic(auto, using(crate::proofs::Planned::same_shape))]
fn open_link(
    alloc: Global,
    plan: &[PlanLine],
    from: NodeId,
    to: NodeId,
) -> Result<(LinkOut, LinkIn), NoMemory>
    ensures { IfOk result (λ ends. IsOpened plan.now from to ends.0 ends.1) }
{
    let (mut out, inn) = make_link(alloc, plan_of(alloc, plan, from, to)?, from, to)?;
    out.room()?;
    Ok((out, inn))
}

/// The links from a node to each of so many nodes.
pub(crate) fn open_row(
    alloc: Global,
    plan: &[PlanLine],
    from: NodeId,
    nodes: u8,
) -> Result<Row, NoMemory>
    ensures { IfOk result (λ row. IsRow plan.now from nodes row.outs.items row.ins.items) }
{
    let mut outs = Vec::new(alloc);
    let mut ins = Vec::new(alloc);
    for to in 0..nodes {
        let (out, inn) = open_link(alloc, plan, from, NodeId(to))?;
        outs.push(out)?;
        ins.push(inn)?;
    }
    Ok(Row { outs, ins })
}
