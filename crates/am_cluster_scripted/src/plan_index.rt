//! What the plan says of the packets of each link, found without a look at its other lines.

ghost use Rattle.am_cluster_scripted.specs.Plans.{AreOfLinks, HasFaults};
ghost use Rattle.am_scenario_plan.specs.Shape.{fault_at};
ghost use Rattle.am_scenario_plan.specs.declared.plan.PlanLine.{PlanLine};
ghost use Rattle.std.specs.Prelude.{◌≡◌, ◌<◌, List, [], ◌∷◌, IfOk, OnOk, length};

use crate::links::link_place;
use am_names::NodeId;
use am_office_entries::NoMemory;
use am_scenario_types::{LinkFault, PlanLine};
use am_wire_release::LinkFaults;
use std::alloc::Global;
use std::marker::Model;

/// The lines of a plan. Contracts see the lines.
#[derive(Drop)]
pub(crate) struct PlanIndex<'a> {
    lines: &'a [PlanLine],
    /// For each link, sixteen to a node, what the plan says of its packets.
    faults: Vec<LinkFaults>,
}

impl<'a> Model for PlanIndex<'a> {
    ghost use Rattle.am_scenario_plan.specs.declared.plan.PlanLine.{PlanLine};
    ghost use Rattle.std.specs.Prelude.{List};

    ghost Value = { List PlanLine };

    ghost use Rattle.am_cluster_scripted.specs.Plans.{IsIndexed, lines_of};

    ghost view = { lines_of };

    ghost invariant = { IsIndexed };
}

/// What is said of the links by no line.
fn no_faults(alloc: Global) -> Result<Vec<LinkFaults>, NoMemory>
    ensures { IfOk result (λ links. HasFaults [] links.items) }
{
    let mut links = Vec::new(alloc);
    for i in 0..256u16 {
        if links.push(LinkFaults::new(alloc)).is_err() {
            return Err(NoMemory);
        }
    }
    Ok(links)
}

/// One line more, before those that said what is said of the links.
fn add_line(links: &mut Vec<LinkFaults>, line: PlanLine) -> Result<(), NoMemory>
    requires from { line.from.0 < 16 }
    requires to { line.to.0 < 16 }
    requires all { length links.old.items ≡ 256 }
    ensures { (lines : List PlanLine) → HasFaults lines links.old.items → OnOk result (HasFaults (line ∷ lines) links.new.items) }
{
    let link = &mut links[link_place(line.from, line.to)];
    link.say(u64::from(line.number), line.fault)
}

impl<'a> PlanIndex<'a> {
    /// The index of these lines.
    pub(crate) fn new(alloc: Global, lines: &'a [PlanLine]) -> Result<PlanIndex<'a>, NoMemory>
        requires { AreOfLinks lines.now }
        ensures { IfOk result (λ plan. plan ≡ lines.now) }
    {
        let mut faults = no_faults(alloc)?;
        let count = lines.len();
        for done in 0..count {
            add_line(&mut faults, lines[count - 1 - done])?;
        }
        Ok(PlanIndex { lines, faults })
    }

    /// What the plan says of a packet, by its place among those that were emitted on the link.
    pub(crate) fn fault(&self, from: NodeId, to: NodeId, place: u32) -> Option<LinkFault>
        requires from { from.0 < 16 }
        requires to { to.0 < 16 }
        ensures { result ≡ fault_at self.now from to place }
    {
        let link = &self.faults[link_place(from, to)];
        link.fault(u64::from(place))
    }
}
