//! What a plan says of the packets of one link, found by a packet's place without a look at other lines.

ghost use Rattle.std.specs.Prelude.{◌≡◌, ℕ, ◌==◌, List, ◌∷◌, None, Some, IfOk, OnOk, OnErr, if◌then◌else◌};
ghost use Rattle.am_scenario_plan.specs.declared.plan.PlanLine.{PlanLine};
ghost use Rattle.am_wire_release.specs.Faults.{SaysOf, said};

use am_names::{NoMemory, NodeId};
use am_scenario_plan::{LinkFault, PlanLine};
use std::alloc::Global;
use std::collections::BTreeMap;
use std::marker::Model;

/// What is said of the packets of one link. Contracts see the places of which something is
/// said, from 1, each with what is said.
///
/// ```
/// let mut faults = LinkFaults::new(alloc);
/// faults.say(3, LinkFault::Lose)?;
/// ```
#[derive(Drop)]
pub struct LinkFaults {
    places: BTreeMap<u64, LinkFault>,
}

impl Model for LinkFaults {
    ghost use Rattle.am_scenario_plan.specs.declared.plan.LinkFault.{LinkFault};
    ghost use Rattle.std.specs.Prelude.{ℕ, List};

    ghost Value = { List (ℕ × LinkFault) };

    ghost view = { λ f. f.places.entries };
}

impl LinkFaults {
    /// Nothing is said of any packet.
    pub fn new(alloc: Global) -> LinkFaults
        ensures { (place : ℕ) → said result place ≡ None }
    {
        LinkFaults {
            places: BTreeMap::new(alloc),
        }
    }

    /// What the plan says of the link from a node to a node: the first of its lines, where several name one packet.
    /// `NoMemory` comes only for want of memory.
    pub fn of_link(
        alloc: Global,
        plan: &[PlanLine],
        from: NodeId,
        to: NodeId,
    ) -> Result<LinkFaults, NoMemory>
        ensures { IfOk result (SaysOf plan.now from to) }
    {
        let mut faults = LinkFaults::new(alloc);
        let count = plan.len();
        for done in 0..count {
            faults.say_line(plan[count - 1 - done], from, to)?;
        }
        Ok(faults)
    }

    /// One line more, before those that said what was said, if it is of the link.
    fn say_line(&mut self, line: PlanLine, from: NodeId, to: NodeId) -> Result<(), NoMemory>
        ensures { (plan : List PlanLine) → SaysOf plan from to self.old → OnOk result (SaysOf (line ∷ plan) from to self.new) }
    {
        if from == line.from && to == line.to {
            self.say(u64::from(line.number), line.fault)?;
        }
        Ok(())
    }

    /// Says something of the packet at a place, whatever was said of it before. `NoMemory` leaves all as it was.
    pub fn say(&mut self, place: u64, fault: LinkFault) -> Result<(), NoMemory>
        ensures ok { OnOk result ((other : ℕ) → said self.new other ≡ (if other == place then Some fault else said self.old other)) }
        ensures err { OnErr result ((other : ℕ) → said self.new other ≡ said self.old other) }
    {
        match self.places.insert(place, fault) {
            Ok(_) => Ok(()),
            Err(_) => Err(NoMemory),
        }
    }

    /// What is said of the packet at a place.
    ///
    /// ```
    /// let is_lost = faults.fault(3) == Some(LinkFault::Lose);
    /// ```
    pub fn fault(&self, place: u64) -> Option<LinkFault>
        ensures { result ≡ said self.now place }
    {
        self.places.get(&place).copied()
    }
}
