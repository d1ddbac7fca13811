//! The plan lines so far, found by their packets without a look at other lines.

ghost use Rattle.std.specs.Prelude.{◌≡◌, [], ◌∷◌, ◌++◌, length, OnOk, OnErr};
ghost use Rattle.am_scenario.specs.Drafts.Planned.{place_of};
ghost use Rattle.am_scenario.specs.Drafts.Said.{is_planned};

use am_names::NodeId;
use am_scenario_types::PlanLine;
use std::alloc::{AllocError, Global};
use std::collections::BTreeSet;
use std::marker::Model;

/// The packet that a plan line is of.
#[derive(Clone, Copy, PartialEq, Eq, PartialOrd, Ord, Drop)]
struct Place {
    number: u32,
    from: NodeId,
    to: NodeId,
}

fn place_of(line: &PlanLine) -> Place
    ensures { result ≡ place_of line.now }
{
    Place {
        number: line.number,
        from: line.from,
        to: line.to,
    }
}

/// Plan lines, in the order of the text. Contracts see the lines.
#[derive(Drop)]
pub struct Plan {
    lines: Vec<PlanLine>,
    // The packets that the lines are of.
    places: BTreeSet<Place>,
}

impl Model for Plan {
    ghost use Rattle.std.specs.Prelude.{List};
    ghost use Rattle.am_scenario_plan.specs.declared.PlanLine.{PlanLine};
    ghost use Rattle.am_scenario.specs.Drafts.Planned.{IsIndex};

    ghost Value = { List PlanLine };

    ghost view = { λ p. p.lines.items };

    ghost invariant = { λ p. IsIndex p.lines.items p.places.keys };
}

impl Plan {
    /// No lines.
    pub fn new(alloc: Global) -> Plan
        ensures { result ≡ [] }
    {
        Plan {
            lines: Vec::new(alloc),
            places: BTreeSet::new(alloc),
        }
    }

    /// How many lines.
    pub fn len(&self) -> usize
        ensures { result ≡ length self.now }
    {
        self.lines.len()
    }

    /// Whether a line is of a link's packet.
    pub fn is_planned(&self, from: NodeId, to: NodeId, number: u32) -> bool
        ensures { result ≡ is_planned self.now from to number }
    {
        self.places.contains(&Place { number, from, to })
    }

    /// One line more. An error comes only for want of memory, and leaves the lines as they were.
    pub fn push(&mut self, line: PlanLine) -> Result<(), AllocError>
        ensures ok { OnOk result (self.new ≡ self.old ++ line ∷ []) }
        ensures err { OnErr result (self.new ≡ self.old) }
    {
        self.lines.push(line)?;
        match self.places.insert(place_of(&line)) {
            Ok(_) => Ok(()),
            Err(_) => {
                self.lines.pop();
                Err(AllocError)
            }
        }
    }

    /// The lines.
    pub fn into_lines(self) -> Vec<PlanLine>
        ensures { result.items ≡ self }
    {
        self.lines
    }
}
