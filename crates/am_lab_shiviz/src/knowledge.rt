//! Vector clocks.

ghost use Rattle.am_lab_shiviz.specs.Clocks as specs;
ghost use Rattle.am_lab_shiviz.specs.Clocks.{clocks_of, joined, joined_with};
ghost use Rattle.std.specs.Prelude.{◌≡◌, ◌+◌, ◌<◌, ◌^◌, IfOk, length};

use am_names::NodeId;
use std::alloc::{AllocError, Global};
use std::marker::Model;

/// How many of the happenings at each node a happening knows of, itself among them: a count for each node, by its number.
#[derive(Clone, Copy)]
pub struct Clock {
    pub counts: [u32; 16],
}

/// An entry, as far as clocks go.
#[derive(Clone, Copy)]
pub struct Happening {
    /// Where it happens: the node, 0 to 15.
    pub node: NodeId,
    /// The node that it reaches at once, if it reaches one.
    pub reached: Option<NodeId>,
    /// The place of the happening that it hears, if it hears one.
    pub hears: Option<usize>,
}

impl Clock {
    // Of no happening.
    pub(crate) const NOTHING: Clock = Clock { counts: [0; 16] };

    // The greater count of both at each node.
    fn joined(self, other: Clock) -> Clock
        ensures { result ≡ joined self other }
    {
        let mut counts = self.counts;
        for node in 0..16 {
            counts[node] = counts[node].max(other.counts[node]);
        }
        Clock { counts }
    }

    fn joined_with(self, other: Option<Clock>) -> Clock
        ensures { result ≡ joined_with self other }
    {
        match other {
            Some(other) => self.joined(other),
            None => self,
        }
    }

    // One happening more at a node.
    #[tactic(auto, using(std::proofs::lemmas::List::set_past))]
    fn counted(self, node: NodeId) -> Clock
        requires { specs.count_at self node + 1 < 2 ^ 32 }
        ensures { result ≡ specs.counted node self }
    {
        let mut counts = self.counts;
        let place = node.0 as usize;
        if place < counts.len() {
            counts[place] += 1;
        }
        Clock { counts }
    }
}

// Tells a node what a happening knows.
#[tactic(auto, using(std::proofs::lemmas::List::set_past))]
fn tell(nodes: &mut [Clock; 16], node: NodeId, clock: Clock)
    ensures { nodes.new ≡ specs.told nodes.old node clock }
{
    let place = node.0 as usize;
    if place < nodes.len() {
        nodes[place] = clock;
    }
}

// What is known behind some happenings. Contracts see the clocks of all of them, and what is known at each node.
#[derive(Drop)]
struct Knowledge {
    clocks: Vec<Clock>,
    nodes: [Clock; 16],
}

impl Model for Knowledge {
    ghost use Rattle.am_lab_shiviz.specs.Clocks.{Known};

    ghost Value = { Known };

    ghost view = { λ known. record { clocks = known.clocks.items; nodes = known.nodes } };
}

impl Knowledge {
    ghost use Rattle.am_lab_shiviz.specs.Clocks as specs;
    ghost use Rattle.am_lab_shiviz.specs.Clocks.{IsFew, heard_from, known_at, known_there, learned, told_by, told_there, unknown};
    ghost use Rattle.std.specs.Prelude.{◌≡◌, OnOk};

    fn new(alloc: Global) -> Knowledge
        ensures { result ≡ unknown }
    {
        Knowledge {
            clocks: Vec::new(alloc),
            nodes: [Clock::NOTHING; 16],
        }
    }

    // What is known at a node.
    fn at(&self, node: NodeId) -> Clock
        ensures { result ≡ known_at self.now.nodes node }
    {
        self.nodes
            .get(node.0 as usize)
            .copied()
            .unwrap_or(Clock::NOTHING)
    }

    fn there(&self, reached: Option<NodeId>) -> Option<Clock>
        ensures { result ≡ known_there self.now.nodes reached }
    {
        match reached {
            Some(node) => Some(self.at(node)),
            None => None,
        }
    }

    // What was known to the happening at a place.
    fn heard(&self, place: Option<usize>) -> Option<Clock>
        ensures { result ≡ heard_from self.now.clocks place }
    {
        match place {
            Some(place) => self.clocks.get(place).copied(),
            None => None,
        }
    }

    // What was known before, and is known to a happening.
    fn before(&self, happening: Happening) -> Clock
        ensures { result ≡ specs.before self.now happening }
    {
        self.at(happening.node)
            .joined_with(self.there(happening.reached))
            .joined_with(self.heard(happening.hears))
    }

    // Tells the nodes of a happening what it knows.
    fn tell_all(&mut self, happening: Happening, clock: Clock)
        ensures { self.new ≡ record self.old { nodes = told_by self.old.nodes happening clock } }
    {
        tell(&mut self.nodes, happening.node, clock);
        if let Some(node) = happening.reached {
            tell(&mut self.nodes, node, clock);
        }
    }

    // One happening more.
    fn learn(&mut self, happening: Happening) -> Result<(), AllocError>
        requires { IsFew self.old happening }
        ensures { OnOk result (self.new ≡ learned self.old happening) }
    {
        let clock = self.before(happening).counted(happening.node);
        self.clocks.push(clock)?;
        self.tell_all(happening, clock);
        Ok(())
    }
}

/// The clocks of happenings, in order (`clocks_of` of specs/Clocks). `AllocError` comes where there is no memory for
/// them.
pub fn clocks(alloc: Global, happenings: &[Happening]) -> Result<Vec<Clock>, AllocError>
    requires { length happenings.now < 2 ^ 31 }
    ensures { IfOk result (λ made. made.items ≡ clocks_of happenings.now) }
{
    let mut known = Knowledge::new(alloc);
    for happening in happenings {
        known.learn(*happening)?;
    }
    Ok(known.clocks)
}
