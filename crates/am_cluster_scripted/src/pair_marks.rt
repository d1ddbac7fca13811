//! Between which nodes something is due, and which have a bound channel: read again for the two nodes of an entry.

ghost use Rattle.am_cluster_scripted.specs.Links.{AreFed, released_in};
ghost use Rattle.am_cluster_scripted.specs.PairMarks.{ArePaired, ArePairsAgain, IsPairAgain, IsPlaceAgain, IsReadAgain, IsWithin, pair_at, passes_in};
ghost use Rattle.am_cluster_scripted.specs.Scripted.{AreParts};
ghost use Rattle.am_cluster_scripted.specs.Touched.{pair_touched};
ghost use Rattle.am_cluster_drainer.specs.Firsts.{has_bound, has_due};
ghost use Rattle.am_bit_set.specs.Places.{is_marked};
ghost use Rattle.std.specs.Prelude.{◌≡◌, ◌<◌, ℕ, IfSome, false, map};

use crate::emissions::due_on;
use crate::links::link_place;
use crate::looks::has_bound;
use crate::touched::pair_touched;
use am_bit_set::BitSet;
use am_cluster_drainer::NodePair;
use am_machine::Cluster;
use am_names::NodeId;
use am_office_entries::Entry;
use am_scenario_types::Scenario;
use am_wire_release::Stage;

/// The pairs of a node and a peer, sixteen to a node, of which something holds.
#[derive(Drop)]
pub(crate) struct PairMarks {
    /// Something is due on the link from the peer to the node.
    pub(crate) due: BitSet,
    /// A channel from the node to the peer is bound.
    pub(crate) bound: BitSet,
}

/// The pair at a place, sixteen to a node.
pub(crate) fn pair_at(place: usize) -> NodePair
    requires { place < 256 }
    ensures { result ≡ pair_at place }
{
    NodePair {
        node: NodeId((place / 16) as u8),
        peer: NodeId((place % 16) as u8),
    }
}

/// Whether a channel from a node to a peer is bound.
fn has_some_bound(cluster: &Cluster, scenario: &Scenario, node: NodeId, peer: NodeId) -> bool
    requires parts { AreParts scenario.now cluster.now }
    requires node { node.0 < scenario.now.nodes }
    requires peer { peer.0 < scenario.now.nodes }
    ensures { result ≡ has_bound scenario.now cluster.now.journal node peer }
{
    'channels: for channel in 0..scenario.channels {
        if has_bound(cluster, scenario, node, peer, channel) {
            return true;
        }
    }
    false
}

/// Reads again what is due at a node from a peer.
fn mark_due(
    marks: &mut PairMarks,
    cluster: &Cluster,
    scenario: &Scenario,
    links: &[Stage<u32>],
    node: NodeId,
    peer: NodeId,
)
    requires parts { AreParts scenario.now cluster.now }
    requires fed { AreFed scenario.now.plan cluster.now.journal (map released_in links.now) }
    requires node { node.0 < scenario.now.nodes }
    requires peer { peer.0 < scenario.now.nodes }
    ensures due { IsPairAgain (has_due scenario.now cluster.now.journal) node peer marks.old.due marks.new.due }
    ensures bound { marks.new.bound ≡ marks.old.bound }
{
    let is_due = due_on(cluster, scenario, links, node, peer).is_some();
    marks.due.set(link_place(node, peer), is_due);
}

/// Reads again whether a channel from a node to a peer is bound.
fn mark_bound(
    marks: &mut PairMarks,
    cluster: &Cluster,
    scenario: &Scenario,
    node: NodeId,
    peer: NodeId,
)
    requires parts { AreParts scenario.now cluster.now }
    requires node { node.0 < scenario.now.nodes }
    requires peer { peer.0 < scenario.now.nodes }
    ensures bound { IsPairAgain (has_bound scenario.now cluster.now.journal) node peer marks.old.bound marks.new.bound }
    ensures due { marks.new.due ≡ marks.old.due }
{
    let is_bound = has_some_bound(cluster, scenario, node, peer);
    marks.bound.set(link_place(node, peer), is_bound);
}

/// Reads again what is due between two nodes, and whether a channel from the one to the other is bound.
fn mark_both(
    marks: &mut PairMarks,
    cluster: &Cluster,
    scenario: &Scenario,
    links: &[Stage<u32>],
    pair: NodePair,
)
    requires parts { AreParts scenario.now cluster.now }
    requires fed { AreFed scenario.now.plan cluster.now.journal (map released_in links.now) }
    requires within { IsWithin scenario.now pair }
    ensures { IsReadAgain scenario.now cluster.now.journal pair marks.old marks.new }
{
    mark_due(marks, cluster, scenario, links, pair.node, pair.peer);
    mark_due(marks, cluster, scenario, links, pair.peer, pair.node);
    mark_bound(marks, cluster, scenario, pair.node, pair.peer);
}

/// Reads again what an entry may change between two nodes.
pub(crate) fn mark_pair(
    marks: &mut PairMarks,
    cluster: &Cluster,
    scenario: &Scenario,
    links: &[Stage<u32>],
    entry: &Entry,
)
    requires parts { AreParts scenario.now cluster.now }
    requires fed { AreFed scenario.now.plan cluster.now.journal (map released_in links.now) }
    requires within { IfSome (pair_touched entry.now.event entry.now.outcome) (IsWithin scenario.now) }
    ensures { ArePairsAgain scenario.now cluster.now.journal (pair_touched entry.now.event entry.now.outcome) marks.old marks.new }
{
    match pair_touched(entry) {
        Some(pair) => mark_both(marks, cluster, scenario, links, pair),
        None => {}
    }
}

/// Whether a pair is of nodes of the scenario, and something is due.
fn is_due_in(cluster: &Cluster, scenario: &Scenario, links: &[Stage<u32>], pair: NodePair) -> bool
    requires parts { AreParts scenario.now cluster.now }
    requires fed { AreFed scenario.now.plan cluster.now.journal (map released_in links.now) }
    ensures { result ≡ passes_in scenario.now (has_due scenario.now cluster.now.journal) pair }
{
    pair.node.0 < scenario.nodes
        && pair.peer.0 < scenario.nodes
        && due_on(cluster, scenario, links, pair.node, pair.peer).is_some()
}

/// Whether a pair is of nodes of the scenario, and a channel is bound.
fn is_bound_in(cluster: &Cluster, scenario: &Scenario, pair: NodePair) -> bool
    requires { AreParts scenario.now cluster.now }
    ensures { result ≡ passes_in scenario.now (has_bound scenario.now cluster.now.journal) pair }
{
    pair.node.0 < scenario.nodes
        && pair.peer.0 < scenario.nodes
        && has_some_bound(cluster, scenario, pair.node, pair.peer)
}

/// Reads what is due and bound between the pair of nodes at a place.
fn mark_place(
    marks: &mut PairMarks,
    cluster: &Cluster,
    scenario: &Scenario,
    links: &[Stage<u32>],
    place: usize,
)
    requires parts { AreParts scenario.now cluster.now }
    requires fed { AreFed scenario.now.plan cluster.now.journal (map released_in links.now) }
    requires place { place < 256 }
    ensures due { IsPlaceAgain scenario.now (has_due scenario.now cluster.now.journal) place marks.old.due marks.new.due }
    ensures bound { IsPlaceAgain scenario.now (has_bound scenario.now cluster.now.journal) place marks.old.bound marks.new.bound }
{
    let pair = pair_at(place);
    marks
        .due
        .set(place, is_due_in(cluster, scenario, links, pair));
    marks.bound.set(place, is_bound_in(cluster, scenario, pair));
}

/// No pair.
fn no_pairs() -> PairMarks
    ensures due { (k : ℕ) → is_marked result.due k ≡ false }
    ensures bound { (k : ℕ) → is_marked result.bound k ≡ false }
{
    PairMarks {
        due: BitSet::new(),
        bound: BitSet::new(),
    }
}

/// What is due and bound in a cluster from each node to each.
pub(crate) fn all_pairs(cluster: &Cluster, scenario: &Scenario, links: &[Stage<u32>]) -> PairMarks
    requires parts { AreParts scenario.now cluster.now }
    requires fed { AreFed scenario.now.plan cluster.now.journal (map released_in links.now) }
    ensures { ArePaired scenario.now cluster.now.journal result }
{
    let mut marks = no_pairs();
    for place in 0..256usize {
        mark_place(&mut marks, cluster, scenario, links, place);
    }
    marks
}
