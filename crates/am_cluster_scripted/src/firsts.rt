//! What a drain finds first: from the marks, and not from a look at each endpoint, link and channel.

ghost use Rattle.am_model_drain.specs.Rules.{next_page_in};
ghost use Rattle.am_laws_runs.specs.Turns.Work.{work};
ghost use Rattle.am_cluster_drainer.specs.Falling.{TurnFalls};
ghost use Rattle.am_cluster_drainer.specs.Firsts.{IsFirstPair, IsNext, has_bound, has_due, shows};
ghost use Rattle.am_cluster_scripted.specs.EndMarks.{AreMarked};
ghost use Rattle.am_cluster_scripted.specs.PairMarks.{AreOfPairs, ArePaired};
ghost use Rattle.am_cluster_scripted.specs.Scripted.{AreParts};
ghost use Rattle.am_names.specs.declared.NodeId.{NodeId};
ghost use Rattle.am_scenario_types.specs.Lists.{ScenarioLists};
ghost use Rattle.am_model_scripts.specs.Layout.{layout_of};
ghost use Rattle.am_model_scripts.specs.Standings.{is_missed, standings};
ghost use Rattle.std.specs.Prelude.{◌≡◌, ◌≤◌, Bool, None};

use crate::end_marks::EndMarks;
use crate::pair_marks::{PairMarks, pair_at};
use am_bit_set::BitSet;
use am_cluster_drainer::{EndTest, NodePair};
use am_machine::Cluster;
use am_scenario_types::Scenario;

/// The place of the least endpoint that is wanted and on disk.
pub(crate) fn first_missed(
    cluster: &Cluster,
    scenario: &Scenario,
    marks: &EndMarks,
) -> Option<usize>
    requires parts { AreParts scenario.now cluster.now }
    requires marked { AreMarked (layout_of scenario.now) cluster.now.journal marks.now }
    ensures { IsNext is_missed (standings (layout_of scenario.now) cluster.now.journal) 0 result }
{
    marks.missed.next(0)
}

/// The place of the least endpoint at or behind a place that passes, while no wanted endpoint is on disk.
pub(crate) fn next_end(
    cluster: &Cluster,
    scenario: &Scenario,
    marks: &EndMarks,
    test: EndTest,
    from: usize,
) -> Option<usize>
    requires parts { AreParts scenario.now cluster.now }
    requires marked { AreMarked (layout_of scenario.now) cluster.now.journal marks.now }
    requires none_missed { next_page_in (standings (layout_of scenario.now) cluster.now.journal) ≡ None }
    ensures { IsNext (shows test) (standings (layout_of scenario.now) cluster.now.journal) from result }
{
    cluster.laws();
    match test {
        EndTest::Reply => marks.replies.next(from),
        EndTest::Front => marks.fronts.next(from),
        EndTest::Arrival => marks.arrivals.next(from),
    }
}

/// The pair at the least place, by the node and then by the peer.
fn first_pair(marks: &BitSet) -> Option<NodePair>
    ensures { (s : ScenarioLists) (passes : NodeId → NodeId → Bool) → s.nodes ≤ 16 → AreOfPairs s passes marks.now → IsFirstPair s passes result }
{
    match marks.next(0) {
        Some(place) => Some(pair_at(place)),
        None => None,
    }
}

/// The least node, and then the least peer, with something due on the link to the node.
pub(crate) fn first_due(
    cluster: &Cluster,
    scenario: &Scenario,
    marks: &PairMarks,
) -> Option<NodePair>
    requires parts { AreParts scenario.now cluster.now }
    requires paired { ArePaired scenario.now cluster.now.journal marks.now }
    ensures { IsFirstPair scenario.now (has_due scenario.now cluster.now.journal) result }
{
    first_pair(&marks.due)
}

/// The least node, and then the least peer, with a bound channel from the node.
pub(crate) fn first_bound(
    cluster: &Cluster,
    scenario: &Scenario,
    marks: &PairMarks,
) -> Option<NodePair>
    requires parts { AreParts scenario.now cluster.now }
    requires paired { ArePaired scenario.now cluster.now.journal marks.now }
    ensures { IsFirstPair scenario.now (has_bound scenario.now cluster.now.journal) result }
{
    first_pair(&marks.bound)
}

/// Each turn of the drain leaves less work: nothing is looked at.
pub(crate) fn turn_falls(cluster: &Cluster, scenario: &Scenario)
    requires { AreParts scenario.now cluster.now }
    ensures { TurnFalls work scenario.now cluster.now.journal }
{
    cluster.laws();
}
