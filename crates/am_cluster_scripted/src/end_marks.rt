//! Which endpoints show what the rules choose from, by their places: read off an endpoint when an entry touches it.

ghost use Rattle.am_cluster_scripted.specs.EndMarks.{AreMarked, AreNone, HasPlace, MarksEnd, MarksPlace, MarksTouched};
ghost use Rattle.am_cluster_scripted.specs.Scripted.{AreParts};
ghost use Rattle.am_model_scripts.specs.Layout.{layout_of};
ghost use Rattle.std.specs.Prelude.{◌≡◌, ◌<◌, Some, length};

use crate::reads::{has_arrivals_of, has_front_of, has_reply_of, is_missed};
use crate::touched::{Touched, ends_touched};
use am_bit_set::BitSet;
use am_machine::Cluster;
use am_names::EndpointId;
use am_office_entries::Entry;
use am_scenario_types::{EndLine, Scenario};

/// The places of the endpoints that show something.
#[derive(Drop)]
pub(crate) struct EndMarks {
    /// Those that are wanted and on disk.
    pub(crate) missed: BitSet,
    /// Those off disk that have a reply queued.
    pub(crate) replies: BitSet,
    /// Those off disk that have a message to send.
    pub(crate) fronts: BitSet,
    /// Those off disk that have something to poll.
    pub(crate) arrivals: BitSet,
}

/// No endpoint shows anything.
fn no_ends() -> EndMarks
    ensures { AreNone result }
{
    EndMarks {
        missed: BitSet::new(),
        replies: BitSet::new(),
        fronts: BitSet::new(),
        arrivals: BitSet::new(),
    }
}

/// Reads again what the endpoint at a place shows.
fn mark_place(marks: &mut EndMarks, cluster: &Cluster, scenario: &Scenario, place: usize)
    requires parts { AreParts scenario.now cluster.now }
    requires place { place < length scenario.now.ends }
    ensures { MarksPlace (layout_of scenario.now) cluster.now.journal place marks.old marks.new }
{
    let end = cluster.end_at(place);
    marks.missed.set(place, is_missed(end));
    marks.replies.set(place, has_reply_of(end));
    marks.fronts.set(place, has_front_of(end));
    marks.arrivals.set(place, has_arrivals_of(end));
}

/// The place of an endpoint among those that a scenario declares, mostly that of its number.
fn place_of(ends: &[EndLine], id: EndpointId) -> Option<usize>
    ensures { HasPlace ends.now id result }
{
    let place = id.0 as usize;
    if place < ends.len() && ends[place].id.0 == id.0 {
        return Some(place);
    }
    ends.iter().position(|line| line.id.0 == id.0)
}

/// Reads again what an endpoint shows, if it is declared.
fn mark_end(marks: &mut EndMarks, cluster: &Cluster, scenario: &Scenario, id: EndpointId)
    requires { AreParts scenario.now cluster.now }
    ensures { MarksEnd (layout_of scenario.now) cluster.now.journal (Some id) marks.old marks.new }
{
    match place_of(&scenario.ends, id) {
        Some(place) => mark_place(marks, cluster, scenario, place),
        None => {}
    }
}

/// The same, if there is one.
fn mark_if(marks: &mut EndMarks, cluster: &Cluster, scenario: &Scenario, id: Option<EndpointId>)
    requires { AreParts scenario.now cluster.now }
    ensures { MarksEnd (layout_of scenario.now) cluster.now.journal id marks.old marks.new }
{
    match id {
        Some(id) => mark_end(marks, cluster, scenario, id),
        None => {}
    }
}

/// Reads again what the endpoints show that an entry touches.
pub(crate) fn mark_touched(
    marks: &mut EndMarks,
    cluster: &Cluster,
    scenario: &Scenario,
    entry: &Entry,
)
    requires { AreParts scenario.now cluster.now }
    ensures { MarksTouched (layout_of scenario.now) cluster.now.journal entry.now marks.old marks.new }
{
    let Touched { first, second } = ends_touched(entry);
    mark_if(marks, cluster, scenario, first);
    mark_if(marks, cluster, scenario, second);
}

/// What each endpoint of a cluster shows.
pub(crate) fn all_shown(cluster: &Cluster, scenario: &Scenario) -> EndMarks
    requires { AreParts scenario.now cluster.now }
    ensures { AreMarked (layout_of scenario.now) cluster.now.journal result }
{
    let mut marks = no_ends();
    let count = scenario.ends.len();
    for place in 0..count {
        mark_place(&mut marks, cluster, scenario, place);
    }
    marks
}
