//! The lanes of a picture.

ghost use Rattle.am_lab_reasons.specs.Journal.Lines.{IsMadeAgain};
ghost use Rattle.am_lab_picture.specs.Lanes.{lane_ended, LaneTracked};
ghost use Rattle.am_lab_drawings.specs.View.Standings as standings;
ghost use Rattle.am_lab_drawings.specs.View.Standings.{tracked};
ghost use Rattle.am_model.specs.History.{EachAfter};
ghost use Rattle.am_office_entries.specs.declared.Entry.{Entry};
ghost use Rattle.am_scenario_types.specs.Lawful.{IsLawful};
ghost use Rattle.am_model_scripts.specs.Layout.{layout_of};
ghost use Rattle.std.specs.Prelude.{◌≡◌, ◌+◌, ◌≤◌, ◌<◌, ◌^◌, ◌++◌, [], List, IfOk, OnOk, length, map};

use crate::view::steps::step;
use crate::view::tracks::{follow_all, opening_tracks, tracks_from};
use am_lab_picture::{Lane, LaneTrack, Lines};
use am_machine::Cluster;
use am_names::NoMemory;
use am_office_entries::Entry;
use am_scenario::{EndLine, Scenario};
use std::alloc::{AllocError, Global};

// Makes these entries, and follows each endpoint. The tracks stand behind the line.
fn follow(
    tracks: &mut [LaneTrack],
    cluster: &mut Cluster,
    entries: &[Entry],
    line: u32,
) -> Result<(), NoMemory>
    requires again { EachAfter (IsMadeAgain cluster.old.layout) cluster.old.journal entries.now }
    requires few { line + 1 + length entries.now < 2 ^ 32 }
    requires tracks { tracks.old ≡ map (tracked cluster.old.layout line cluster.old.journal []) cluster.old.layout.ends }
    ensures layout { cluster.new.layout ≡ cluster.old.layout }
    ensures journal { OnOk result (cluster.new.journal ≡ cluster.old.journal ++ entries.now) }
    ensures followed { OnOk result (tracks.new ≡ map (tracked cluster.old.layout line cluster.old.journal entries.now) cluster.old.layout.ends) }
{
    let mut next = line + 1;
    for entry in entries {
        cluster.laws();
        step(cluster, entry)?;
        follow_all(tracks, cluster, next)?;
        next += 1;
    }
    Ok(())
}

// The tracks from before some lines on, for which a fresh cluster makes the entries before these.
fn tracks_before(
    alloc: Global,
    cluster: &mut Cluster,
    scenario: &Scenario,
    entries: &[Entry],
) -> Result<Vec<LaneTrack>, NoMemory>
    requires layout { cluster.old.layout ≡ layout_of scenario.now }
    requires fresh { cluster.old.journal ≡ [] }
    requires again { EachAfter (IsMadeAgain cluster.old.layout) [] entries.now }
    requires few { length entries.now + 3 < 2 ^ 32 }
    ensures layout { cluster.new.layout ≡ cluster.old.layout }
    ensures journal { OnOk result (cluster.new.journal ≡ entries.now) }
    ensures tracks { IfOk result (λ tracks. tracks.items ≡ map (tracked cluster.old.layout (length entries.now + 2) entries.now []) cluster.old.layout.ends) }
{
    let mut tracks = opening_tracks(alloc, cluster, scenario.ends.len(), 2)?;
    follow(&mut tracks, cluster, entries, 2)?;
    let begun = tracks_from(alloc, &tracks, entries.len() as u32 + 2)?;
    Ok(begun)
}

// The lanes of these endpoints, where what stands now ends at a line.
fn ended(
    alloc: Global,
    tracks: &[LaneTrack],
    ends: &[EndLine],
    line: u32,
) -> Result<Vec<Lane>, AllocError>
    requires { length tracks.now ≡ length ends.now }
    ensures { IfOk result (λ lanes. lanes.items ≡ standings.all_ended line tracks.now ends.now) }
{
    let mut lanes = Vec::new(alloc);
    for index in 0..ends.len() {
        let lane = tracks[index].lane(alloc, &ends[index], line)?;
        lanes.push(lane)?;
    }
    Ok(lanes)
}

/// The lanes of a scenario's endpoints over some lines of a journal, whose entries are made again one after the other.
pub(crate) fn lanes(
    alloc: Global,
    scenario: &Scenario,
    entries: &[Entry],
    lines: Lines,
) -> Result<Vec<Lane>, NoMemory>
    requires lawful { IsLawful scenario.now }
    requires again { EachAfter (IsMadeAgain (layout_of scenario.now)) [] entries.now }
    requires first { 3 ≤ lines.first }
    requires within { lines.first + lines.count ≤ length entries.now + 3 }
    requires few { length entries.now + 3 < 2 ^ 32 }
    ensures { IfOk result (λ made. made.items ≡ standings.lanes scenario.now entries.now lines) }
{
    let mut cluster = Cluster::new(alloc, scenario)?;
    let start = (lines.first - 3) as usize;
    let mut tracks = tracks_before(alloc, &mut cluster, scenario, &entries[..start])?;
    let shown = &entries[start..start + lines.count as usize];
    follow(&mut tracks, &mut cluster, shown, lines.first - 1)?;
    let made = ended(alloc, &tracks, &scenario.ends, lines.first + lines.count)?;
    Ok(made)
}
