//! How the endpoints of a cluster stand.

ghost use Rattle.am_endpoint.specs.View.{state_after};
ghost use Rattle.am_lab_picture.specs.Lanes.{LaneTracked, lane_begun, lane_value};
ghost use Rattle.am_lab_drawings.specs.View.Standings.{AllKeep, Keeps, all_followed, standing, standing_in};
ghost use Rattle.am_model.specs.Layout.{EndSetting};
ghost use Rattle.std.specs.Prelude.{◌≡◌, [], IfOk, OnOk, length, map};

use am_endpoint::Endpoint;
use am_lab_picture::{LaneTrack, Residency, Standing, residency_of};
use am_machine::Cluster;
use std::alloc::{AllocError, Global};

/// How an endpoint that holds nothing stands on disk.
const EMPTY: Standing = Standing {
    residency: Residency::Disk,
    records: 0,
    received: 0,
};

// How an endpoint stands. On disk its body stays as it was, so that it holds what it held before.
fn standing_of(end: &Endpoint, kept: Standing) -> Standing
    requires { Keeps kept (state_after end.now) }
    ensures { result ≡ standing_in (state_after end.now) }
{
    let residency = residency_of(end.place(), end.draining());
    match end.body() {
        Some(body) => Standing {
            residency,
            records: body.outstanding(),
            received: body.received_len(),
        },
        None => Standing { residency, ..kept },
    }
}

/// The endpoints of a cluster with no entries, each as it stands from a line on.
pub(crate) fn opening_tracks(
    alloc: Global,
    cluster: &Cluster,
    count: usize,
    line: u32,
) -> Result<Vec<LaneTrack>, AllocError>
    requires fresh { cluster.now.journal ≡ [] }
    requires count { count ≡ length cluster.now.layout.ends }
    ensures { IfOk result (λ tracks. tracks.items ≡ map (λ (s : EndSetting). lane_begun (standing cluster.now.layout [] s.id) line) cluster.now.layout.ends) }
{
    let mut tracks = Vec::new(alloc);
    for index in 0..count {
        let end = cluster.end_at(index);
        let standing = standing_of(end, EMPTY);
        let track = LaneTrack::new(alloc, standing, line);
        tracks.push(track)?;
    }
    Ok(tracks)
}

/// The endpoints as they stand now, from a line on, with nothing before.
pub(crate) fn tracks_from(
    alloc: Global,
    tracks: &[LaneTrack],
    line: u32,
) -> Result<Vec<LaneTrack>, AllocError>
    ensures { IfOk result (λ begun. begun.items ≡ map (λ (t : LaneTracked). lane_begun (lane_value t) line) tracks.now) }
{
    let mut begun = Vec::new(alloc);
    for track in tracks {
        let standing = track.standing();
        let restarted = LaneTrack::new(alloc, standing, line);
        begun.push(restarted)?;
    }
    Ok(begun)
}

/// Each endpoint as it stands behind one line more.
pub(crate) fn follow_all(
    tracks: &mut [LaneTrack],
    cluster: &Cluster,
    line: u32,
) -> Result<(), AllocError>
    requires count { length tracks.old ≡ length cluster.now.layout.ends }
    requires keep { AllKeep cluster.now.layout cluster.now.journal tracks.old cluster.now.layout.ends }
    ensures { OnOk result (tracks.new ≡ all_followed cluster.now.layout cluster.now.journal line tracks.old cluster.now.layout.ends) }
{
    for index in 0..tracks.len() {
        let end = cluster.end_at(index);
        let kept = tracks[index].standing();
        let standing = standing_of(end, kept);
        tracks[index].follow(standing, line)?;
    }
    Ok(())
}
