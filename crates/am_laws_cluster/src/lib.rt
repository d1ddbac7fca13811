//! The invariant of the cluster over every history: where each message is, and all eleven parts together.
#![tactic(auto)]

ghost use Rattle.am_model.specs.Cluster.{ClusterInvariant, InFlightIsBound, OneLiveSequence};
ghost use Rattle.am_model.specs.History.{IsHistory};
ghost use Rattle.am_model.specs.Layout.{IsLawful, Layout};
ghost use Rattle.am_office_entries.specs.declared.Entry.{Entry};
ghost use Rattle.std.specs.Prelude.{List};

pub mod channels;
pub mod choices;
pub mod disk;
pub mod endpoints;
pub mod homes;
pub mod packets;

/// In each history all sequences of a message, or all but the last, ended in a requeue. A message
/// that was put is received or has run. One that was accepted and was neither put nor returned nor
/// unknown is in one queue or in flight.
pub fn one_live_sequence()
    ensures { (layout : Layout) (past : List Entry) → IsHistory layout past → OneLiveSequence layout past }
{}

/// In each history of a lawful layout a message is in flight at its own source alone, held by exactly
/// one bound channel of the source's node. A bound message is in flight once, and its source is in a
/// frame and open.
pub fn in_flight_is_bound()
    ensures { (layout : Layout) (past : List Entry) → IsLawful layout → IsHistory layout past → InFlightIsBound layout past }
{}

/// In each history of a lawful layout, on either network, the whole invariant holds.
pub fn cluster_holds()
    ensures { (layout : Layout) (past : List Entry) → IsLawful layout → IsHistory layout past → ClusterInvariant layout past }
{}
