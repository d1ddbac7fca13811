//! What the definitions choose by a loop, in other words: the lowest free channel and the least endpoint that passes. Each law
//! is the contract of a function with an empty body.

ghost use Rattle.am_laws_cluster.specs.Choices.Choices.{IsLeast, IsLowestFree};
ghost use Rattle.am_model.specs.History.{free_channel};
ghost use Rattle.am_model.specs.Layout.{Layout};
ghost use Rattle.am_model.specs.Steps.{least_such};
ghost use Rattle.am_names.specs.declared.EndpointId.{EndpointId};
ghost use Rattle.am_names.specs.declared.NodeId.{NodeId};
ghost use Rattle.am_office_entries.specs.declared.Entry.{Entry};
ghost use Rattle.std.specs.Prelude.{Bool, List};

/// The channel that a bind takes is the lowest free one, and there is none exactly where all are bound.
pub fn lowest_free_channel()
    ensures { (layout : Layout) (node peer : NodeId) (past : List Entry) → IsLowestFree node peer past layout.channels (free_channel layout node peer past) }
{}

/// The endpoint that is named where several logs are full is the least of them, and there is none exactly where none is full.
pub fn least_endpoint()
    ensures { (p : EndpointId → Bool) (es : List EndpointId) → IsLeast p es (least_such p es) }
{}
