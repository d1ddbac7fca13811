//! Laws over every history: replies, and what keeps them from being refused.

ghost use Rattle.am_model.specs.Cluster.{RecordsAreCredited};
ghost use Rattle.am_model.specs.History.{state_of, IsHistory};
ghost use Rattle.am_model.specs.Layout.{Layout};
ghost use Rattle.am_model.specs.PostOffice.{OneReplyPerRun};
ghost use Rattle.am_names.specs.declared.EndpointId.{EndpointId};
ghost use Rattle.am_office_entries.specs.declared.Entry.{Entry};
ghost use Rattle.std.specs.Prelude.{◌≡◌, List, None};

/// The law of replies, in each history on either network.
pub fn one_reply_per_run()
    ensures { (layout : Layout) (journal : List Entry) → IsHistory layout journal → OneReplyPerRun journal }
{}

/// Without a pool, in each history on either network, the records of each index are at most its
/// credits, and an index that is not mapped has none.
pub fn records_credited()
    ensures { (layout : Layout) (past : List Entry) → layout.pool ≡ None → IsHistory layout past → (e : EndpointId) → RecordsAreCredited (state_of layout past e).body }
{}
