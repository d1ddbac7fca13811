//! The merge of logs: one journal, however it is made, and a history where each entry is right by its own logs. Each
//! theorem is the contract of a function with an empty body.
#![tactic(auto)]

ghost use Rattle.am_model_merge.specs.Logs.{AreRising, IsRising, Logs, MergesInto, StandWhereTheyTouch, before, logs_of};
ghost use Rattle.am_model_merge.specs.Merged.{IsBelow, PartLog, entries_of, journal_after, journal_of, merged, touches_one};
ghost use Rattle.am_model_merge.specs.Right.{IsRight};
ghost use Rattle.am_model.specs.History.{IsHistory};
ghost use Rattle.am_model.specs.Layout.{AllAre, IsLawful, Layout};
ghost use Rattle.am_model.specs.Merge.{IsMerged, is_ordered};
ghost use Rattle.am_names.specs.declared.EndpointId.{EndpointId};
ghost use Rattle.am_names.specs.declared.NodeId.{NodeId};
ghost use Rattle.am_office_entries.specs.declared.Entry.{Entry};
ghost use Rattle.std.specs.Prelude.{◌≡◌, ◌↔◌, ◌++◌, [], ◌∷◌, false, true, List};

/// Logs in which stamps rise, and in which each entry is right by the logs of the parts that made it as they stood before
/// its stamp, merge into a history.
pub fn merged_is_history()
    ensures { (layout : Layout) (logs : Logs) (journal : List Entry) → MergesInto logs journal → AreRising logs → AllAre (IsRight layout logs) journal → IsHistory layout journal }
{}

/// A journal by stamp and then by part, in whose logs the stamps rise, merges from its own logs, and is a history exactly
/// where each entry is right by them.
pub fn history_is_right()
    ensures merges { (journal : List Entry) → is_ordered journal ≡ true → MergesInto (logs_of journal) journal }
    ensures right { (layout : Layout) (journal : List Entry) → IsLawful layout → is_ordered journal ≡ true → AreRising (logs_of journal) → (IsHistory layout journal ↔ AllAre (IsRight layout (logs_of journal)) journal) }
{}

/// Where stamps rise, what a log had before an entry is what it has below the entry's stamp, whatever came after. So what
/// a part read of its own log when it made the entry is what the theorem on the merge reads.
pub fn past_is_below()
    ensures { (past more : List Entry) (x : Entry) → IsRising (past ++ x ∷ more) → before x.stamp (past ++ x ∷ more) ≡ past }
{}

/// Logs merge into one journal only.
pub fn merge_is_unique()
    ensures { (end_log : EndpointId → List Entry) (node_log : NodeId → List Entry) (one other : List Entry) → IsMerged end_log node_log one → IsMerged end_log node_log other → one ≡ other }
{}

/// Logs in which stamps rise, and whose entries stand in the logs of just those parts that they touch, merge into a
/// journal: their entries, each once, by stamp and then by part.
pub fn logs_merge()
    ensures { (logs : Logs) (all : List (List Entry)) → AreRising logs → StandWhereTheyTouch logs (entries_of all) → MergesInto logs (merged all) }
{}

/// Where each log is its old one, with the entry at its end where it touches the part, and all that was there is stamped
/// below, the journal is the old one with the entry at its end.
pub fn journal_grows()
    ensures touched { (x : Entry) (ps : List PartLog) → AllAre (IsBelow x.stamp) ps → touches_one x ps ≡ true → journal_after x ps ≡ journal_of ps ++ x ∷ [] }
    ensures untouched { (x : Entry) (ps : List PartLog) → touches_one x ps ≡ false → journal_after x ps ≡ journal_of ps }
{}
