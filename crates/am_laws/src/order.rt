//! Laws over every history: counts in order, and each serial accepted, put and run at most once.

ghost use Rattle.am_model.specs.History.{EachAfter, IsHistory};
ghost use Rattle.am_model.specs.Layout.{Layout};
ghost use Rattle.am_model.specs.PostOffice.{EachOnce, HasNextCount};
ghost use Rattle.am_office_entries.specs.declared.Entry.{Entry};
ghost use Rattle.std.specs.Prelude.{List, []};

/// In each history, on either network, the counts of a source are one, two, three and so on.
pub fn counts_in_order()
    ensures { (layout : Layout) (journal : List Entry) → IsHistory layout journal → EachAfter HasNextCount [] journal }
{}

/// In each history, on either network, each serial is accepted at most once, put only when
/// accepted, and run only when put: whatever is lost, repeated, late, out of order or given up,
/// and wherever the endpoints lie.
pub fn each_once()
    ensures { (layout : Layout) (journal : List Entry) → IsHistory layout journal → EachOnce journal }
{}
