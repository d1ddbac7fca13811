//! What lies on disk over every history.

ghost use Rattle.am_laws_cluster.specs.Disk.Disk.{StaysOnDisk};
ghost use Rattle.am_model.specs.History.{IsHistory, MayFollow};
ghost use Rattle.am_model.specs.Layout.{IsLawful, Layout};
ghost use Rattle.am_office_entries.specs.declared.Entry.{Entry};
ghost use Rattle.std.specs.Prelude.{◌≡◌, false, List};

/// In each history of a lawful layout of the packet network an endpoint that is on disk after an entry which doesn't page
/// it out was on disk before, and its body is the same.
pub fn on_disk_stays()
    ensures { (layout : Layout) (past : List Entry) (x : Entry) → layout.direct ≡ false → IsLawful layout → IsHistory layout past → MayFollow layout past x → StaysOnDisk layout past x }
{}
