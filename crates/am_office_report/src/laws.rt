//! What the definitions of a report say, in other words.

ghost use Rattle.std.specs.Prelude.{◌≡◌, List};
ghost use Rattle.std.specs.List.{list_any};
ghost use Rattle.std.specs.List.Sorted.{IsStrictlySortedBy};
ghost use Rattle.std.specs.Map.{keys_of};
ghost use Rattle.am_names.specs.declared.Serial.{Serial};
ghost use Rattle.am_names.specs.Names.{same_serial, serial_order};
ghost use Rattle.am_office_entries.specs.declared.Entry.{Entry};
ghost use Rattle.am_office_entries.specs.Fates.{is_accepted};
ghost use Rattle.am_office_report.specs.Report.{SummaryIsOfReport, listed};

/// The messages that a report lists are those that the journal accepts, each once, in ascending order of source and
/// count.
#[tactic(auto, using(crate::proofs::Ordered::listed_in_order, crate::proofs::Ordered::listed_are_accepted))]
pub fn messages_are_in_order()
    ensures ascending { (journal : List Entry) → IsStrictlySortedBy serial_order (keys_of (listed journal)) }
    ensures accepted { (journal : List Entry) (s : Serial) → list_any (same_serial s) (keys_of (listed journal)) ≡ is_accepted journal s }
{}

/// The two lines of a summary are the second line and the last of each report of the journal.
#[tactic(auto, using(crate::proofs::Summed::summary_is_of_report))]
pub fn summary_is_of_report()
    ensures { SummaryIsOfReport }
{}
