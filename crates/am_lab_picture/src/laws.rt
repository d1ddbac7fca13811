//! What a picture shows, in other words. Each law is the contract of a function with an empty body.

ghost use Rattle.am_lab_picture.specs.Laws.{ArrowsJoinEmissionsToReceipts, CrossesAreOfTheUnreceived, CrossesStandAtEmissions, PlacedRowsAreRows, RowsAreEntries, RowsHaveLines, RowsStandInTheirLines, RowsTellFates};
ghost use Rattle.am_lab_picture.specs.Spans.{SpansAreValues};
ghost use Rattle.am_lab_picture.specs.declared.data.Residency.{Residency};
ghost use Rattle.std.specs.Prelude.{ℕ};

/// There is a row for each entry of the lines, in their order, and it names the messages that its entry names, each
/// with the fate that the journal gives its serial.
pub fn rows_are_entries()
    ensures entries { RowsAreEntries }
    ensures fates { RowsTellFates }
{}

/// A picture has these rows, in their order, each in the line of its entry; and a line has a row where one of the rows has this
/// line.
pub fn rows_stand_in_their_lines()
    ensures rows { PlacedRowsAreRows }
    ensures lines { RowsStandInTheirLines }
    ensures found { RowsHaveLines }
{}

/// Each arrow ends in the line of an entry that receives its packet, and begins in that of the entry that emits this
/// packet.
pub fn arrows_join_emissions_to_receipts()
    ensures { ArrowsJoinEmissionsToReceipts }
{}

/// The crosses are of the packets that are emitted in the lines and that no entry of the journal receives, in order,
/// and each stands in the line of the entry that emits its packet.
pub fn crosses_are_of_the_unreceived()
    ensures packets { CrossesAreOfTheUnreceived }
    ensures places { CrossesStandAtEmissions }
{}

/// The spans of values are joined, from the first value's line to the one behind the last, and spread out line by line
/// they are the values again.
pub fn spans_are_values()
    ensures residency { SpansAreValues Residency }
    ensures counts { SpansAreValues ℕ }
{}
