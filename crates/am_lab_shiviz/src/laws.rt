//! What the clocks say, in other words. Each law is the contract of a function with an empty body.

ghost use Rattle.am_lab_shiviz.specs.Laws.{CountsItsNode, EachEntryHasItsLines, EachHasItsClock, KnowsWhatItHears, KnowsWhatWasKnownThere, ReceiptsKnowWhatWasSent};

/// The lines of the text are those of the journal's entries, in order: two for each, the second of which is the entry's line in the
/// report.
pub fn each_entry_has_its_lines()
    ensures { EachEntryHasItsLines }
{}

/// There are as many clocks as happenings.
pub fn each_happening_has_its_clock()
    ensures { EachHasItsClock }
{}

/// At its own node a happening counts all that has happened there up to it, itself among them: so its own count is its place
/// among the happenings of its node, from 1.
pub fn clocks_count_their_node()
    ensures { CountsItsNode }
{}

/// A receipt knows all that was known to the entry that emitted its packet: no count of its clock is lower.
pub fn receipts_know_what_was_sent()
    ensures happenings { KnowsWhatItHears }
    ensures receipts { ReceiptsKnowWhatWasSent }
{}

/// Of two happenings that touch a node, the later knows all that the earlier did.
pub fn what_a_node_knew_is_known()
    ensures { KnowsWhatWasKnownThere }
{}
