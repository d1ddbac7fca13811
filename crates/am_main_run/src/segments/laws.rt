//! What the definitions of the answer say in other words.

ghost use Rattle.am_main_run.specs.Segments.Segments.{SegmentsHaveOneAnswer};

/// The command `segments` has at most one answer to a text whose scenario has no turns: a status and a text.
#[tactic(auto, using(crate::proofs::SegmentsOneAnswer::segments_have_one_answer))]
pub fn segments_have_one_answer()
    ensures { SegmentsHaveOneAnswer }
{}
