//! What the definition of an expansion says in other words.

ghost use Rattle.am_segment.specs.Lawful.{ExpansionsAreLawful};

/// Each transfer of an expanded text goes to a segment, which its block ends within.
#[tactic(auto, using(crate::proofs::Lawfully::expansions_are_lawful))]
pub fn expansions_are_lawful()
    ensures { ExpansionsAreLawful }
{}
