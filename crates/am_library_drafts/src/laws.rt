//! What drafts don't refuse.

ghost use Rattle.am_library_drafts.specs.Welcome.{DraftsWelcome};

/// What is within the limits is refused only for want of memory.
#[tactic(auto, using(crate::proofs::Welcome::drafts_welcome))]
pub fn drafts_welcome()
    ensures { DraftsWelcome }
{}
