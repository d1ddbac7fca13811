//! What the definitions of the answers say in other words.

ghost use Rattle.am_main_run.specs.Runs.{HaveOneAnswer};

/// The command `run` has at most one answer to a text whose scenario has no turns, and `make` to a number: a status and a text. With turns
/// the threads may interleave in more than one way, and each answer is that of a run.
#[tactic(auto, using(crate::proofs::OneAnswer::have_one_answer))]
pub fn have_one_answer()
    ensures { HaveOneAnswer }
{}
