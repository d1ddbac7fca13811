//! What the definitions of the answer say in other words.

ghost use Rattle.am_main_run.specs.Counts.Counts.{CountsHaveOneAnswer};

/// The command `count` without turns has at most one answer to a text: a status and a text.
pub fn counts_have_one_answer()
    ensures { CountsHaveOneAnswer }
{}
