//! Laws of the rounds in which the words of a text are counted.

ghost use Rattle.am_job.specs.RunLaws.Laws.{RoundsAddUp, RoundsRunFew};

/// In a history that follows the scripts of a round no word runs more often than the round sends it.
pub fn rounds_run_few()
    ensures { RoundsRunFew }
{}

/// And where no message is left pending or unknown, each word that the round sends has its end: it ran, or its request was refused, or
/// its message was returned; each of these is counted once.
pub fn rounds_add_up()
    ensures { RoundsAddUp }
{}
