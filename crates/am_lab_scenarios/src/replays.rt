//! What a replay is: the step script of a run's journal makes the run again, callers aside. Each law is the contract of
//! a function with an empty body.

ghost use Rattle.am_lab_scenarios.specs.Replays.Callers.{CallersChangeNothing, CallersStopNothing, CallersTellNothing};
ghost use Rattle.am_lab_scenarios.specs.Replays.Laws.{ReplaysAreTheRun};

/// What comes of an event, and what keeps it from happening, doesn't depend on who makes a call: with its callers aside a
/// history is still one, no entry of it meets a full log that met none, and its report tells the same runs and fates.
pub fn callers_change_nothing()
    ensures history { CallersChangeNothing }
    ensures unstopped { CallersStopNothing }
    ensures told { CallersTellNothing }
{}

/// The text of the step script whose steps are the events of a run's journal, at most 65,536 of them, spells it. The one
/// history that follows its lines is the journal, callers aside, and so `am2 step` prints the same runs, fates and totals.
pub fn replays_are_the_run()
    ensures { ReplaysAreTheRun }
{}
