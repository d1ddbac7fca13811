//! What the workers of a run made, put together: their lists merge into a journal that is a phase of the scenario, whatever
//! the interleaving. Each theorem is the contract of a function with an empty body.

ghost use Rattle.am_model_merge.specs.Logs.{AreRising, Logs, MergesInto};
ghost use Rattle.am_model_merge.specs.Right.{IsRight};
ghost use Rattle.am_model_drain.specs.Follows.{IsGoodPhase};
ghost use Rattle.am_model.specs.Layout.{Layout};
ghost use Rattle.am_names.specs.declared.EndpointId.{EndpointId};
ghost use Rattle.am_office_entries.specs.declared.Entry.{Entry};
ghost use Rattle.am_workers_laws.specs.Phases.Crew.{IsCrew};
ghost use Rattle.am_workers_laws.specs.Phases.Tenures.{IsEndOf, IsLogOf};
ghost use Rattle.am_places.specs.Rule.{joined};
ghost use Rattle.am_places.specs.declared.board.Tenure.{Tenure};
ghost use Rattle.am_workers_laws.specs.Phases.Frames.{FramesAreKnown};
ghost use Rattle.am_workers_laws.specs.Phases.Lying.{PlacesAreKept};
ghost use Rattle.am_workers_laws.specs.Phases.Makers.{WorkersMakeAPhase};
ghost use Rattle.am_workers_laws.specs.Phases.Received.{GotWasSent, WorksAreNumbered};
ghost use Rattle.am_workers_laws.specs.Phases.Released.{ReleasedWasSent};
ghost use Rattle.am_workers_laws.specs.Phases.Seats.{Enters, Leaves, TakenIsGathered};
ghost use Rattle.am_workers_laws.specs.Phases.Then.{WasRight};
ghost use Rattle.am_scenario_types.specs.Lists.{ScenarioLists};
ghost use Rattle.std.specs.Prelude.{ℕ, List};

/// Logs in which stamps rise, and in which each entry is right by its own logs, merge into a good phase, where each entry is
/// one of a thread, an interface or a driver, none of these made more than it may, the threads kept to their scripts, the
/// interfaces left the last tries to the drain, and each link gave what it released, in order.
pub fn phase_is_good()
    ensures { (s : ScenarioLists) (logs : Logs) (made : ℕ → List Entry) (journal : List Entry) → MergesInto logs journal → AreRising logs → IsCrew s logs made journal → IsGoodPhase s journal }
{}

/// An endpoint whose seats are gathered has a log in which stamps rise, and which has just the entries of its seats that touch
/// it.
pub fn tenures_make_a_log()
    ensures { (seats : ℕ) (made : ℕ → List Entry) (e : EndpointId) (final : List (Tenure Entry)) → IsEndOf seats made e final → IsLogOf seats made e (joined final) }
{}

/// An entry that was right when it was made is right by the logs at the end, where stamps rise in them.
pub fn made_right_is_right()
    ensures { (layout : Layout) (logs : Logs) (x : Entry) → AreRising logs → WasRight layout logs x → IsRight layout logs x }
{}

/// A seat knows its own of an endpoint when it enters, as it did when it left, whatever others added; and when it leaves, where
/// it added just what it made there.
pub fn seats_know_their_own()
    ensures enters { Enters }
    ensures leaves { Leaves }
{}

/// An endpoint that is taken out with all seats gathered has a history whose tenures are those that the seats have seen.
pub fn taken_is_gathered()
    ensures { TakenIsGathered }
{}

/// What all workers made, each entry right when it was made, merges into a good phase: whatever was made in between.
pub fn workers_make_a_phase()
    ensures { WorkersMakeAPhase }
{}

/// What a link releases was emitted there, no later than the emission that releases it.
pub fn released_was_sent()
    ensures { ReleasedWasSent }
{}

/// Where nothing moves an endpoint it lies where it lay, and no endpoint of the packet network is ever direct.
pub fn places_are_kept()
    ensures { PlacesAreKept }
{}

/// What a link gave was sent into it by the sender's log: so an interface that receives it is right.
pub fn got_was_sent()
    ensures { GotWasSent }
{}

/// The packets that an interface emits by its works are numbered in order on each link.
pub fn works_are_numbered()
    ensures { WorksAreNumbered }
{}

/// A driver knows by its own moves which frame each endpoint of its node lies in.
pub fn frames_are_known()
    ensures { FramesAreKnown }
{}
