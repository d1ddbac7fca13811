//! Worked runs: scenarios, and the journals that follow their scripts. Each is the contract of a function with an empty
//! body, which the check computes.

ghost use Rattle.am_model_drain.specs.Cut.{IsDrainCutOff};
ghost use Rattle.am_model_drain.specs.Drain.{IsDrainedIn, after_turns};
ghost use Rattle.am_model_drain.specs.Follows.{FollowsScripts, IsGoodPhase, IsStoppedFor};
ghost use Rattle.am_model_drain.specs.Rules.{next_turn};
ghost use Rattle.am_model_scripts.specs.Layout.{layout_of};
ghost use Rattle.am_model.specs.History.{IsHistory};
ghost use Rattle.am_office_entries.specs.Fates.{fate};
ghost use Rattle.am_model.specs.DelayedTry.{request};
ghost use Rattle.am_model_worked.specs.Drain.ClientsAndServer as server;
ghost use Rattle.am_model_worked.specs.Drain.EveryTryLost as lost;
ghost use Rattle.am_model_worked.specs.Drain.FailedPageOut as failed;
ghost use Rattle.am_model_worked.specs.Drain.FromDisk as disk;
ghost use Rattle.am_model_worked.specs.Drain.LastAnswerLost as answer;
ghost use Rattle.am_model_worked.specs.Drain.PagingOut as paging;
ghost use Rattle.am_model_worked.specs.Drain.PhaseThenDrain as phase;
ghost use Rattle.am_model_worked.specs.Drain.RoughRun as rough;
ghost use Rattle.am_model_worked.specs.Drain.StoppedForLog as stopped;
ghost use Rattle.am_model_scripts.specs.Scripts.{KeepsScripts};
ghost use Rattle.am_model_scripts.specs.Standings.{IsAtRest};
ghost use Rattle.std.specs.Prelude.{◌≡◌, [], None, Some, is_some, true};

use am_names::Cause;
use am_office_entries::Fate;

/// Two clients and a server, whose second packet is lost.
pub fn clients_and_server()
    ensures drained { IsDrainedIn 26 server.scenario [] server.journal }
    ensures history { IsHistory (layout_of server.scenario) server.journal }
    ensures follows { FollowsScripts server.scenario server.journal }
    ensures first { fate server.journal server.message_0_1.serial ≡ Some Fate.Ran }
    ensures second { fate server.journal server.message_1_1.serial ≡ Some Fate.Ran }
{}

/// An endpoint leaves its frame, and then the host, for another one.
pub fn paging_out()
    ensures drained { IsDrainedIn 12 paging.scenario [] paging.journal }
    ensures history { IsHistory (layout_of paging.scenario) paging.journal }
    ensures first { fate paging.journal paging.message_0_1.serial ≡ Some (Fate.Returned Cause.BadHandler) }
{}

/// Its page-out fails, and it stays on the host.
pub fn failed_page_out()
    ensures drained { IsDrainedIn 12 failed.scenario [] failed.journal }
    ensures history { IsHistory (layout_of failed.scenario) failed.journal }
{}

/// The answer to the last try is lost: the message ran, and is unknown to its sender.
pub fn last_answer_lost()
    ensures drained { IsDrainedIn 13 answer.scenario [] answer.journal }
    ensures history { IsHistory (layout_of answer.scenario) answer.journal }
    ensures first { fate answer.journal request.serial ≡ Some Fate.UnknownButRan }
    ensures reply { fate answer.journal answer.message_1_1.serial ≡ Some (Fate.Returned Cause.NoRequest) }
{}

/// Every try of a message is lost, and it is unknown.
pub fn every_try_lost()
    ensures drained { IsDrainedIn 7 lost.scenario [] lost.journal }
    ensures history { IsHistory (layout_of lost.scenario) lost.journal }
    ensures follows { FollowsScripts lost.scenario lost.journal }
    ensures first { fate lost.journal request.serial ≡ Some Fate.Unknown }
{}

/// With a log of two entries the same run is stopped for its first endpoint: so it is by what the drain adds, and so by the
/// first entry that meets a full log.
pub fn stopped_for_a_log()
    ensures stopped { IsStoppedFor stopped.scenario stopped.part stopped.journal }
    ensures cut_off { IsDrainCutOff stopped.scenario [] stopped.part stopped.journal }
{}

/// A thread, a driver and an interface make a phase, and then the drain goes on: the message bounces off an endpoint that
/// is in no frame, and runs at its second binding.
pub fn phase_then_drain()
    ensures good { IsGoodPhase phase.scenario phase.phase }
    ensures drained { IsDrainedIn 10 phase.scenario phase.phase phase.journal }
    ensures history { IsHistory (layout_of phase.scenario) phase.journal }
    ensures follows { FollowsScripts phase.scenario phase.journal }
    ensures first { fate phase.journal request.serial ≡ Some Fate.Ran }
{}

/// An endpoint comes from disk at the second try; a packet is repeated, and its first answer is late. The endpoint that
/// sends has a pool, and no share for the index.
pub fn from_disk()
    ensures drained { IsDrainedIn 9 disk.scenario [] disk.journal }
    ensures history { IsHistory (layout_of disk.scenario) disk.journal }
    ensures first { fate disk.journal request.serial ≡ Some (Fate.Returned Cause.BadHandler) }
{}

/// A run with late, repeated and lost packets, endpoints on disk, page calls that fail and few frames ends after 68 turns,
/// at rest, with each script done.
pub fn rough_run()
    ensures turns { is_some (after_turns 68 rough.scenario []) ≡ true }
    ensures ended { next_turn rough.scenario rough.journal ≡ None }
    ensures scripts { KeepsScripts rough.scenario rough.journal }
    ensures rest { IsAtRest rough.scenario rough.journal }
{}
