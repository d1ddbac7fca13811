//! What is so of every run, mostly where no thread runs: its journal is short, the drain is not refused, and the run is whole or
//! stopped for a full log; and where the plan withholds nothing, what comes back comes back for good. Each law is the contract of a
//! function with an empty body.
#![tactic(auto)]

ghost use Rattle.am_laws_runs.specs.Turns.Endings.{ReturnsAreForGood};
ghost use Rattle.am_laws_runs.specs.Drained.{BeginningsAreHistories, BeginningsAreShort, CutOffPhasesAreStopped, CutOffRunsAreStopped, CutOffsAreHistories, CutOffsAreShort, DrainsAreNotRefused, DrainsAreShort, EmptyIsGoodPhase, NoneIsRefused, PhasesWithRoomAreWhole, RoomKeepsLogs, RunsAreNotRefused, RunsAreShort, RunsAreWhole, RunsHaveShortLogs, RunsWithRoomAreWhole};
ghost use Rattle.am_laws_runs.specs.Left.{DrainsLeaveNothing, DrainsReceiveAll};
ghost use Rattle.am_laws_runs.specs.Returns.{DrainedReturnsAreForGood, NoneTimesOut};
ghost use Rattle.am_laws_runs.specs.Stopped.{StoppedReturnsAreForGood, StoppedRunsAreOrderly};
ghost use Rattle.am_laws_runs.specs.Short.{JournalsAreNumbered, JournalsAreShort};

pub mod drains;
pub mod ends;
pub mod turns;

/// A history of a lawful layout with no log longer than it may be has at most 272 times as many entries as a log.
pub fn journals_are_short()
    ensures { JournalsAreShort }
{}

/// So it has less than 2 ^ 32 entries.
pub fn journals_are_numbered()
    ensures { JournalsAreNumbered }
{}

/// A beginning of what some turns of a history make is a history, where it has at most 2 ^ 32 entries.
pub fn beginnings_are_histories()
    ensures { BeginningsAreHistories }
{}

/// So no entry that a drain names has a condition against it, where the journal before it has less than 2 ^ 32 entries.
pub fn drains_are_not_refused()
    ensures { DrainsAreNotRefused }
{}

/// And what a drain leaves that is cut off for a full log is a history, where it has at most 2 ^ 32 entries.
pub fn cut_offs_are_histories()
    ensures { CutOffsAreHistories }
{}

/// Where no log of a declared endpoint or of an interface of the layout is longer than it may be, none is of any part of a history.
pub fn runs_have_short_logs()
    ensures { RunsHaveShortLogs }
{}

/// Entries that meet no full log leave no log longer than it may be.
pub fn room_keeps_logs()
    ensures { RoomKeepsLogs }
{}

/// A history of a scenario of the packet network with no log longer than it may be has at most 272 times as many entries.
pub fn runs_are_short()
    ensures { RunsAreShort }
{}

/// What a drain leaves that is cut off is a short history, where no log of the journal before is longer than it may be.
pub fn cut_offs_are_short()
    ensures { CutOffsAreShort }
{}

/// So is what a drain makes on which no entry meets a full log.
pub fn drains_are_short()
    ensures { DrainsAreShort }
{}

/// So is each beginning of a drain with no log longer than it may be, as what is left for want of memory.
pub fn beginnings_are_short()
    ensures { BeginningsAreShort }
{}

/// And no entry that such a drain names has a condition against it.
pub fn none_is_refused()
    ensures { NoneIsRefused }
{}

/// The empty phase is a good one.
pub fn empty_is_good_phase()
    ensures { EmptyIsGoodPhase }
{}

/// A drain of a good phase with no log longer than it may be is stopped for the part whose full log it meets.
pub fn cut_off_phases_are_stopped()
    ensures { CutOffPhasesAreStopped }
{}

/// And it is whole where it meets no full log.
pub fn phases_with_room_are_whole()
    ensures { PhasesWithRoomAreWhole }
{}

/// A run without threads that is cut off for a full log is stopped for its part.
pub fn cut_off_runs_are_stopped()
    ensures { CutOffRunsAreStopped }
{}

/// A run without threads that a drain makes to its end is a whole one, where it has less than 2 ^ 32 entries.
pub fn runs_are_whole()
    ensures { RunsAreWhole }
{}

/// Or where no entry meets a full log.
pub fn runs_with_room_are_whole()
    ensures { RunsWithRoomAreWhole }
{}

/// And no entry of a run without threads has a condition against it.
pub fn runs_are_not_refused()
    ensures { RunsAreNotRefused }
{}

/// A drain on which no entry meets a full log leaves all at rest, every call made, no packet to be received, and no accepted message
/// pending.
pub fn drains_leave_nothing()
    ensures { DrainsLeaveNothing }
{}

/// And all that was released was received, where before it each packet was received in its turn.
pub fn drains_receive_all()
    ensures { DrainsReceiveAll }
{}

/// Where the plan has no line that loses a packet or has it late, no channel is bound where nothing is to be received: in a drain
/// none times out.
pub fn none_times_out()
    ensures { NoneTimesOut }
{}

/// And what is returned in a history that follows the scripts is returned for a cause that isn't transient.
pub fn returns_are_for_good()
    ensures { ReturnsAreForGood }
{}

/// In a run that is stopped for a full log each packet is received in its turn, and the last tries come last.
pub fn stopped_runs_are_orderly()
    ensures { StoppedRunsAreOrderly }
{}

/// And what is returned in it is returned for good, where the plan has no line that loses a packet or has it late.
pub fn stopped_returns_are_for_good()
    ensures { StoppedReturnsAreForGood }
{}

/// And what is returned in a run without threads is returned for good, where the plan withholds nothing.
pub fn drained_returns_are_for_good()
    ensures { DrainedReturnsAreForGood }
{}
