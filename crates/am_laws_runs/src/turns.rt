//! What the laws of the cluster give each step of a drain: the events that it names may happen. Each law is the contract of a
//! function with an empty body.

ghost use Rattle.am_laws_runs.specs.Turns.Away.{AwayIsSettled};
ghost use Rattle.am_laws_runs.specs.Turns.Frames.{FramesAreApart, FramesAreUsed};
ghost use Rattle.am_laws_runs.specs.Turns.Endings.{NoneIsUnknown, PageInsFall, UnknownIsWithheld, UnreleasedIsPlanned};
ghost use Rattle.am_laws_runs.specs.Turns.Runs.{DrainsMakeRuns};
ghost use Rattle.am_laws_runs.specs.Turns.Readied.{OffDiskIsOff, ReadyIsReady};
ghost use Rattle.am_laws_runs.specs.Turns.Enabled.{CallsMayFollow, DrainsMakeHistories, DuesAreCounted, PageInsMayFollow, PollsMayFollow, ReceiptsMayFollow, SendsMayFollow, TimeOutsMayFollow, TurnsMayFollow};

/// In each history of the packet network an endpoint on the host that isn't wanted has no message queued, and one on disk that
/// isn't wanted holds no message at all.
pub fn away_is_settled()
    ensures { AwayIsSettled }
{}

/// In each history of a lawful layout no two endpoints of a node lie in one frame.
pub fn frames_are_apart()
    ensures { FramesAreApart }
{}

/// In each history every frame that an endpoint lies in is one of the layout's.
pub fn frames_are_used()
    ensures { FramesAreUsed }
{}

/// A packet that is due has a number from 1 on, and so many were emitted on its link.
pub fn dues_are_counted()
    ensures { DuesAreCounted }
{}

/// A receipt that is due makes a history of a history, where the journal is shorter than the numbers that there are.
pub fn receipts_may_follow()
    ensures { ReceiptsMayFollow }
{}

/// So does the time-out of a bound channel.
pub fn time_outs_may_follow()
    ensures { TimeOutsMayFollow }
{}

/// So does the page-in of a wanted endpoint on disk.
pub fn page_ins_may_follow()
    ensures { PageInsMayFollow }
{}

/// So does the call that is left to a thread, after the page-ins that it needs.
pub fn calls_may_follow()
    ensures { CallsMayFollow }
{}

/// So does a poll, while no wanted endpoint is on disk.
pub fn polls_may_follow()
    ensures { PollsMayFollow }
{}

/// So does a send with the making ready of its two endpoints, while no channel is bound: each of them goes into a frame, an
/// endpoint that the message isn't about leaves its frame where none is free, and there is a channel for the message.
pub fn sends_may_follow()
    ensures { SendsMayFollow }
{}

/// So does each turn.
pub fn turns_may_follow()
    ensures { TurnsMayFollow }
{}

/// So does a whole drain, where its journal is shorter than the numbers that there are.
pub fn drains_make_histories()
    ensures { DrainsMakeHistories }
{}

/// An endpoint that is taken off the disk is off it, whatever page calls fail.
pub fn off_disk_is_off()
    ensures { OffDiskIsOff }
{}

/// An open endpoint that is made ready for a message of its own lies in a frame and doesn't drain, while no channel is bound.
pub fn ready_is_ready()
    ensures { ReadyIsReady }
{}

/// What the emissions on a link have not released, the plan loses, or has late beyond them.
pub fn unreleased_is_planned()
    ensures { UnreleasedIsPlanned }
{}

/// Where each packet is received in its turn and the last tries come last, a message is unknown only where there is the packet of its last try, and the plan lost it or
/// had it late beyond what was emitted; or where it was received and answered, and the plan did so with each answer.
pub fn unknown_is_withheld()
    ensures { UnknownIsWithheld }
{}

/// Where the plan moreover has no line that loses a packet or has it late, nothing is unknown.
pub fn none_is_unknown()
    ensures { NoneIsUnknown }
{}

/// A drain of a good phase makes a history that follows the scripts and leaves no accepted message pending, where its journal is
/// shorter than the numbers that there are.
pub fn drains_make_runs()
    ensures { DrainsMakeRuns }
{}

/// A page-in that the drain names leaves less work: an endpoint less on disk, or a fault less that is left.
pub fn page_ins_fall()
    ensures { PageInsFall }
{}
