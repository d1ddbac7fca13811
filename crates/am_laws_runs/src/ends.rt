//! Each turn of a drain leaves less work, so a drain ends by itself. Each law is the contract of a function with an empty body.

ghost use Rattle.am_laws_runs.specs.Ends.Falls.{CallsFall, DrainsComeToEnd, DrainsEnd, PollsFall, ReceiptsFall, RunsComeToEnd, SendsFall, TimeOutsFall};
ghost use Rattle.am_laws_runs.specs.Turns.Endings.{EachTurnFalls};

/// A time-out that the drain names leaves less work: its channel has a try less, or is free.
pub fn time_outs_fall()
    ensures { TimeOutsFall }
{}

/// So does a receipt that is due: a packet less is left on its link.
pub fn receipts_fall()
    ensures { ReceiptsFall }
{}

/// So does a send, with all page-ins and page-outs before it: its message may be bound once less.
pub fn sends_fall()
    ensures { SendsFall }
{}

/// So does a call of a script, with the page-ins before it: its thread has a call less.
pub fn calls_fall()
    ensures { CallsFall }
{}

/// So does a poll, where nothing is in flight and nothing is to be sent: its endpoint has a notice or a received message less.
pub fn polls_fall()
    ensures { PollsFall }
{}

/// So does each turn of a drain.
pub fn each_turn_falls()
    ensures { EachTurnFalls }
{}

/// A drain ends by itself: it makes at most as many turns as there is work in the history with which it begins, where its journal
/// is shorter than the numbers that there are.
pub fn drains_end()
    ensures { DrainsEnd }
{}

/// A drain of a history with short logs comes to its end with room in every log, or to an entry that meets a full log, in at most as
/// many turns as there is work.
pub fn drains_come_to_end()
    ensures { DrainsComeToEnd }
{}

/// So does the run of every lawful scenario of the packet network without threads.
pub fn runs_come_to_end()
    ensures { RunsComeToEnd }
{}
