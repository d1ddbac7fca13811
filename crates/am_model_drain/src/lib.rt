//! The drain of a scenario: what is done when no thread runs any more, turn by turn, until all is at rest. And which
//! journals follow the scripts: a phase of the threads, and then its drain. Each law is the contract of a function with
//! an empty body.
#![tactic(auto)]

ghost use Rattle.am_model_drain.specs.Drain.{DrainAdds, DrainIsDetermined};
ghost use Rattle.am_model_drain.specs.Laws.{CutIsDetermined, CutOffIsStopped, DrainedFollows, EventsAreOfRun, LastTriesComeLast, ReceiptsGoOn, RestsAtEnd, ScriptsGoOn, TurnsMakeEntries};
ghost use Rattle.am_model_drain.specs.Made.{EntryIsStep, EntryMayFollow};

use am_names::{EndpointId, Message, NodeId};
use am_office_entries::Event;
use am_scenario_types::ScriptCall;

/// A turn of the drain.
#[derive(Clone, Copy, PartialEq, Eq)]
pub enum Turn {
    /// An event by itself: a receipt, a time-out, a page-in or a poll.
    Once(Event),
    /// The front message of an endpoint of a node is sent, once the endpoint and the destination are ready.
    Send {
        node: NodeId,
        end: EndpointId,
        message: Message,
    },
    /// A thread makes its next call, once the call's endpoint is off the disk.
    Make(ScriptCall),
}

/// The entry of an event that is in range and enabled may follow.
pub fn entry_may_follow()
    ensures { EntryMayFollow }
{}

/// In a journal that was made step by step it is the entry of the next step.
pub fn entry_is_step()
    ensures { EntryIsStep }
{}

/// The drain makes at most one journal of a journal.
pub fn drain_is_determined()
    ensures { DrainIsDetermined }
{}

/// What the drain makes of a journal begins with it.
pub fn drain_adds()
    ensures { DrainAdds }
{}

/// Each turn makes an entry.
pub fn turns_make_entries()
    ensures { TurnsMakeEntries }
{}

/// Where no rule of the drain applies to a sound journal, all is at rest. A journal is sound where the front messages go to
/// endpoints that there are, and where nothing is in flight while no channel is bound; every history is.
pub fn rests_at_end()
    ensures { RestsAtEnd }
{}

/// Where the scripts have begun, the drain goes on with each of them where its thread left it.
pub fn scripts_go_on()
    ensures { ScriptsGoOn }
{}

/// Where the packets were received in their turn, the drain receives each in its turn.
pub fn receipts_go_on()
    ensures { ReceiptsGoOn }
{}

/// What a drain makes of a phase keeps the last tries for the end.
pub fn last_tries_come_last()
    ensures { LastTriesComeLast }
{}

/// The events that a drain adds are those of a run, as those before them are.
pub fn events_are_of_run()
    ensures { EventsAreOfRun }
{}

/// What a drain makes of a good phase follows the scripts, where it is sound.
pub fn drained_follows()
    ensures { DrainedFollows }
{}

/// A drain that meets a full log meets it at one entry, and then there is no drain that has room for all its entries.
pub fn cut_is_determined()
    ensures { CutIsDetermined }
{}

/// A drain of a good phase that is cut off is stopped for the part whose full log it meets, where no log is longer than it may
/// be.
pub fn cut_off_is_stopped()
    ensures { CutOffIsStopped }
{}
