//! The drain as code, over any machine that makes the entry of an event: turns until no rule applies, or the machine makes no
//! entry. For each choice the machine is asked for the first one there is, or for the next one behind it, so a turn looks at what
//! it chooses from and at nothing else: neither at all endpoints, links, channels and threads, nor at the entries that were made.
#![tactic(auto)]

ghost use Rattle.am_model_drain.specs.Cut.{IsDrainedWithRoom};
ghost use Rattle.am_model_drain.specs.Made.{after_event};
ghost use Rattle.am_cluster_drainer.specs.Falling.{TurnFalls};
ghost use Rattle.am_cluster_drainer.specs.Firsts.{IsFewest, IsFirstPair, IsNext, has_bound, has_due, shows};
ghost use Rattle.am_cluster_drainer.specs.Reads.{call_event, head_of, is_seat, left_of, mail_of};
ghost use Rattle.am_cluster_drainer.specs.Stops.{Acts, IsDrainStopped};
ghost use Rattle.am_model_drain.specs.Rules.{left_to, next_page_in};
ghost use Rattle.am_model_scripts.specs.Layout.{layout_of};
ghost use Rattle.am_model.specs.History.{channel_to, is_bound, is_frame_held, is_in_range, state_of};
ghost use Rattle.am_model.specs.Layout as layouts;
ghost use Rattle.am_names.specs.Names.{is_request};
ghost use Rattle.am_office_entries.specs.declared.Entry.{Entry};
ghost use Rattle.am_scenario_types.specs.Lists.{ScenarioLists};
ghost use Rattle.am_model_scripts.specs.Links.{due};
ghost use Rattle.am_model_scripts.specs.Standings.{is_missed, standings};
ghost use Rattle.std.specs.Prelude.{◌≡◌, ◌≤◌, ◌<◌, ◌^◌, ℕ, List, length, map, slice_get, count_by, option_map, true, IfErr, IfSome, OnOk, Some, None};

mod frames;
mod pages;
mod rules;
mod turns;

pub use am_model::EntryFault;
use am_model::{Head, Queued};
use am_names::{EndpointId, NodeId};
use am_office_entries::Event;
use am_scenario_types::ScriptCall;
pub use rules::{next_turn, receipt};

/// An endpoint, and what is known of it wherever it lies.
#[derive(Clone, Copy, PartialEq, Eq)]
pub struct EndHead {
    pub id: EndpointId,
    pub node: NodeId,
    pub head: Head,
}

/// An endpoint, and what its lists ask of a drain.
#[derive(Clone, Copy, PartialEq, Eq)]
pub struct EndMail {
    pub id: EndpointId,
    pub node: NodeId,
    /// The message that it sends next.
    pub front: Option<Queued>,
    /// Whether a reply is queued.
    pub has_reply: bool,
    /// Whether there is something to poll.
    pub has_arrivals: bool,
}

/// What an endpoint is looked for, while no wanted endpoint is on disk.
#[derive(Clone, Copy, PartialEq, Eq)]
pub enum EndTest {
    /// A reply is queued.
    Reply,
    /// It has a message to send.
    Front,
    /// There is something to poll.
    Arrival,
}

/// A node, and a peer that it receives from or has channels to.
#[derive(Clone, Copy, PartialEq, Eq)]
pub struct NodePair {
    pub node: NodeId,
    pub peer: NodeId,
}

/// The next call of a thread, and how many it has made.
#[derive(Clone, Copy, PartialEq, Eq)]
pub struct LeftCall {
    pub after: u32,
    pub call: ScriptCall,
}

/// A machine of a scenario, by its journal. What it tells should cost no more than the answer.
pub trait Drainable {
    ghost scenario: { Self → ScenarioLists };

    ghost journal: { Self → List Entry };

    /// How much work is left to a drain of a scenario after these entries.
    ghost work: { ScenarioLists → List Entry → ℕ };

    fn channels(&self) -> u8
        ensures { result ≡ (scenario self.now).channels };

    fn frames(&self) -> u8
        ensures { result ≡ (scenario self.now).frames };

    fn keep(&self) -> u8
        ensures { result ≡ (scenario self.now).keep };

    /// How many page calls are to fail.
    fn faults(&self) -> u32
        ensures value { result ≡ length (layout_of (scenario self.now)).faults }
        ensures small { result < 2 ^ 31 };

    /// The number of the first released packet of a link that was not received, of two nodes of the scenario.
    fn due(&self, node: NodeId, peer: NodeId) -> Option<u32>
        requires node { node.0 < (scenario self.now).nodes }
        requires peer { peer.0 < (scenario self.now).nodes }
        ensures value { result ≡ due (scenario self.now) peer node (journal self.now) }
        ensures counted { IfSome result (λ number. 1 ≤ number) };

    /// The least node, and then the least peer, with something due on the link to the node.
    fn first_due(&self) -> Option<NodePair>
        ensures { IsFirstPair (scenario self.now) (has_due (scenario self.now) (journal self.now)) result };

    /// The least node, and then the least peer, with a bound channel from the node.
    fn first_bound(&self) -> Option<NodePair>
        ensures { IsFirstPair (scenario self.now) (has_bound (scenario self.now) (journal self.now)) result };

    /// Whether a channel from a node to a peer is bound, of those of the scenario.
    fn is_bound(&self, node: NodeId, peer: NodeId, channel: u8) -> bool
        requires node { node.0 < (scenario self.now).nodes }
        requires peer { peer.0 < (scenario self.now).nodes }
        requires channel { channel < (scenario self.now).channels }
        ensures { result ≡ is_bound (channel_to node peer channel) (journal self.now) };

    /// How many endpoints there are.
    fn ends_len(&self) -> usize
        ensures { result ≡ length (standings (layout_of (scenario self.now)) (journal self.now)) };

    /// The place of the least endpoint that is wanted and on disk.
    fn first_missed(&self) -> Option<usize>
        ensures { IsNext is_missed (standings (layout_of (scenario self.now)) (journal self.now)) 0 result };

    /// The place of the least endpoint at or behind a place that passes, while no wanted endpoint is on disk.
    fn next_end(&self, test: EndTest, from: usize) -> Option<usize>
        requires { next_page_in (standings (layout_of (scenario self.now)) (journal self.now)) ≡ None }
        ensures { IsNext (shows test) (standings (layout_of (scenario self.now)) (journal self.now)) from result };

    /// The endpoint at a place of their order.
    fn head(&self, index: usize) -> EndHead
        requires { index < length (standings (layout_of (scenario self.now)) (journal self.now)) }
        ensures value { slice_get (map head_of (standings (layout_of (scenario self.now)) (journal self.now))) index ≡ Some result }
        ensures seat { is_seat (layout_of (scenario self.now)) result.node result.id ≡ true };

    /// The endpoint at a place of their order, while no wanted endpoint is on disk.
    fn mail(&self, index: usize) -> EndMail
        requires index { index < length (standings (layout_of (scenario self.now)) (journal self.now)) }
        requires none_missed { next_page_in (standings (layout_of (scenario self.now)) (journal self.now)) ≡ None }
        ensures value { slice_get (map mail_of (standings (layout_of (scenario self.now)) (journal self.now))) index ≡ Some result }
        ensures seat { is_seat (layout_of (scenario self.now)) result.node result.id ≡ true };

    /// The node of an endpoint.
    fn home(&self, end: EndpointId) -> Option<NodeId>
        ensures value { result ≡ layouts.home (layout_of (scenario self.now)) end }
        ensures seat { IfSome result (λ node. is_seat (layout_of (scenario self.now)) node end ≡ true) };

    /// What is known of an endpoint wherever it lies.
    fn head_by(&self, end: EndpointId) -> Head
        requires { layouts.declared (layout_of (scenario self.now)) end ≡ true }
        ensures { result ≡ (state_of (layout_of (scenario self.now)) (journal self.now) end).head };

    /// How many requests an endpoint has received and not polled, while no wanted endpoint is on disk.
    fn received_requests(&self, end: EndpointId) -> u8
        requires declared { layouts.declared (layout_of (scenario self.now)) end ≡ true }
        requires none_missed { next_page_in (standings (layout_of (scenario self.now)) (journal self.now)) ≡ None }
        ensures { result ≡ count_by is_request (state_of (layout_of (scenario self.now)) (journal self.now) end).body.received };

    /// Whether some endpoint of a node lies in a frame.
    fn is_frame_held(&self, node: NodeId, frame: u8) -> bool
        ensures { result ≡ is_frame_held (layout_of (scenario self.now)) (journal self.now) node frame };

    /// The next call of the thread that has made the fewest, the least among equals, of those to which a call is left.
    fn fewest(&self) -> Option<LeftCall>
        ensures value { IsFewest (left_to (scenario self.now) (journal self.now)) (scenario self.now).threads (option_map left_of result) }
        ensures in_range { IfSome result (λ left. is_in_range (layout_of (scenario self.now)) (call_event left.call) ≡ true) };

    /// Makes the entry of an event. A fault changes nothing.
    fn apply(&mut self, event: Event) -> Result<(), EntryFault>
        requires { is_in_range (layout_of (scenario self.old)) event ≡ true }
        ensures scenario { scenario self.new ≡ scenario self.old }
        ensures acts { Acts (scenario self.old) result (journal self.old) (after_event (layout_of (scenario self.old)) event (journal self.old)) (journal self.new) };

    /// The next turn leaves less work.
    fn turns_fall(&self)
        ensures { TurnFalls work (scenario self.now) (journal self.now) };
}

/// Does turns until no rule applies. It ends, since each turn leaves less work. Ok: the journal is
/// what the drain makes of the one before, and no entry met a full log. LogFull: it is what the drain makes before the first
/// entry that meets a full log, which is the part's. NotEnabled: before the first entry whose event has this condition
/// against it. NoMemory: before an entry that meets no full log.
pub fn drain<M: Drainable>(machine: &mut M) -> Result<(), EntryFault>
    ensures scenario { M.scenario machine.new ≡ M.scenario machine.old }
    ensures drained { OnOk result (IsDrainedWithRoom (M.scenario machine.old) (M.journal machine.old) (M.journal machine.new)) }
    ensures stopped { IfErr result (λ fault. IsDrainStopped (M.scenario machine.old) (M.journal machine.old) fault (M.journal machine.new)) }
{
    'turns: loop {
        machine.turns_fall();
        match rules::next_turn(machine) {
            None => return Ok(()),
            Some(turn) => match turns::do_turn(machine, turn) {
                Ok(()) => {}
                Err(fault) => return Err(fault),
            },
        }
    }
}
