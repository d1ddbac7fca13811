//! Local and global: what an interface, a driver and an endpoint say of their next entry by their own log, and that it is
//! what the whole journal says. So a part that runs beside others makes only entries of the one machine, and the sequential
//! cluster and the threads stand on the same theorems. Each theorem is the contract of a function with an empty body.
#![tactic(auto)]

ghost use Rattle.am_model_parts.specs.Asked.{IsThere, carry_at, failing_call, failing_carry, failing_want};
ghost use Rattle.am_model_parts.specs.Bounds.{IsBounded};
ghost use Rattle.am_model_parts.specs.Driver.{DriverLog, end_moved, failing_move, outcome_move};
ghost use Rattle.am_model.specs.Parts.{driver_of};
ghost use Rattle.am_model_parts.specs.Follows.{IsNext, PartsGrow};
ghost use Rattle.am_model_parts.specs.Granted.{IsMoveOf, IsWorkAt, MayDo, MayMove};
ghost use Rattle.am_model_parts.specs.Interface.{InterfaceLog, emits_to, event_of, home_of_front, failing_at, is_bind, needs, outcome_at, receiver};
ghost use Rattle.am_model_parts.specs.Numbered.{AreNumbered, IsNextPacket, IsPacketAt};
ghost use Rattle.am_model_parts.specs.Readings.{ReadingsGrow, ReadsItsOwn};
ghost use Rattle.am_model_parts.specs.Together.{IsAt, IsDriverPart, IsPart, IsState, SaysTheSame, SaysTheSameOfCall, SaysTheSameOfCarry, SaysTheSameOfMove, SaysTheSameOfWant, driver_in, interface_in};
ghost use Rattle.am_model.specs.Packets.{restamped};
ghost use Rattle.am_model.specs.Allowed.{MayArrive, MayBind, MayCarry, MayDrain, MayLoad, MayPageIn, MayPageOut, MaySettle, MayUnload, are_numbers_in_range};
ghost use Rattle.am_model.specs.Calls.{outcome_of_call};
ghost use Rattle.am_model.specs.Changes.{called, made_wanted};
ghost use Rattle.am_model.specs.Channels.{emitted};
ghost use Rattle.am_model.specs.Endpoint.{IsWithinBounds, State, Body, fresh, front};
ghost use Rattle.am_model.specs.History.{IsHistory, MayFollow, state_of};
ghost use Rattle.am_model.specs.Layout.{IsLawful, IsPoolLawful, Layout};
ghost use Rattle.am_model.specs.Order.{IsInOrder, KeepsOrder};
ghost use Rattle.am_names.specs.declared.EndpointId.{EndpointId};
ghost use Rattle.am_names.specs.declared.NodeId.{NodeId};
ghost use Rattle.am_names.specs.declared.Packet.{Packet};
ghost use Rattle.am_names.specs.declared.Tag.{Tag};
ghost use Rattle.am_office_entries.specs.Entries.{emitted_in, ends_touched};
ghost use Rattle.am_office_entries.specs.declared.Actor.{Actor};
ghost use Rattle.am_office_entries.specs.declared.Call.{Call};
ghost use Rattle.am_office_entries.specs.declared.Entry.{Entry};
ghost use Rattle.am_office_entries.specs.declared.Event.{Event};
ghost use Rattle.am_office_entries.specs.declared.Event.TheVariants as Events;
ghost use Rattle.am_office_entries.specs.declared.Outcome.{Outcome};
ghost use Rattle.am_office_entries.specs.declared.Outcome.TheVariants as Out;
ghost use Rattle.am_office_entries.specs.declared.Place.{Place};
ghost use Rattle.std.specs.Option.{option_to_list};
ghost use Rattle.std.specs.Prelude.{◌≡◌, ℕ, false, true, List, Option, None, Some, slice_get};

pub mod work;

ghost use Rattle.am_model_parts.specs.declared.work.Work.{Work};
ghost use Rattle.am_model_parts.specs.declared.work.Work.TheVariants as Works;

// ---- what each part says is what the journal says

/// What an interface says of its work, by its own log, the state of the endpoint that the work touches and the packet in
/// hand, is what the whole journal says: what comes of it, and the first condition that keeps it from being done.
pub fn work_is_local()
    ensures { (layout : Layout) (past : List Entry) (i : InterfaceLog) (s : State) (w : Work) → IsPart layout past i → IsAt layout past i s w → SaysTheSame layout past i s w }
{}

/// What a driver says of a move, by its own log and the state of the endpoint that it moves, is what every history says:
/// what comes of it, by the number of the page call, and the first condition that keeps it from being made, by the frames
/// that are held.
pub fn move_is_local()
    ensures { (layout : Layout) (past : List Entry) (d : DriverLog) (s : State) (event : Event) → IsHistory layout past → IsDriverPart layout past d → driver_of event ≡ Some d.settings.node → IsState layout past s (end_moved event) → SaysTheSameOfMove layout past d s event }
{}

/// What comes of a call, of a want and of a carry is found by the states of the endpoints that they touch alone.
pub fn calls_are_local()
    ensures call { (layout : Layout) (past : List Entry) (actor : Actor) (e : EndpointId) (call : Call) (s : State) → s ≡ state_of layout past e → SaysTheSameOfCall layout past actor e call s }
    ensures want { (layout : Layout) (past : List Entry) (actor : Actor) (e : EndpointId) (s : State) → s ≡ state_of layout past e → SaysTheSameOfWant layout past actor e s }
    ensures carry { (layout : Layout) (past : List Entry) (e : EndpointId) (s there : State) → layout.direct ≡ true → s ≡ state_of layout past e → IsThere layout past (front s) there → SaysTheSameOfCarry layout past e s there }
{}

/// On the packet network each node has an interface and a driver whose settings are the layout's and whose logs are their
/// parts of the journal.
pub fn parts_are_there()
    ensures interface { (layout : Layout) (past : List Entry) (node : NodeId) → IsLawful layout → layout.direct ≡ false → IsPart layout past (interface_in layout node past) }
    ensures driver { (layout : Layout) (past : List Entry) (node : NodeId) → IsLawful layout → layout.direct ≡ false → IsDriverPart layout past (driver_in layout node past) }
{}

// ---- what a work touches and where its packet goes

/// A work's entry touches the endpoint that the work needs, and no other.
pub fn needs_is_touched()
    ensures { (i : InterfaceLog) (s : State) (w : Work) → ends_touched (event_of i.settings.node w) (outcome_at i s w) ≡ option_to_list (needs i w) }
{}

/// Where a work is no bind, its entry emits a packet to the node that the work names before it is made, and none where it
/// names none. A bind that can be made emits one to the node of the front message's destination.
pub fn emission_is_told()
    ensures others { (i : InterfaceLog) (s : State) (w : Work) (stamp : ℕ) → is_bind w ≡ false → receiver (emitted_in stamp (event_of i.settings.node w) (outcome_at i s w)) ≡ emits_to i w }
    ensures bind { (i : InterfaceLog) (s : State) (end : EndpointId) (stamp : ℕ) → failing_at i s (Works.Bind end) ≡ None → receiver (emitted_in stamp (event_of i.settings.node (Works.Bind end)) (outcome_at i s (Works.Bind end))) ≡ home_of_front i (front s) }
{}

/// The stamp of a received packet is read by nothing that an interface says.
pub fn stamp_is_not_read()
    ensures outcome { (i : InterfaceLog) (s : State) (p : Packet) (stamp : ℕ) → outcome_at i s (Works.Receive (restamped stamp p)) ≡ outcome_at i s (Works.Receive p) }
    ensures needs { (i : InterfaceLog) (p : Packet) (stamp : ℕ) → needs i (Works.Receive (restamped stamp p)) ≡ needs i (Works.Receive p) }
    ensures emits { (i : InterfaceLog) (p : Packet) (stamp : ℕ) → emits_to i (Works.Receive (restamped stamp p)) ≡ emits_to i (Works.Receive p) }
{}

/// The packet that a work's entry emits comes from the interface's node, with the entry's stamp and the next number of
/// its link.
pub fn emission_is_next()
    ensures { (i : InterfaceLog) (s : State) (w : Work) (stamp : ℕ) (p : Packet) → emitted_in stamp (event_of i.settings.node w) (outcome_at i s w) ≡ Some p → IsNextPacket i.settings.node i.log stamp p }
{}

/// Where each packet has the next number of its link, as in every history, the packet with number k is the k-th of its
/// link.
pub fn packets_are_numbered()
    ensures history { (layout : Layout) (journal : List Entry) → IsHistory layout journal → AreNumbered journal }
    ensures place { (log : List Entry) → AreNumbered log → (node peer : NodeId) (k : ℕ) (p : Packet) → slice_get (emitted node peer log) k ≡ Some p → IsPacketAt node peer k p }
{}

// ---- what parts keep beside their log

/// The ends of a node's channels and its emitted packets are read off its own interface's entries, and the number of its
/// page calls off its own driver's.
pub fn readings_are_own()
    ensures { (node : NodeId) (past : List Entry) → ReadsItsOwn node past }
{}

/// What one entry more makes of each reading.
pub fn readings_grow()
    ensures { (log : List Entry) (x : Entry) → ReadingsGrow log x }
{}

/// The parts of a journal after one entry more: each log has it at its end where the entry touches the part, and is else
/// as it was.
pub fn parts_grow()
    ensures { (layout : Layout) (past : List Entry) (x : Entry) → PartsGrow layout past x }
{}

/// An entry that a part finds by its own log may come next in the journal, where it is stamped above all that came before:
/// an interface's work, a driver's move, a call, a want and a carry.
pub fn entries_follow()
    ensures work { (layout : Layout) (past : List Entry) (i : InterfaceLog) (s : State) (w : Work) (x : Entry) → IsPart layout past i → IsAt layout past i s w → IsNext layout past (event_of i.settings.node w) x → failing_at i s w ≡ None → x.outcome ≡ outcome_at i s w → MayFollow layout past x }
    ensures moved { (layout : Layout) (past : List Entry) (d : DriverLog) (s : State) (event : Event) (x : Entry) → IsHistory layout past → IsDriverPart layout past d → driver_of event ≡ Some d.settings.node → IsState layout past s (end_moved event) → IsNext layout past event x → failing_move d s event ≡ None → x.outcome ≡ outcome_move d event → MayFollow layout past x }
    ensures call { (layout : Layout) (past : List Entry) (actor : Actor) (e : EndpointId) (call : Call) (s : State) (x : Entry) → s ≡ state_of layout past e → IsNext layout past (Events.Call actor e call) x → failing_call s ≡ None → x.outcome ≡ outcome_of_call layout.pool e s call → MayFollow layout past x }
    ensures want { (layout : Layout) (past : List Entry) (actor : Actor) (e : EndpointId) (s : State) (x : Entry) → s ≡ state_of layout past e → IsNext layout past (Events.Want actor e) x → failing_want s ≡ None → x.outcome ≡ Out.Silent → MayFollow layout past x }
    ensures carry { (layout : Layout) (past : List Entry) (e : EndpointId) (s there : State) (x : Entry) → layout.direct ≡ true → s ≡ state_of layout past e → IsThere layout past (front s) there → IsNext layout past (Events.Carry e) x → failing_carry s ≡ None → x.outcome ≡ carry_at layout.bounces (front s) there → MayFollow layout past x }
{}

// ---- what an endpoint may be given

/// What an interface's work gives to the endpoint that it touches is what the endpoint may be given, and keeps it in order.
pub fn work_is_granted()
    ensures granted { (i : InterfaceLog) (e : EndpointId) (s : State) (w : Work) (x : Entry) → IsWorkAt i e s w x → MayDo i e s w x }
    ensures order { (i : InterfaceLog) (pool : Option ℕ) (e : EndpointId) (s : State) (w : Work) (x : Entry) → IsWorkAt i e s w x → KeepsOrder i.settings.bounces pool e s x }
{}

/// What a driver's move gives to the endpoint that it moves is what the endpoint may be given, and keeps it in order.
pub fn move_is_granted()
    ensures granted { (d : DriverLog) (e : EndpointId) (s : State) (x : Entry) → IsMoveOf d e s x → MayMove d.settings.node e s x x.event }
    ensures order { (d : DriverLog) (limit : ℕ) (pool : Option ℕ) (e : EndpointId) (s : State) (x : Entry) → IsMoveOf d e s x → KeepsOrder limit pool e s x }
{}

// ---- the bounds of an endpoint's lists

/// An endpoint in order holds at most 32 messages of its own, 16 requests and 16 replies among them, has at most 32
/// records, and has received at most 16 requests and 32 replies that it did not run.
pub fn order_is_bounded()
    ensures order { (pool : Option ℕ) (e : EndpointId) (s : State) → IsInOrder pool e s → IsBounded s.body }
    ensures within { (b : Body) → IsWithinBounds b → IsBounded b }
{}

/// Every change keeps an endpoint in order, by what makes the change allowed alone and not by what came before: its lists
/// stay within their bounds.
pub fn changes_keep_order()
    ensures fresh { (pool : Option ℕ) (e : EndpointId) (tag : Tag) (place : Place) → IsPoolLawful pool → IsInOrder pool e (fresh tag place) }
    ensures call { (pool : Option ℕ) (e : EndpointId) (s : State) (c : Call) → are_numbers_in_range pool c ≡ true → IsInOrder pool e s → IsInOrder pool e (called s c (outcome_of_call pool e s c)) }
    ensures want { (pool : Option ℕ) (e : EndpointId) (s : State) → IsInOrder pool e s → IsInOrder pool e (made_wanted s) }
    ensures arrival { (limit : ℕ) (pool : Option ℕ) (e : EndpointId) (s : State) (x : Entry) → MayArrive e s x → KeepsOrder limit pool e s x }
    ensures carry { (limit : ℕ) (pool : Option ℕ) (e : EndpointId) (s : State) (x : Entry) → MayCarry limit e s x → KeepsOrder limit pool e s x }
    ensures bind { (limit : ℕ) (pool : Option ℕ) (node : NodeId) (e : EndpointId) (s : State) (x : Entry) → MayBind node e s x → KeepsOrder limit pool e s x }
    ensures settling { (limit : ℕ) (pool : Option ℕ) (e : EndpointId) (s : State) (x : Entry) → MaySettle limit e s x → KeepsOrder limit pool e s x }
    ensures drain { (limit : ℕ) (pool : Option ℕ) (node : NodeId) (e : EndpointId) (s : State) (x : Entry) → MayDrain node e s x → KeepsOrder limit pool e s x }
    ensures unload { (limit : ℕ) (pool : Option ℕ) (node : NodeId) (e : EndpointId) (s : State) (x : Entry) → MayUnload node e s x → KeepsOrder limit pool e s x }
    ensures load { (limit : ℕ) (pool : Option ℕ) (node : NodeId) (e : EndpointId) (s : State) (x : Entry) → MayLoad node e s x → KeepsOrder limit pool e s x }
    ensures page_out { (limit : ℕ) (pool : Option ℕ) (node : NodeId) (e : EndpointId) (s : State) (x : Entry) → MayPageOut node e s x → KeepsOrder limit pool e s x }
    ensures page_in { (limit : ℕ) (pool : Option ℕ) (outcome : Outcome) (node : NodeId) (e : EndpointId) (s : State) (x : Entry) → MayPageIn outcome node e s x → KeepsOrder limit pool e s x }
{}
