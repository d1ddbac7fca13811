//! An interface, from turn to turn.
ghost use Rattle.am_endpoint_body.specs.declared.settings.EndSettings.{EndSettings};
ghost use Rattle.am_iface.specs.Settings.{AreLawful};
ghost use Rattle.am_model.specs.Channels.{emitted};
ghost use Rattle.am_names.specs.declared.NodeId.{NodeId};
ghost use Rattle.am_names.specs.declared.Packet.{Packet};
ghost use Rattle.am_scenario_types.specs.Lists.{ScenarioLists};
ghost use Rattle.am_workers_laws.specs.Invariants.Seats.{IsIdle, SameSeat};
ghost use Rattle.am_workers.specs.Turns.Servers.{GoesOut, HandHolds, IsInterfaceOf, hand_after, out_of, sent_to};
ghost use Rattle.am_workers.specs.Turns.Turns.{WhyTurned, WorkTurns};
ghost use Rattle.am_workers_laws.specs.Invariants.Works.{InterfaceWorks};
ghost use Rattle.std.specs.Prelude.{◌≡◌, ◌≢◌, ◌+◌, ◌++◌, ℕ, IfSome, List, Some, length, slice_get};
ghost use lib.ListN.{get_elem?};
ghost use mathlib.Core.Option.{some};
ghost use Rattle.am_places.specs.Seats.{pass_of, table_in};

use crate::turns::services::work_turn;
use crate::turns::turns::InterfaceTurn;
use am_iface::{IfaceSettings, Interface, Work};
use am_model_parts::needs_is_touched;
use am_names::{EndpointId, NodeId, Packet};
use am_places::{Places, Seat};
use am_workers_laws::books::EndBook;

/// What is in hand after a turn with this work.
fn hand_after(
    hand: Option<(NodeId, Packet)>,
    work: &Work,
    turn: &InterfaceTurn,
) -> Option<(NodeId, Packet)>
    ensures { result ≡ hand_after hand work.now turn.now }
{
    match work {
        Work::Receive(_) => match turn {
            InterfaceTurn::Made(_) => None,
            InterfaceTurn::Busy { .. }
            | InterfaceTurn::NotYet
            | InterfaceTurn::Full
            | InterfaceTurn::NoMemory => hand,
        },
        Work::Bind(_) | Work::Expire { .. } => hand,
    }
}

/// A turn of an interface with this work. A packet that it receives leaves its hand, and stays there where nothing was done. What
/// its entry emits goes from the interface's node to one of the nodes, and it keeps its works once that was sent.
pub fn serve(
    places: &Places<EndBook>,
    seat: &mut Seat<EndBook>,
    ids: &[EndpointId],
    interface: &mut Interface,
    set: &IfaceSettings,
    work: &Work,
    hand: &mut Option<(NodeId, Packet)>,
) -> InterfaceTurn
    requires idle { IsIdle (table_in places.now) seat.old.token }
    requires count { places.now.count ≡ length ids.now }
    requires guest { (pass_of seat.old).mark ≢ (pass_of seat.old).seats }
    requires births { (k : ℕ) (set : EndSettings) → get_elem? (pass_of seat.old).births k ≡ some set → slice_get ids.now k ≡ Some set.id }
    requires lawful { AreLawful set.now }
    requires set { set.now ≡ interface.old.settings }
    requires hand { HandHolds hand.old work.now }
    ensures idle { IsIdle (table_in places.now) seat.new.token }
    ensures seat { SameSeat (pass_of seat.old) (pass_of seat.new) }
    ensures turn { WorkTurns work.now interface.old interface.new (pass_of seat.old) (pass_of seat.new) result }
    ensures why { WhyTurned ids.now work.now interface.old (pass_of seat.old) (pass_of seat.new) result }
    ensures hand { hand.new ≡ hand_after hand.old work.now result }
    ensures settings { interface.new.settings ≡ interface.old.settings }
    ensures out { IfSome (out_of result) (GoesOut interface.old) }
    ensures sends { (to : NodeId) → emitted interface.old.settings.node to interface.new.log ≡ emitted interface.old.settings.node to interface.old.log ++ sent_to to (out_of result) }
    ensures works { (s : ScenarioLists) (turns : ℕ) (sent sends taken : NodeId → List Packet) → IsInterfaceOf s interface.old → InterfaceWorks s ids.now interface.old.settings.node turns interface.old.log sent taken hand.old (pass_of seat.old) → ((to : NodeId) → sends to ≡ emitted interface.old.settings.node to interface.new.log) → InterfaceWorks s ids.now interface.old.settings.node (turns + 1) interface.new.log sends taken hand.new (pass_of seat.new) }
{
    needs_is_touched();
    let turn = work_turn(places, seat, ids, interface, set, work);
    *hand = hand_after(*hand, work, &turn);
    turn
}
