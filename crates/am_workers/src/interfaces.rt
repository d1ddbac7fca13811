//! An interface between its links, from turn to turn.
ghost use Rattle.am_scenario_types.specs.Lawful.{IsLawful};
ghost use Rattle.am_scenario_types.specs.declared.parts.Network.TheVariants.{Packet as IsPacket};
ghost use Rattle.am_workers.specs.Turns.Servers.{HandHolds, out_of};
ghost use Rattle.am_workers.specs.AtWork.{IsInterfaceAtWork, SameIns, SameOuts};
ghost use Rattle.am_workers.specs.WorkerTurns.{AreWhole, DoesWork, FindsWork, TakesInHand, TurnsInterface};
ghost use Rattle.am_workers.specs.Turns.Chosen.{next_place};
ghost use Rattle.am_workers.specs.Ways.{CanServe, HaveRoom, HaveRoomBut, Prepares, Serves};
ghost use Rattle.am_workers.specs.Stops.{stop_after_work};
ghost use Rattle.am_workers.specs.declared.workers.Stop.{Stop};
ghost use Rattle.am_workers_laws.specs.Invariants.Seats.{SameSeat};
ghost use Rattle.std.specs.Prelude.{◌≡◌, ◌+◌, ◌<◌, ◌≤◌, None, OnErr, OnOk, Some, length};
ghost use Rattle.am_places.specs.Seats.{pass_of, table_in};

use crate::gate::Gate;
use crate::turns::{InterfaceTurn, next_work, serve};
use crate::ways::{make_room, place_after, pump_all, send, take_in_hand};
use crate::workers::{InterfaceWorker, Stop};
use am_iface::Work;
use am_names::{EndpointId, NoMemory, NodeId, Packet};
use am_places::Places;
use am_scenario_types::Scenario;
use am_workers_laws::books::EndBook;

/// Makes room on each link for a packet more, pumps the links, and takes the first packet that they have, if none is in hand.
/// `NoMemory` comes only where there is no room: no packet is taken then, and the hand and the ends that receive stay as they were.
fn prepare(worker: &mut InterfaceWorker) -> Result<(), NoMemory>
    requires from { worker.old.from < length worker.old.ins.items }
    requires few { length worker.old.ins.items ≤ 16 }
    ensures prepared { Prepares worker.old worker.new }
    ensures whole { OnOk result (AreWhole worker.new.outs.items) }
    ensures takes { OnOk result (TakesInHand worker.old.hand worker.new.hand worker.old.ins.items worker.old.from worker.new.from) }
    ensures waits { worker.new.waits ≡ worker.old.waits }
    ensures end { worker.new.end ≡ worker.old.end }
    ensures room { HaveRoomBut worker.old.last worker.old.outs.items → OnOk result (HaveRoom worker.new.outs.items) }
    ensures hand { OnErr result (worker.new.hand ≡ worker.old.hand) }
    ensures ins { OnErr result (worker.new.ins ≡ worker.old.ins) }
    ensures from { OnErr result (worker.new.from ≡ worker.old.from) }
{
    make_room(&mut worker.outs, worker.last)?;
    pump_all(&mut worker.outs);
    take_in_hand(&mut worker.hand, &mut worker.ins, &mut worker.from);
    Ok(())
}

/// The packet that the turn's entry emits, if any.
fn out_of(turn: &InterfaceTurn) -> Option<Packet>
    ensures { result ≡ out_of turn.now }
{
    match turn {
        InterfaceTurn::Made(turned) => turned.out,
        InterfaceTurn::Busy { .. }
        | InterfaceTurn::NotYet
        | InterfaceTurn::Full
        | InterfaceTurn::NoMemory => None,
    }
}

/// Why a worker makes no further turn after this one.
fn stop_after_work(turn: &InterfaceTurn) -> Option<Stop>
    ensures { result ≡ stop_after_work turn.now }
{
    match turn {
        InterfaceTurn::Full => Some(Stop::LogFull),
        InterfaceTurn::NoMemory => Some(Stop::NoMemory),
        InterfaceTurn::Made(_) | InterfaceTurn::Busy { .. } | InterfaceTurn::NotYet => None,
    }
}

/// The place of the endpoint that is next, of so many: after a bind it is the one after this.
fn next_place(at: usize, work: &Work, count: usize) -> usize
    ensures { result ≡ next_place at work.now count }
{
    match work {
        Work::Bind(_) => place_after(at, count),
        Work::Receive(_) | Work::Expire { .. } => at,
    }
}

/// Does this work, and emits what its entry emits on the link to its receiver.
fn do_work(worker: &mut InterfaceWorker, places: &Places<EndBook>, ids: &[EndpointId], work: &Work)
    requires can { CanServe (table_in places.now) places.now.count ids.now worker.old }
    requires hand { HandHolds worker.old.hand work.now }
    ensures serves { Serves (table_in places.now) ids.now worker.old worker.new }
    ensures does { DoesWork ids.now work.now worker.old worker.new }
{
    let turn = serve(
        places,
        &mut worker.seat,
        ids,
        &mut worker.interface,
        &worker.set,
        work,
        &mut worker.hand,
    );
    let out = out_of(&turn);
    worker.last = send(&mut worker.outs, worker.last, out);
    worker.waits.emitted(out);
    worker.end = next_place(worker.end, work, ids.len());
    worker.stop = stop_after_work(&turn);
}

/// Chooses a work and does it, if there is one to do.
fn find_work(worker: &mut InterfaceWorker, places: &Places<EndBook>, ids: &[EndpointId])
    requires can { CanServe (table_in places.now) places.now.count ids.now worker.old }
    ensures serves { Serves (table_in places.now) ids.now worker.old worker.new }
    ensures finds { FindsWork ids.now worker.old worker.new }
{
    worker.waits.begin_turn();
    let chosen = next_work(
        &worker.interface,
        &worker.set,
        &worker.waits,
        worker.hand,
        ids,
        worker.end,
    );
    match chosen {
        None => {}
        Some(work) => do_work(worker, places, ids, &work),
    }
}

/// The turn of the interface of a node with this number, from 0: it looks at its links, and then does one work. A full log stops it,
/// and want of memory does; one that stopped does nothing.
pub fn turn_as_interface(
    worker: &mut InterfaceWorker,
    places: &Places<EndBook>,
    scenario: &Scenario,
    node: NodeId,
    turn: u32,
)
    requires lawful { IsLawful scenario.now }
    requires at_work { IsInterfaceAtWork scenario.now (table_in places.now) places.now.ids.items node turn worker.old }
    ensures turn { worker.old.stop ≡ None → TurnsInterface places.now.ids.items worker.old worker.new }
    ensures at_work { IsInterfaceAtWork scenario.now (table_in places.now) places.now.ids.items node (turn + 1) worker.new }
    ensures seat { SameSeat (pass_of worker.old.seat) (pass_of worker.new.seat) }
    ensures outs { SameOuts worker.old.outs.items worker.new.outs.items }
    ensures ins { SameIns worker.old.ins.items worker.new.ins.items }
    ensures stopped { (why : Stop) → worker.old.stop ≡ Some why → worker.new ≡ worker.old }
{
    if worker.stop.is_some() {
        return;
    }
    if prepare(worker).is_err() {
        worker.stop = Some(Stop::NoMemory);
        return;
    }
    find_work(worker, places, places.ids.as_slice());
}

/// All turns of the interface of a node, whose number among the workers is this. It passes the gate at the start of each.
pub fn work_as_interface<G: Gate>(
    worker: &mut InterfaceWorker,
    places: &Places<EndBook>,
    scenario: &Scenario,
    node: NodeId,
    number: u32,
    gate: &G,
)
    requires lawful { IsLawful scenario.now }
    requires packet { scenario.now.network ≡ IsPacket }
    requires declared { node.0 < scenario.now.nodes }
    requires at_work { IsInterfaceAtWork scenario.now (table_in places.now) places.now.ids.items node 0 worker.old }
    ensures at_work { IsInterfaceAtWork scenario.now (table_in places.now) places.now.ids.items node scenario.now.turns worker.new }
    ensures seat { SameSeat (pass_of worker.old.seat) (pass_of worker.new.seat) }
    ensures outs { SameOuts worker.old.outs.items worker.new.outs.items }
    ensures ins { SameIns worker.old.ins.items worker.new.ins.items }
    ensures stopped { (why : Stop) → worker.old.stop ≡ Some why → worker.new ≡ worker.old }
{
    for turn in 0..scenario.turns {
        gate.pass(number, turn);
        turn_as_interface(worker, places, scenario, node, turn);
    }
}
