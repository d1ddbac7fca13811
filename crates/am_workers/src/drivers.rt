//! The turns of a node's driver.
ghost use Rattle.am_model_scripts.specs.Layout.{layout_of};
ghost use Rattle.am_model_parts.specs.Together.{ends_of};
ghost use Rattle.am_scenario_types.specs.Lawful.{IsLawful};
ghost use Rattle.am_scenario_types.specs.declared.parts.Network.TheVariants.{Packet};
ghost use Rattle.am_workers.specs.AtWork.{IsDriverAtWork};
ghost use Rattle.am_workers.specs.Stops.{stop_after_move};
ghost use Rattle.am_workers.specs.WorkerTurns.{TurnsDriver};
ghost use Rattle.am_workers.specs.declared.workers.Stop.{Stop};
ghost use Rattle.am_workers_laws.specs.Invariants.Seats.{SameSeat};
ghost use Rattle.std.specs.Prelude.{None, Some, ◌≡◌, ◌+◌, ◌<◌};
ghost use Rattle.am_places.specs.Seats.{pass_of, table_in};

use crate::gate::Gate;
use crate::workers::{DriverWorker, Stop};
use am_driver::{DriverFault, DriverTurn, driver_turn};
use am_places::Places;
use am_scenario_types::Scenario;
use am_workers_laws::books::EndBook;
use std::alloc::Global;

/// Why a driver makes no further turn after this one, if it makes none.
fn stop_after_move(turn: Result<DriverTurn, DriverFault>) -> Option<Stop>
    ensures { result ≡ stop_after_move turn }
{
    match turn {
        Ok(_) => None,
        Err(DriverFault::LogFull(_)) => Some(Stop::LogFull),
        Err(DriverFault::NoMemory) => Some(Stop::NoMemory),
    }
}

/// The turn of a node's driver with this number, from 0: it looks at the endpoints of its node, and makes at most one move. A full
/// log stops it, and want of memory does; one that stopped makes no move.
pub fn turn_as_driver(
    alloc: Global,
    worker: &mut DriverWorker,
    places: &Places<EndBook>,
    scenario: &Scenario,
    turn: u32,
)
    requires lawful { IsLawful scenario.now }
    requires packet { scenario.now.network ≡ Packet }
    requires ends { places.now.ids.items ≡ ends_of (layout_of scenario.now) worker.old.node }
    requires declared { worker.old.node.0 < scenario.now.nodes }
    requires frames { places.now.frames ≡ scenario.now.frames }
    requires at_work { IsDriverAtWork scenario.now (table_in places.now) places.now.ids.items worker.old.node turn worker.old }
    ensures turn { worker.old.stop ≡ None → TurnsDriver worker.old worker.new }
    ensures at_work { IsDriverAtWork scenario.now (table_in places.now) places.now.ids.items worker.old.node (turn + 1) worker.new }
    ensures seat { SameSeat (pass_of worker.old.seat) (pass_of worker.new.seat) }
    ensures node { worker.new.node ≡ worker.old.node }
    ensures stopped { (why : Stop) → worker.old.stop ≡ Some why → worker.new ≡ worker.old }
{
    if worker.stop.is_some() {
        return;
    }
    let moved = driver_turn(
        alloc,
        worker.node,
        places,
        &mut worker.seat,
        &mut worker.swap,
        &mut worker.view,
        &mut worker.clock,
    );
    worker.stop = stop_after_move(moved);
}

/// The turns of a node's driver in a phase of the scenario, as the worker with this number: in each it passes the gate, looks at the
/// endpoints of its node, and makes at most one move. A full log stops it, and want of memory does; a stopped worker passes the gate
/// alone.
pub fn work_as_driver<G: Gate>(
    alloc: Global,
    worker: &mut DriverWorker,
    places: &Places<EndBook>,
    scenario: &Scenario,
    number: u32,
    gate: &G,
)
    requires lawful { IsLawful scenario.now }
    requires packet { scenario.now.network ≡ Packet }
    requires ends { places.now.ids.items ≡ ends_of (layout_of scenario.now) worker.old.node }
    requires declared { worker.old.node.0 < scenario.now.nodes }
    requires frames { places.now.frames ≡ scenario.now.frames }
    requires at_work { IsDriverAtWork scenario.now (table_in places.now) places.now.ids.items worker.old.node 0 worker.old }
    ensures at_work { IsDriverAtWork scenario.now (table_in places.now) places.now.ids.items worker.old.node scenario.now.turns worker.new }
    ensures seat { SameSeat (pass_of worker.old.seat) (pass_of worker.new.seat) }
    ensures node { worker.new.node ≡ worker.old.node }
    ensures stopped { (why : Stop) → worker.old.stop ≡ Some why → worker.new ≡ worker.old }
{
    for turn in 0..scenario.turns {
        gate.pass(number, turn);
        turn_as_driver(alloc, worker, places, scenario, turn);
    }
}
