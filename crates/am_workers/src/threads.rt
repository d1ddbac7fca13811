//! The turns of an application thread.
ghost use Rattle.am_scenario_types.specs.Lawful.{IsLawful};
ghost use Rattle.am_workers.specs.AtWork.{IsThreadAtWork};
ghost use Rattle.am_workers.specs.Stops.{stop_after_call};
ghost use Rattle.am_workers.specs.WorkerTurns.{TurnsThread};
ghost use Rattle.am_workers.specs.declared.workers.Stop.{Stop};
ghost use Rattle.am_workers_laws.specs.Invariants.Seats.{SameSeat};
ghost use Rattle.std.specs.Prelude.{None, Some, ◌≡◌, ◌+◌};
ghost use Rattle.am_places.specs.Seats.{pass_of, table_in};

use crate::gate::Gate;
use crate::turns::{ThreadTurn, call_turn};
use crate::workers::{Stop, ThreadWorker};
use am_places::Places;
use am_scenario_types::Scenario;
use am_workers_laws::books::EndBook;

/// Why a thread makes no further turn after this one, if it makes none.
fn stop_after_call(turn: Option<ThreadTurn>) -> Option<Stop>
    ensures { result ≡ stop_after_call turn }
{
    match turn {
        Some(ThreadTurn::Full) => Some(Stop::LogFull),
        Some(ThreadTurn::NoMemory) => Some(Stop::NoMemory),
        _ => None,
    }
}

/// The turn of a thread with this number, from 0: its next call, if one is left. The call is made where its endpoint is free and not on
/// disk, and an endpoint on disk that is not wanted is wanted. A full log stops it, and want of memory does; one that stopped makes no
/// call.
pub fn turn_as_thread(
    worker: &mut ThreadWorker,
    places: &Places<EndBook>,
    scenario: &Scenario,
    turn: u32,
)
    requires at_work { IsThreadAtWork scenario.now (table_in places.now) places.now.ids.items turn worker.old }
    ensures turn { worker.old.stop ≡ None → TurnsThread places.now.ids.items worker.old worker.new }
    ensures at_work { IsThreadAtWork scenario.now (table_in places.now) places.now.ids.items (turn + 1) worker.new }
    ensures seat { SameSeat (pass_of worker.old.seat) (pass_of worker.new.seat) }
    ensures thread { worker.new.thread ≡ worker.old.thread }
    ensures stopped { (why : Stop) → worker.old.stop ≡ Some why → worker.new ≡ worker.old }
{
    if worker.stop.is_some() {
        return;
    }
    let made = call_turn(
        places,
        &mut worker.seat,
        &places.ids,
        &worker.script,
        worker.thread,
        &mut worker.next,
        &mut worker.clock,
    );
    worker.stop = stop_after_call(made);
}

/// The turns of a thread in a phase of the scenario, as the worker with this number: in each it passes the gate, and makes its next
/// call, if one is left. A full log stops it, and want of memory does; a stopped worker passes the gate alone.
pub fn work_as_thread<G: Gate>(
    worker: &mut ThreadWorker,
    places: &Places<EndBook>,
    scenario: &Scenario,
    number: u32,
    gate: &G,
)
    requires lawful { IsLawful scenario.now }
    requires at_work { IsThreadAtWork scenario.now (table_in places.now) places.now.ids.items 0 worker.old }
    ensures at_work { IsThreadAtWork scenario.now (table_in places.now) places.now.ids.items scenario.now.turns worker.new }
    ensures seat { SameSeat (pass_of worker.old.seat) (pass_of worker.new.seat) }
    ensures thread { worker.new.thread ≡ worker.old.thread }
    ensures stopped { (why : Stop) → worker.old.stop ≡ Some why → worker.new ≡ worker.old }
{
    for turn in 0..scenario.turns {
        gate.pass(number, turn);
        turn_as_thread(worker, places, scenario, turn);
    }
}
