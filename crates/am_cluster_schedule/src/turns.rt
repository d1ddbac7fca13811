//! The turns of all workers, one at a time.

ghost use Rattle.am_cluster_running.specs.Running.{IsThreadAt, SameCrew};
ghost use Rattle.am_cluster_opening.specs.Crews.{AreCrews, AreLinked, IsCrew};
ghost use Rattle.am_cluster_schedule.specs.InTurn.{IsRoleAt, IsTurnOfThread};
ghost use Rattle.am_cluster_schedule.specs.Order.{first_turns, order_of};
ghost use Rattle.am_cluster_schedule.specs.Schedules.{TakesTurns, TurnsInCrew};
ghost use Rattle.am_cluster_schedule.specs.declared.order.Role.TheVariants as Roles;
ghost use Rattle.am_scenario_generator.specs.Words.{seeded};
ghost use Rattle.am_scenario_types.specs.Lawful.{IsLawful};
ghost use Rattle.am_scenario_types.specs.declared.parts.Network.TheVariants as Networks;
ghost use Rattle.am_workers.specs.declared.workers.ThreadWorker.{ThreadWorker};
ghost use Rattle.std.specs.Prelude.{◌≡◌, ◌<◌, ◌+◌, Some, length, slice_get};

use crate::order::{Order, Role};
use am_cluster_opening::NodeCrew;
use am_places::Places;
use am_scenario_types::Scenario;
use am_workers::{ThreadWorker, turn_as_driver, turn_as_interface, turn_as_thread};
use am_workers_laws::books::EndBook;
use std::alloc::Global;

/// The thread at this place makes the turn with this number.
fn thread_turn_at(
    threads: &mut Vec<ThreadWorker>,
    at: usize,
    places: &Places<EndBook>,
    scenario: &Scenario,
    turn: u32,
)
    requires at { at < length threads.old.items }
    requires at_work { (w : ThreadWorker) → slice_get threads.old.items at ≡ Some w → IsThreadAt scenario.now places.now turn w }
    ensures { IsTurnOfThread scenario.now places.now at turn threads.old.items threads.new.items }
{
    let worker = &mut threads[at];
    turn_as_thread(worker, places, scenario, turn);
}

/// The crew's thread at this place makes the turn with this number.
fn take_thread_turn(scenario: &Scenario, crew: &mut NodeCrew, at: usize, number: u32)
    requires within { IsCrew scenario.now crew.old.node scenario.now.turns crew.old }
    requires low { number < scenario.now.turns }
    requires at_work { IsRoleAt scenario.now crew.old (Roles.Thread at) number }
    ensures within { IsCrew scenario.now crew.old.node scenario.now.turns crew.new }
    ensures at_work { IsRoleAt scenario.now crew.new (Roles.Thread at) (number + 1) }
    ensures turns { TurnsInCrew (Roles.Thread at) crew.old crew.new }
    ensures same { SameCrew crew.old crew.new }
{
    thread_turn_at(&mut crew.threads, at, &crew.places, scenario, number);
}

/// The crew's interface makes the turn with this number.
fn take_interface_turn(scenario: &Scenario, crew: &mut NodeCrew, number: u32)
    requires lawful { IsLawful scenario.now }
    requires within { IsCrew scenario.now crew.old.node scenario.now.turns crew.old }
    requires low { number < scenario.now.turns }
    requires at_work { IsRoleAt scenario.now crew.old Roles.Interface number }
    ensures within { IsCrew scenario.now crew.old.node scenario.now.turns crew.new }
    ensures at_work { IsRoleAt scenario.now crew.new Roles.Interface (number + 1) }
    ensures turns { TurnsInCrew Roles.Interface crew.old crew.new }
    ensures same { SameCrew crew.old crew.new }
{
    turn_as_interface(
        &mut crew.interface,
        &crew.places,
        scenario,
        crew.node,
        number,
    );
}

/// The crew's driver makes the turn with this number.
fn take_driver_turn(alloc: Global, scenario: &Scenario, crew: &mut NodeCrew, number: u32)
    requires lawful { IsLawful scenario.now }
    requires packet { scenario.now.network ≡ Networks.Packet }
    requires declared { crew.old.node.0 < scenario.now.nodes }
    requires within { IsCrew scenario.now crew.old.node scenario.now.turns crew.old }
    requires low { number < scenario.now.turns }
    requires at_work { IsRoleAt scenario.now crew.old Roles.Driver number }
    ensures within { IsCrew scenario.now crew.old.node scenario.now.turns crew.new }
    ensures at_work { IsRoleAt scenario.now crew.new Roles.Driver (number + 1) }
    ensures turns { TurnsInCrew Roles.Driver crew.old crew.new }
    ensures same { SameCrew crew.old crew.new }
{
    turn_as_driver(alloc, &mut crew.driver, &crew.places, scenario, number);
}

/// The crew's worker with this role makes the turn with this number.
fn take_turn(alloc: Global, scenario: &Scenario, crew: &mut NodeCrew, role: Role, number: u32)
    requires lawful { IsLawful scenario.now }
    requires packet { scenario.now.network ≡ Networks.Packet }
    requires declared { crew.old.node.0 < scenario.now.nodes }
    requires within { IsCrew scenario.now crew.old.node scenario.now.turns crew.old }
    requires low { number < scenario.now.turns }
    requires at_work { IsRoleAt scenario.now crew.old role number }
    ensures within { IsCrew scenario.now crew.old.node scenario.now.turns crew.new }
    ensures at_work { IsRoleAt scenario.now crew.new role (number + 1) }
    ensures turns { TurnsInCrew role crew.old crew.new }
    ensures same { SameCrew crew.old crew.new }
{
    match role {
        Role::Thread(at) => take_thread_turn(scenario, crew, at, number),
        Role::Interface => take_interface_turn(scenario, crew, number),
        Role::Driver => take_driver_turn(alloc, scenario, crew, number),
    }
}

/// All workers make their turns, each turn by itself, in this order.
pub(crate) fn take_turns(
    alloc: Global,
    scenario: &Scenario,
    seed: u64,
    order: &mut Order,
    crews: &mut Vec<NodeCrew>,
)
    requires lawful { IsLawful scenario.now }
    requires packet { scenario.now.network ≡ Networks.Packet }
    requires generator { order.old.generator ≡ seeded seed }
    requires next { order.old.next.items ≡ first_turns scenario.now }
    requires crews { AreCrews scenario.now 0 crews.old.items }
    requires linked { AreLinked crews.old.items }
    ensures crews { AreCrews scenario.now scenario.now.turns crews.new.items }
    ensures linked { AreLinked crews.new.items }
    ensures turns { TakesTurns (order_of scenario.now seed) crews.old.items crews.new.items }
{
    for _turn in 0..order.turns_left(scenario.turns) {
        let Some(turn) = order.draw(scenario.turns) else {
            return;
        };
        let crew = &mut crews[turn.worker.crew];
        take_turn(alloc, scenario, crew, turn.worker.role, turn.number);
    }
}
