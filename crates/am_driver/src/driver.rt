//! The turn of a driver.
ghost use Rattle.am_endpoint_body.specs.declared.settings.EndSettings.{EndSettings};
ghost use Rattle.am_driver_moves.specs.Choice.Moves as rules;
ghost use Rattle.am_driver_moves.specs.Choice.Shown as shown;
ghost use Rattle.am_model_parts.specs.Driver.{end_moved};
ghost use Rattle.am_names.specs.Names.{same_end};
ghost use Rattle.am_scenario_types.specs.Lists.{ScenarioLists};
ghost use Rattle.am_workers_laws.specs.Invariants.Drivers.{IsDriverOf};
ghost use Rattle.am_workers_laws.specs.Invariants.Drives.{CanDrive};
ghost use Rattle.am_workers_laws.specs.Invariants.Seats.{IsIdle, Ids, SameSeat};
ghost use Rattle.am_workers_laws.specs.Invariants.Works.{DriverWorks};
ghost use Rattle.am_driver.specs.Turns as turns;
ghost use Rattle.am_driver.specs.Turns.{DriverTurns, IsMadeFor, MoveTurns};
ghost use Rattle.std.specs.Prelude.{◌≡◌, ◌+◌, ◌<◌, ℕ, Some, length, position};
ghost use lib.ListN.{get_elem?};
ghost use mathlib.Core.Option.{some};
ghost use Rattle.am_places.specs.Seats.{pass_of, table_in};

use crate::looks::look_at_each;
use crate::moves::decide;
use crate::settling::settle;
use crate::turns::{DriverFault, DriverTurn};
use am_driver_moves::choice::{Move, View, next_move};
use am_names::{EndpointId, NodeId};
use am_office_entries::Event;
use am_places::{Entered, Places, Seat};
use am_swap::Look;
use am_workers_laws::books::EndBook;
use std::alloc::Global;

/// The event of a move.
fn event_of(node: NodeId, chosen: Move) -> Option<Event>
    ensures { result ≡ shown.event_of node chosen }
{
    match chosen {
        Move::Drain(end) => Some(Event::Drain { node, end }),
        Move::Unload(end) => Some(Event::Unload { node, end }),
        Move::Load(end, frame) => Some(Event::Load { node, end, frame }),
        Move::PageOut(end) => Some(Event::PageOut { node, end }),
        Move::PageIn(end) => Some(Event::PageIn { node, end }),
        Move::Nothing => None,
    }
}

/// The endpoint that a driver's event is about.
fn end_moved(event: Event) -> Option<EndpointId>
    ensures { result ≡ end_moved event }
{
    match event {
        Event::Drain { end, .. }
        | Event::Unload { end, .. }
        | Event::Load { end, .. }
        | Event::PageOut { end, .. }
        | Event::PageIn { end, .. } => Some(end),
        _ => None,
    }
}

/// The position of the first line of this endpoint.
fn line_at(view: &View, end: EndpointId) -> Option<usize>
    ensures { result ≡ position (λ line. same_end end line.id) view.now.ends }
{
    view.ends.iter().position(|line| end.0 == line.id.0)
}

/// The stamp of the driver's last entry after this turn.
fn clock_after(clock: u64, turn: &Result<DriverTurn, DriverFault>) -> u64
    ensures { result ≡ turns.clock_after clock turn.now }
{
    match turn {
        Ok(DriverTurn::Did(entry)) => entry.stamp,
        _ => clock,
    }
}

/// Enters the endpoint that is to be moved again, and makes the move if the rules give it still.
fn move_turn<S: Look>(
    alloc: Global,
    node: NodeId,
    places: &Places<EndBook>,
    seat: &mut Seat<EndBook>,
    swap: &mut S,
    view: &mut View,
    clock: &mut u64,
    at: usize,
    chosen: Move,
    event: Event,
) -> Result<DriverTurn, DriverFault>
    requires idle { IsIdle (table_in places.now) seat.old.token }
    requires at { at < places.now.count }
    requires count { places.now.count ≡ length view.old.ends }
    requires can { CanDrive places.now.frames node view.old (S.device swap.old) (pass_of seat.old) }
    requires chosen { chosen ≡ rules.next_move view.old }
    requires event { shown.event_of node chosen ≡ Some event }
    requires end { (set : EndSettings) → get_elem? (pass_of seat.old).births at ≡ some set → end_moved event ≡ Some set.id }
    ensures idle { IsIdle (table_in places.now) seat.new.token }
    ensures turn { MoveTurns node at clock.old clock.new view.old view.new (S.device swap.old) (S.device swap.new) (pass_of seat.old) (pass_of seat.new) result }
    ensures cause { IsMadeFor result (S.count swap.old) (S.count swap.new) }
{
    match places.try_enter_at(seat, at) {
        Ok(entered) => {
            let Entered {
                mut book,
                at: place,
                frame,
            } = entered;
            let turn = decide(alloc, swap, view, at, &mut book, chosen, event, *clock);
            let mut entered = Entered {
                book,
                at: place,
                frame,
            };
            settle(places, seat, &mut entered, &turn);
            places.leave(seat, entered);
            *clock = clock_after(*clock, &turn);
            turn
        }
        Err(busy) => Ok(DriverTurn::Busy {
            holder: busy.holder,
        }),
    }
}

/// A turn of a node's driver: it looks at each endpoint of the node in order, and makes the move that its rules then give, if they give
/// it still when it is at that endpoint again. Its clock is the stamp of its last entry. The disk is any device that shows what it holds:
/// a page-out and a page-in are one call of it each, and an entry is failed only where the disk's count of faults rose.
pub fn driver_turn<S: Look>(
    alloc: Global,
    node: NodeId,
    places: &Places<EndBook>,
    seat: &mut Seat<EndBook>,
    swap: &mut S,
    view: &mut View,
    clock: &mut u64,
) -> Result<DriverTurn, DriverFault>
    requires idle { IsIdle (table_in places.now) seat.old.token }
    requires count { places.now.count ≡ length view.old.ends }
    requires can { CanDrive places.now.frames node view.old (S.device swap.old) (pass_of seat.old) }
    ensures idle { IsIdle (table_in places.now) seat.new.token }
    ensures seat { SameSeat (pass_of seat.old) (pass_of seat.new) }
    ensures can { CanDrive places.now.frames node view.new (S.device swap.new) (pass_of seat.new) }
    ensures turn { DriverTurns (length view.old.ends) node clock.old clock.new view.old view.new (S.device swap.old) (S.device swap.new) (pass_of seat.old) (pass_of seat.new) result }
    ensures cause { IsMadeFor result (S.count swap.old) (S.count swap.new) }
    ensures works { (s : ScenarioLists) (ids : Ids) (made_in : ℕ) → IsDriverOf s ids node made_in → DriverWorks s ids node made_in clock.old view.old (S.device swap.old) (pass_of seat.old) → DriverWorks s ids node (made_in + 1) clock.new view.new (S.device swap.new) (pass_of seat.new) }
{
    if let Err(busy) = look_at_each(places, seat, view) {
        return Ok(DriverTurn::Busy {
            holder: busy.holder,
        });
    }
    let chosen = next_move(view);
    let Some(event) = event_of(node, chosen) else {
        return Ok(DriverTurn::Nothing);
    };
    let Some(end) = end_moved(event) else {
        unreachable!()
    };
    let Some(at) = line_at(view, end) else {
        unreachable!()
    };
    move_turn(
        alloc, node, places, seat, swap, view, clock, at, chosen, event,
    )
}
