//! What a driver does with an endpoint that it has entered.
ghost use Rattle.am_driver_moves.specs.Choice.Moves as rules;
ghost use Rattle.am_driver_moves.specs.Logs.{kept};
ghost use Rattle.am_driver_moves.specs.Moves.{CanMoveBy};
ghost use Rattle.am_workers_laws.specs.Invariants.Drives as drives;
ghost use Rattle.am_workers_laws.specs.Invariants.Drives.{line_by, with_line};
ghost use Rattle.am_driver.specs.Turns.{DecideFound, Follows, IsMadeFor, MakeFound, added_by};
ghost use Rattle.std.specs.Prelude.{◌≡◌, ◌↔◌, ◌<◌, ◌≤◌, ◌^◌, ◌++◌, IsTrue, length, max};

use crate::looks::{line_in, show};
use crate::turns::{DriverFault, DriverTurn};
use am_driver_moves::choice::{EndView, Move, View, next_move};
use am_driver_moves::make_move_on;
use am_endpoint::{EndFault, Endpoint};
use am_names::EndpointId;
use am_office_entries::Event;
use am_swap::Look;
use am_workers_laws::books::{EndBook, is_spent};
use std::alloc::Global;

/// The number of the endpoint of this book.
fn id_in(book: &EndBook) -> EndpointId
    ensures { result ≡ book.now.end.value.settings.id }
{
    book.end.id()
}

/// Makes the move of this event, unless the log is full or a stamp is spent.
fn make<S: Look>(
    alloc: Global,
    swap: &mut S,
    book: &mut EndBook,
    event: Event,
    clock: u64,
) -> Result<DriverTurn, DriverFault>
    requires can { CanMoveBy (S.device swap.old).held (kept book.old.end.value) event }
    ensures settings { book.new.end.value.settings ≡ book.old.end.value.settings }
    ensures added { book.new.end.value.log ≡ book.old.end.value.log ++ added_by result }
    ensures found { MakeFound clock event (S.device swap.old) (S.device swap.new) result book.old.end.value.settings book.old.end.value.log }
    ensures cause { IsMadeFor result (S.count swap.old) (S.count swap.new) }
{
    let end = &mut *book.end;
    match end.room() {
        Ok(()) => {}
        Err(EndFault::LogFull) => return Err(DriverFault::LogFull(end.id())),
        Err(EndFault::NoMemory) => return Err(DriverFault::NoMemory),
    }
    if is_spent(clock, end) {
        return Ok(DriverTurn::Spent(end.id()));
    }
    let stamp = 1 + clock.max(end.last_stamp());
    match make_move_on(alloc, swap, end, event, stamp) {
        Ok(entry) => Ok(DriverTurn::Did(entry)),
        Err(_) => Err(DriverFault::NoMemory),
    }
}

/// The endpoint that was drained last.
fn last_after(chosen: Move, last: Option<EndpointId>) -> Option<EndpointId>
    ensures { result ≡ drives.last_after chosen last }
{
    match chosen {
        Move::Drain(end) => Some(end),
        Move::Unload(_) | Move::Load(..) | Move::PageOut(_) | Move::PageIn(_) | Move::Nothing =>
            last,
    }
}

/// Whether the rules give this move.
fn is_still(view: &View, chosen: Move) -> bool
    ensures { IsTrue result ↔ (rules.next_move view.now ≡ chosen) }
{
    next_move(view) == chosen
}

/// Remembers the endpoint that was drained.
fn remember(view: &mut View, chosen: Move)
    ensures { view.new ≡ record view.old { last = drives.last_after chosen view.old.last } }
{
    view.last = last_after(chosen, view.last);
}

/// The view after the turn: where it made the move, with the line that the endpoint has now.
fn follow(
    view: &mut View,
    at: usize,
    line: EndView,
    chosen: Move,
    turn: &Result<DriverTurn, DriverFault>,
)
    requires { at < length view.old.ends }
    ensures { Follows at line chosen view.old view.new turn.now }
{
    match turn {
        Ok(DriverTurn::Did(_)) => {
            show(view, at, line);
            remember(view, chosen);
        }
        _ => {}
    }
}

/// Corrects the line of the endpoint at this position, and makes the move if the rules give it still.
pub(crate) fn decide<S: Look>(
    alloc: Global,
    swap: &mut S,
    view: &mut View,
    at: usize,
    book: &mut EndBook,
    chosen: Move,
    event: Event,
    clock: u64,
) -> Result<DriverTurn, DriverFault>
    requires line { at < length view.old.ends }
    requires chosen { chosen ≡ rules.next_move view.old }
    requires can { rules.next_move (with_line at (line_by book.old.end.value.settings book.old.end.value.log) view.old) ≡ rules.next_move view.old → CanMoveBy (S.device swap.old).held (kept book.old.end.value) event }
    ensures settings { book.new.end.value.settings ≡ book.old.end.value.settings }
    ensures added { book.new.end.value.log ≡ book.old.end.value.log ++ added_by result }
    ensures found { DecideFound at clock event view.old view.new (S.device swap.old) (S.device swap.new) result book.old.end.value.settings book.old.end.value.log }
    ensures cause { IsMadeFor result (S.count swap.old) (S.count swap.new) }
{
    show(view, at, line_in(book));
    if !is_still(view, chosen) {
        return Ok(DriverTurn::Stale(id_in(book)));
    }
    let turn = make(alloc, swap, book, event, clock);
    follow(view, at, line_in(book), chosen, &turn);
    turn
}
