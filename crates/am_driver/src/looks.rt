//! How a driver looks at the endpoints of its node.
ghost use Rattle.am_driver_moves.specs.Choice.Views as views;
ghost use Rattle.am_endpoint.specs.View.{state_after};
ghost use Rattle.am_workers_laws.specs.Invariants.Drives.{IsLook, LooksTo, with_line};
ghost use Rattle.am_workers_laws.specs.Invariants.Seats.{IsBusy, IsIdle};
ghost use Rattle.am_driver.specs.Turns.{MeetsSeat};
ghost use Rattle.std.specs.Prelude.{◌≡◌, ◌<◌, IfErr, OnOk, length};
ghost use Rattle.am_places.specs.Seats.{pass_of, table_in};

use am_driver_moves::choice::{EndView, View};
use am_endpoint::Endpoint;
use am_places::{Busy, Places, Seat};
use am_workers_laws::books::EndBook;

/// The line of an endpoint in a driver's view, as it is now.
pub fn line_of(end: &Endpoint) -> EndView
    ensures { result ≡ views.line_of end.now.settings.id (state_after end.now) }
{
    EndView {
        id: end.id(),
        place: end.place(),
        wanted: end.wanted(),
        draining: end.draining(),
        closed: end.closed(),
        in_flight: end.in_flight_len(),
    }
}

/// The line of the endpoint of this book.
pub(crate) fn line_in(book: &EndBook) -> EndView
    ensures { result ≡ views.line_of book.now.end.value.settings.id (state_after book.now.end.value) }
{
    line_of(&book.end)
}

/// Puts this line at its position.
pub(crate) fn show(view: &mut View, at: usize, line: EndView)
    requires { at < length view.old.ends }
    ensures { view.new ≡ with_line at line view.old }
{
    view.ends[at] = line;
}

/// Enters the endpoint at this position, corrects its line, and leaves it.
fn look(
    places: &Places<EndBook>,
    seat: &mut Seat<EndBook>,
    view: &mut View,
    at: usize,
) -> Result<(), Busy>
    requires idle { IsIdle (table_in places.now) seat.old.token }
    requires at { at < places.now.count }
    requires line { at < length view.old.ends }
    requires driver { (pass_of seat.old).mark ≡ (pass_of seat.old).seats }
    ensures idle { IsIdle (table_in places.now) seat.new.token }
    ensures driver { (pass_of seat.new).mark ≡ (pass_of seat.new).seats }
    ensures lines { length view.new.ends ≡ length view.old.ends }
    ensures looked { OnOk result (IsLook at view.old view.new (pass_of seat.old) (pass_of seat.new)) }
    ensures busy { IfErr result (λ b. IsBusy at b.holder (pass_of seat.old) (pass_of seat.new) × (view.new ≡ view.old)) }
{
    match places.try_enter_at(seat, at) {
        Ok(entered) => {
            show(view, at, line_in(&entered.book));
            places.leave(seat, entered);
            Ok(())
        }
        Err(busy) => Err(busy),
    }
}

/// Looks at each endpoint of the node, in order.
pub(crate) fn look_at_each(
    places: &Places<EndBook>,
    seat: &mut Seat<EndBook>,
    view: &mut View,
) -> Result<(), Busy>
    requires idle { IsIdle (table_in places.now) seat.old.token }
    requires count { places.now.count ≡ length view.old.ends }
    requires driver { (pass_of seat.old).mark ≡ (pass_of seat.old).seats }
    ensures idle { IsIdle (table_in places.now) seat.new.token }
    ensures looked { OnOk result (LooksTo (length view.old.ends) view.old view.new (pass_of seat.old) (pass_of seat.new)) }
    ensures busy { IfErr result (λ b. MeetsSeat b.holder view.old view.new (pass_of seat.old) (pass_of seat.new)) }
{
    for at in 0..places.count {
        look(places, seat, view, at)?;
    }
    Ok(())
}
