//! How the frames' claims follow a move.
ghost use Rattle.am_places.specs.Rule.{IsIn};
ghost use Rattle.am_places.specs.Seats.{SitsAt, StaysSeated, hand_of, me_of, pass_of};
ghost use Rattle.am_workers_laws.specs.Invariants.Drives.{with_frames};
ghost use Rattle.am_driver.specs.Turns.{CanSettle, SettlesAfter, frames_by, frames_of};
ghost use Rattle.std.specs.Prelude.{◌≡◌, ◌<◌};

use crate::turns::{DriverFault, DriverTurn};
use am_office_entries::Event;
use am_places::{Entered, Places, Seat};
use am_workers_laws::books::EndBook;

/// Claims the frame into which the endpoint in hand was loaded, and frees the one that it left.
fn settle_by(
    places: &Places<EndBook>,
    seat: &mut Seat<EndBook>,
    entered: &mut Entered<EndBook>,
    event: Event,
)
    requires seat { SitsAt places.now seat.old }
    requires driver { (pass_of seat.old).mark ≡ (pass_of seat.old).seats }
    requires inside { (entered.old.at < places.now.count) × IsIn entered.old.at (me_of seat.old) }
    requires can { CanSettle entered.old.at event entered.old.frame places.now.frames (pass_of seat.old).frames }
    ensures seat { StaysSeated seat.old seat.new }
    ensures book { (entered.new.at ≡ entered.old.at) × (entered.new.book ≡ entered.old.book) }
    ensures frames { me_of seat.new ≡ (with_frames (frames_by entered.old.at event entered.old.frame (pass_of seat.old).frames) (pass_of seat.old), hand_of seat.old) }
{
    match event {
        Event::Load { frame, .. } => match places.claim_frame(seat, entered, frame) {
            Ok(()) => {}
            Err(_) => unreachable!(),
        },
        Event::Unload { .. } => places.free_frame(seat, entered),
        _ => {}
    }
}

/// The same after a turn, where it made a move.
pub(crate) fn settle(
    places: &Places<EndBook>,
    seat: &mut Seat<EndBook>,
    entered: &mut Entered<EndBook>,
    turn: &Result<DriverTurn, DriverFault>,
)
    requires seat { SitsAt places.now seat.old }
    requires driver { (pass_of seat.old).mark ≡ (pass_of seat.old).seats }
    requires inside { (entered.old.at < places.now.count) × IsIn entered.old.at (me_of seat.old) }
    requires can { SettlesAfter entered.old.at turn.now entered.old.frame places.now.frames (pass_of seat.old).frames }
    ensures seat { StaysSeated seat.old seat.new }
    ensures book { (entered.new.at ≡ entered.old.at) × (entered.new.book ≡ entered.old.book) }
    ensures frames { me_of seat.new ≡ (with_frames (frames_of entered.old.at turn.now entered.old.frame (pass_of seat.old).frames) (pass_of seat.old), hand_of seat.old) }
{
    match turn {
        Ok(DriverTurn::Did(entry)) => settle_by(places, seat, entered, entry.event),
        _ => {}
    }
}
