//! The turn of an application thread at the endpoint of its next call.
ghost use Rattle.am_endpoint_body.specs.declared.settings.EndSettings.{EndSettings};
ghost use Rattle.am_workers_laws.specs.Invariants.Seats.{IsIdle};
ghost use Rattle.am_workers.specs.Turns.Turns.{ThreadTurns, clock_after};
ghost use Rattle.am_model.specs.Allowed.{are_numbers_in_range};
ghost use Rattle.std.specs.Prelude.{◌≡◌, ◌≢◌, ◌<◌, true};
ghost use lib.ListN.{get_elem?};
ghost use mathlib.Core.Option.{some};
ghost use Rattle.am_places.specs.Seats.{pass_of, table_in};

use crate::turns::calls::act;
use crate::turns::turns::ThreadTurn;
use am_office_entries::Call;
use am_places::{Entered, Places, Seat};
use am_workers_laws::books::EndBook;
use am_workers_laws::phases::places_are_kept;

/// The stamp of the thread's last entry after this turn.
fn clock_after(clock: u64, turn: &ThreadTurn) -> u64
    ensures { result ≡ clock_after clock turn.now }
{
    match turn {
        ThreadTurn::Made(entry) | ThreadTurn::Wanted(entry) => entry.stamp,
        ThreadTurn::Busy { .. }
        | ThreadTurn::Waits
        | ThreadTurn::Full
        | ThreadTurn::Spent
        | ThreadTurn::NoMemory => clock,
    }
}

/// A turn of an application thread at the endpoint of its next call: that call, or a want where the endpoint is on disk. Its clock
/// is the stamp of its last entry.
pub fn thread_turn(
    places: &Places<EndBook>,
    seat: &mut Seat<EndBook>,
    at: usize,
    thread: u8,
    call: Call,
    clock: &mut u64,
) -> ThreadTurn
    requires idle { IsIdle (table_in places.now) seat.old.token }
    requires at { at < places.now.count }
    requires guest { (pass_of seat.old).mark ≢ (pass_of seat.old).seats }
    requires numbers { (set : EndSettings) → get_elem? (pass_of seat.old).births at ≡ some set → are_numbers_in_range set.pool call ≡ true }
    ensures idle { IsIdle (table_in places.now) seat.new.token }
    ensures clock { clock.new ≡ clock_after clock.old result }
    ensures turn { ThreadTurns at thread call clock.old (pass_of seat.old) (pass_of seat.new) result }
{
    match places.try_enter_at(seat, at) {
        Ok(entered) => {
            places_are_kept();
            let Entered {
                mut book,
                at: place,
                frame,
            } = entered;
            let turn = act(&mut book, thread, call, *clock);
            places.leave(
                seat,
                Entered {
                    book,
                    at: place,
                    frame,
                },
            );
            *clock = clock_after(*clock, &turn);
            turn
        }
        Err(busy) => ThreadTurn::Busy {
            holder: busy.holder,
        },
    }
}
