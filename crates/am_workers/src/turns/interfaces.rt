//! The turn of an interface with an endpoint of its node.
ghost use Rattle.am_endpoint_body.specs.declared.settings.EndSettings.{EndSettings};
ghost use Rattle.am_iface.specs.Settings.{AreLawful};
ghost use Rattle.am_iface.specs.View.{FitsInterface, own};
ghost use Rattle.am_model_parts.specs.Interface.{needs};
ghost use Rattle.am_workers_laws.specs.Invariants.Seats.{IsIdle};
ghost use Rattle.am_workers.specs.Turns.Turns.{InterfaceTurns};
ghost use Rattle.std.specs.Prelude.{◌≡◌, ◌≢◌, ◌<◌, Some};
ghost use lib.ListN.{get_elem?};
ghost use mathlib.Core.Option.{some};
ghost use Rattle.am_places.specs.Seats.{pass_of, table_in};

use crate::turns::turns::InterfaceTurn;
use crate::turns::works::work_at;
use am_iface::{IfaceSettings, Interface, Work};
use am_places::{Entered, Places, Seat};
use am_workers_laws::books::EndBook;
use am_workers_laws::phases::places_are_kept;

/// A turn of an interface whose work touches the endpoint at this place.
pub fn interface_turn(
    places: &Places<EndBook>,
    seat: &mut Seat<EndBook>,
    at: usize,
    interface: &mut Interface,
    set: &IfaceSettings,
    work: &Work,
) -> InterfaceTurn
    requires idle { IsIdle (table_in places.now) seat.old.token }
    requires at { at < places.now.count }
    requires guest { (pass_of seat.old).mark ≢ (pass_of seat.old).seats }
    requires lawful { AreLawful set.now }
    requires set { set.now ≡ interface.old.settings }
    requires fits { FitsInterface interface.old work.now }
    requires needs { (set : EndSettings) → get_elem? (pass_of seat.old).births at ≡ some set → needs (own interface.old) work.now ≡ Some set.id }
    ensures idle { IsIdle (table_in places.now) seat.new.token }
    ensures turn { InterfaceTurns at work.now interface.old interface.new (pass_of seat.old) (pass_of seat.new) result }
{
    match places.try_enter_at(seat, at) {
        Ok(entered) => {
            places_are_kept();
            let Entered {
                mut book,
                at: place,
                frame,
            } = entered;
            let turn = work_at(interface, set, work, &mut book);
            places.leave(
                seat,
                Entered {
                    book,
                    at: place,
                    frame,
                },
            );
            turn
        }
        Err(busy) => InterfaceTurn::Busy {
            holder: busy.holder,
        },
    }
}
