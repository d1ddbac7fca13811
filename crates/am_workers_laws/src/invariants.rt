//! What each worker of a node keeps between its turns, as definitions: the turns are written over them, and so is what they come to
//! when the phase is over. Each law is the contract of a function with an empty body.

ghost use Rattle.am_workers_laws.specs.Invariants.Begins.{InterfacesBegin, ThreadsBegin};
ghost use Rattle.am_workers_laws.specs.Invariants.Drivers.{DriversGoOn, DriversLook, DriversRest, DriversWait};
ghost use Rattle.am_workers_laws.specs.Invariants.Drives.{CanWait, LooksKeep, MovesKeep};
ghost use Rattle.am_workers_laws.specs.Invariants.Keeps.{ThreadsGoOn};
ghost use Rattle.am_workers_laws.specs.Invariants.Receipts.{InterfacesGoOn};
ghost use Rattle.am_workers_laws.specs.Invariants.Seats.{SeatsStay};
ghost use Rattle.am_workers_laws.specs.Invariants.Stands.{AboveLast, FreshKnow, NoneKeep, StandsOn, StaysKeep};

/// What a seat has seen of a log stands in it whatever comes after.
pub fn what_stands_stays()
    ensures { StandsOn }
{}

/// A seat that was just made knows its node, where it made nothing.
pub fn fresh_seats_know_the_node()
    ensures { FreshKnow }
{}

/// A thread and an interface at a seat that was just made keep their works, with no turn made.
pub fn fresh_workers_begin()
    ensures threads { ThreadsBegin }
    ensures interfaces { InterfacesBegin }
{}

/// A seat that stayed at an endpoint knows its node again, with what it added there; and one that added nothing anywhere.
pub fn stays_keep_the_node()
    ensures stays { StaysKeep }
    ensures none { NoneKeep }
{}

/// A seat stays the same seat of the same endpoints, whether it was let in or not.
pub fn seats_stay_the_same()
    ensures { SeatsStay }
{}

/// A stamp above a log's last is above all of it.
pub fn the_last_is_highest()
    ensures { AboveLast }
{}

/// A thread that made an entry in its turn keeps what its worker keeps, with one turn more.
pub fn a_thread_goes_on()
    ensures { ThreadsGoOn }
{}

/// An interface that made an entry keeps what its worker keeps, with one turn more.
pub fn an_interface_goes_on()
    ensures { InterfacesGoOn }
{}

/// A driver that looked at an endpoint, one that made a move, and one that met another seat may drive on: its view, its frames and its disk are those of what
/// its seat has seen by then.
pub fn a_driver_may_drive_on()
    ensures looks { LooksKeep }
    ensures moves { MovesKeep }
    ensures waits { CanWait }
{}

/// A driver keeps what its worker keeps when it looked at an endpoint, with one turn more when it made a move, with one turn
/// more when it made none, and when it met another seat.
pub fn a_driver_goes_on()
    ensures looks { DriversLook }
    ensures moves { DriversGoOn }
    ensures rests { DriversRest }
    ensures waits { DriversWait }
{}
