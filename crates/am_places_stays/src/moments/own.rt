//! What a seat made, and what it has seen.
ghost use Rattle.am_places_stays.specs.Moments.Own.{EntersSeeTheirOwn, GathersSeeTheirOwn, LeavesSeeTheirOwn, NewSeatsSeeTheirOwn};

use am_places::Book;

/// A seat has seen all its own tenures: at first, and after each enter, leave and gather.
pub fn own_tenures_are_seen<B: Book>()
    ensures first { NewSeatsSeeTheirOwn B.items B.birth B.stands B.moves }
    ensures enters { EntersSeeTheirOwn B.items B.birth B.stands B.moves }
    ensures leaves { LeavesSeeTheirOwn B.items B.birth B.stands B.moves }
    ensures gathers { GathersSeeTheirOwn B.items B.birth B.stands B.moves }
{}
