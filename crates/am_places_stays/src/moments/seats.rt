//! The marks of seats, and the tenures under them.
ghost use Rattle.am_places_stays.specs.Moments.Moments.{Moment};
ghost use Rattle.am_places_stays.specs.Moments.Seats.{GatheredSeatsAreGone, KeepersHaveTheTenures, MarksAreFew, NoneBeforeItIsMade, OthersHaveNone, SeatsDiffer};

use am_places::Book;

/// Two seats have two marks, which are at most the number of seats. A mark is not there before its seat is made, and no other seat
/// has it once its own is gathered.
pub fn marks_are_seats<B: Book>()
    ensures differ { (t : Moment B.items B.birth B.stands B.moves) → SeatsDiffer B.items B.birth B.stands B.moves t }
    ensures few { (t : Moment B.items B.birth B.stands B.moves) → MarksAreFew B.items B.birth B.stands B.moves t }
    ensures before { (t : Moment B.items B.birth B.stands B.moves) → NoneBeforeItIsMade B.items B.birth B.stands B.moves t }
    ensures gone { (t : Moment B.items B.birth B.stands B.moves) → GatheredSeatsAreGone B.items B.birth B.stands B.moves t }
{}

/// The tenures of a mark are kept in one pass, and what anybody has seen of them is a beginning of these.
pub fn tenures_are_kept<B: Book>()
    ensures keepers { (t : Moment B.items B.birth B.stands B.moves) → KeepersHaveTheTenures B.items B.birth B.stands B.moves t }
    ensures others { (t : Moment B.items B.birth B.stands B.moves) → OthersHaveNone B.items B.birth B.stands B.moves t }
{}
