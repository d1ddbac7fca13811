//! The words of the table, and the books.
ghost use Rattle.am_places_stays.specs.Moments.Moments.{FrameWordsFitPlaces, FrameWordsNameOwners, FreeBooksLieThere, HoldersAreSeats, HoldersHaveSeenAll, HoldersSayTheyHold, Moment, OnlyTheDriverMoves};

use am_places::Book;

/// No seat but the driver's adds an item that moves.
pub fn only_the_driver_moves<B: Book>()
    ensures { (t : Moment B.items B.birth B.stands B.moves) → OnlyTheDriverMoves B.items B.birth B.stands B.moves t }
{}

/// Where a holder word is 0, the book lies at its endpoint, and is what the state word, the passes and all seats say.
pub fn free_books_lie_there<B: Book>()
    ensures { (t : Moment B.items B.birth B.stands B.moves) → FreeBooksLieThere B.items B.birth B.stands B.moves t }
{}

/// A seat is inside exactly where the holder word is its mark. It is there alone, and has seen all that anybody has seen.
pub fn holders_are_inside<B: Book>()
    ensures seen { (t : Moment B.items B.birth B.stands B.moves) → HoldersHaveSeenAll B.items B.birth B.stands B.moves t }
    ensures say { (t : Moment B.items B.birth B.stands B.moves) → HoldersSayTheyHold B.items B.birth B.stands B.moves t }
    ensures are { (t : Moment B.items B.birth B.stands B.moves) → HoldersAreSeats B.items B.birth B.stands B.moves t }
{}

/// A frame word names the endpoint that lies in the frame, and no other but one that the driver has in its hand.
pub fn frame_words_name_owners<B: Book>()
    ensures places { (t : Moment B.items B.birth B.stands B.moves) → FrameWordsFitPlaces B.items B.birth B.stands B.moves t }
    ensures owners { (t : Moment B.items B.birth B.stands B.moves) → FrameWordsNameOwners B.items B.birth B.stands B.moves t }
{}
