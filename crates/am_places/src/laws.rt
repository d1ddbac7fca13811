//! What the rule of the table, which holds between any two steps, says in plain words.
ghost use Rattle.am_places.specs.Laws.{ClaimsFitPlaces, FrameWordsAreClaims, FramesHoldOne, SeatsSeeOneHistory};

use crate::book::Book;

/// Two endpoints that lie at home are not in one frame.
pub fn frames_hold_one<B: Book>()
    ensures { FramesHoldOne B.items B.birth B.stands B.moves }
{}

/// Of what two seats have seen of an endpoint, one begins with the other.
pub fn seats_see_one_history<B: Book>()
    ensures { SeatsSeeOneHistory B.items B.birth B.stands B.moves }
{}

/// Each frame word names the endpoint for which the driver's pass has the frame claimed, and is 0 where there is none.
pub fn frame_words_are_claims<B: Book>()
    ensures { FrameWordsAreClaims B.items B.birth B.stands B.moves }
{}

/// While the driver is not inside, a frame is claimed for an endpoint exactly where the place in its state word is that frame.
pub fn claims_fit_places<B: Book>()
    ensures { ClaimsFitPlaces B.items B.birth B.stands B.moves }
{}
