//! What stands at every moment of a node's places, between any two steps of any threads: what the words say, where each book is, and
//! what the seats know. Each is a law over the rule that each step keeps, in words of its own. `am_places` has four more
//! (`seats_see_one_history`, `frames_hold_one`, `frame_words_are_claims`, `claims_fit_places`).

mod own;
mod seats;
mod words;

pub use own::own_tenures_are_seen;
pub use seats::{marks_are_seats, tenures_are_kept};
pub use words::{
    frame_words_name_owners, free_books_lie_there, holders_are_inside, only_the_driver_moves,
};
