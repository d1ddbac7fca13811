//! What may cross threads.
use crate::book::Book;
use crate::places::{Entered, Places, Seat};

fn may_be_shared<T: Sync>(_value: &T) {}

fn may_be_given<T: Send>(_value: &T) {}

/// Places may be shared between threads, and seats may be given to them, and books that were taken: this compiles.
pub fn may_cross_threads<B: Book + Send + Drop>(
    places: &Places<B>,
    seat: &Seat<B>,
    entered: &Entered<B>,
) {
    may_be_shared(places);
    may_be_given(seat);
    may_be_given(entered);
}
