//! A stay that adds one item.
ghost use Rattle.std.specs.Prelude.{◌≡◌, ◌≢◌, ℕ, ◌<◌, ◌≤◌, ◌++◌, [], ◌∷◌, All, List, false, if◌then◌else◌, length, take};
ghost use Rattle.am_places.specs.Seats.{pass_of, table_in};
ghost use Rattle.am_places_stays.specs.Stays.{IsWaiting, KeepsBeginnings, SameSeat, added_at};

use crate::stays::{enter, leave};
use am_places::{Book, Places, Seat};

/// A book to which one item can be added.
///
/// ```
/// impl Grow for Notes {
///     fn add(&mut self, line: u32) -> bool {
///         self.lines.len() < u32::MAX as usize && self.lines.push(line).is_ok()
///     }
/// }
/// ```
pub trait Grow: Book {
    ghost use Rattle.std.specs.Prelude.{◌≡◌, ◌++◌, [], ◌∷◌, if◌then◌else◌};

    /// Adds the item last, where there is room and memory for it: whether it did. Nothing else of the book changes.
    fn add(&mut self, item: Self::Item) -> bool
        ensures birth { Self.birth self.new ≡ Self.birth self.old }
        ensures place { Self.stands self.new ≡ Self.stands self.old }
        ensures added { Self.items self.new ≡ Self.items self.old ++ (if result then item ∷ [] else []) };
}

/// Adds one item to the book at this position, where no other seat is inside and the book takes it: whether it did.
///
/// ```
/// if write(&places, &mut seat, 0, 7) {
///     done += 1;
/// }
/// ```
pub fn write<B: Grow + Send + Drop>(
    places: &Places<B>,
    seat: &mut Seat<B>,
    at: usize,
    item: B::Item,
) -> bool
where
    B::Item: Drop,
    requires waiting { IsWaiting (table_in places.now) seat.old.token }
    requires at { at < places.now.count }
    requires still { B.moves item ≡ false }
    ensures seat { SameSeat (pass_of seat.old) (pass_of seat.new) }
    ensures waiting { IsWaiting (table_in places.now) seat.new.token }
    ensures added { added_at at (pass_of seat.new) ≡ added_at at (pass_of seat.old) ++ (if result then item ∷ [] else []) }
    ensures elsewhere { (k : ℕ) → k ≢ at → added_at k (pass_of seat.new) ≡ added_at k (pass_of seat.old) }
    ensures began { KeepsBeginnings (pass_of seat.old) (pass_of seat.new) }
{
    let Ok(mut entered) = enter(places, seat, at) else {
        return false;
    };
    let done = entered.book_mut().add(item);
    leave(places, seat, entered);
    done
}

/// The next of these items, of which the first so many were added, if there is one and `write` adds it: how many were added then.
fn write_next<B: Grow + Send + Drop>(
    places: &Places<B>,
    seat: &mut Seat<B>,
    at: usize,
    items: &[B::Item],
    done: usize,
) -> usize
where
    B::Item: Copy,
    requires waiting { IsWaiting (table_in places.now) seat.old.token }
    requires at { at < places.now.count }
    requires still { All (λ item. B.moves item ≡ false) items.now }
    requires done { done ≤ length items.now }
    ensures seat { SameSeat (pass_of seat.old) (pass_of seat.new) }
    ensures waiting { IsWaiting (table_in places.now) seat.new.token }
    ensures most { result ≤ length items.now }
    ensures added { (xs : List B.Item) → added_at at (pass_of seat.old) ≡ xs ++ take done items.now → added_at at (pass_of seat.new) ≡ xs ++ take result items.now }
    ensures elsewhere { (k : ℕ) → k ≢ at → added_at k (pass_of seat.new) ≡ added_at k (pass_of seat.old) }
    ensures began { KeepsBeginnings (pass_of seat.old) (pass_of seat.new) }
{
    if done == items.len() {
        return done;
    }
    if write(places, seat, at, items[done]) {
        done + 1
    } else {
        done
    }
}

/// Adds items to the book at this position, one after the other, as far as it comes in so many tries. The seat, and how many it
/// added.
///
/// ```
/// let (seat, done) = write_all(&places, seat, 0, &[10, 11, 12], 200);
/// ```
pub fn write_all<B: Grow + Send + Drop>(
    places: &Places<B>,
    seat: Seat<B>,
    at: usize,
    items: &[B::Item],
    tries: u32,
) -> (Seat<B>, usize)
where
    B::Item: Copy,
    requires waiting { IsWaiting (table_in places.now) seat.token }
    requires at { at < places.now.count }
    requires still { All (λ item. B.moves item ≡ false) items.now }
    ensures seat { SameSeat (pass_of seat) (pass_of result.0) }
    ensures waiting { IsWaiting (table_in places.now) result.0.token }
    ensures most { result.1 ≤ length items.now }
    ensures added { added_at at (pass_of result.0) ≡ added_at at (pass_of seat) ++ take result.1 items.now }
    ensures elsewhere { (k : ℕ) → k ≢ at → added_at k (pass_of result.0) ≡ added_at k (pass_of seat) }
    ensures began { KeepsBeginnings (pass_of seat) (pass_of result.0) }
{
    let mut seat = seat;
    let mut done = 0;
    for _try in 0..tries {
        done = write_next(places, &mut seat, at, items, done);
    }
    (seat, done)
}
