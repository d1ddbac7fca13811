//! A stay of a seat at a book: it enters, changes the book, and leaves.
ghost use Rattle.std.specs.Prelude.{◌≡◌, ◌≢◌, ℕ, ◌<◌, ◌++◌, List, IfOk, MatchResult, drop, length};
ghost use Rattle.am_places.specs.Seats.{pass_of, table_in};
ghost use Rattle.am_places_stays.specs.Stays.{IsInside, IsWaiting, KeepsBeginnings, SameSeat, added_at, seen_at};

use am_places::{Book, Busy, Entered, Places, Seat};

/// The book at this position, where no seat is inside. The seat is then inside there alone, and has seen the whole list; or it
/// waits as before.
///
/// ```
/// if let Ok(mut entered) = enter(&places, &mut seat, 0) {
///     entered.book_mut().add(7);
///     leave(&places, &mut seat, entered);
/// }
/// ```
pub fn enter<B: Book + Send + Drop>(
    places: &Places<B>,
    seat: &mut Seat<B>,
    at: usize,
) -> Result<Entered<B>, Busy>
    requires waiting { IsWaiting (table_in places.now) seat.old.token }
    requires at { at < places.now.count }
    ensures seat { SameSeat (pass_of seat.old) (pass_of seat.new) }
    ensures stay { MatchResult result
        (λ e. (e.at ≡ at) × IsInside B.items B.birth B.stands B.moves (table_in places.now) at seat.new.token e.book)
        (λ _. IsWaiting (table_in places.now) seat.new.token) }
    ensures seen { IfOk result (λ e. seen_at at (pass_of seat.new) ≡ B.items e.book) }
    ensures added { (k : ℕ) → added_at k (pass_of seat.new) ≡ added_at k (pass_of seat.old) }
    ensures began { KeepsBeginnings (pass_of seat.old) (pass_of seat.new) }
{
    places.try_enter_at(seat, at)
}

/// Gives the book back. The seat has then added to it what is new in its list since it entered.
pub fn leave<B: Book + Send + Drop>(places: &Places<B>, seat: &mut Seat<B>, entered: Entered<B>)
    requires at { entered.at < places.now.count }
    requires inside { IsInside B.items B.birth B.stands B.moves (table_in places.now) entered.at seat.old.token entered.book }
    ensures seat { SameSeat (pass_of seat.old) (pass_of seat.new) }
    ensures waiting { IsWaiting (table_in places.now) seat.new.token }
    ensures added { added_at entered.at (pass_of seat.new) ≡ added_at entered.at (pass_of seat.old) ++ drop (length (seen_at entered.at (pass_of seat.old))) (B.items entered.book) }
    ensures elsewhere { (k : ℕ) → k ≢ entered.at → added_at k (pass_of seat.new) ≡ added_at k (pass_of seat.old) }
    ensures began { KeepsBeginnings (pass_of seat.old) (pass_of seat.new) }
{
    places.leave(seat, entered);
}
