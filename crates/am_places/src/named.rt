//! The same calls by the number of an endpoint.
ghost use Rattle.std.specs.Prelude.{◌≡◌, ℕ, ◌+◌, ◌<◌, ◌≤◌, ◌∷◌, true, List, Contains, None, IfNone, IfOk, IfErr, IfSome, position, slice_get, length};
ghost use Rattle.am_names.specs.Names.{same_end};
ghost use Rattle.am_places.specs.Codes.{frame_at, holder_code, place_code};
ghost use Rattle.am_places.specs.Rule.{AllWithin, Comes, HasGathered, Met, known_at, joined, holder_word, state_word, word_of, with_known, inside_with, read};
ghost use Rattle.am_places.specs.Seats.{SitsAt, StaysSeated, hand_of, me_of, pass_of};

use crate::book::Book;
use crate::places::{Busy, Entered, Places, Seat, Seen};
use am_names::EndpointId;

impl<B: Book + Send + Drop> Places<B> {
    /// The position of an endpoint: the first where its number stands. None where it is none of these.
    pub fn position(&self, end: EndpointId) -> Option<usize>
        ensures { result ≡ position (same_end end) self.now.ids.items }
    {
        self.ids.iter().position(|other| end.0 == other.0)
    }

    fn position_of(&self, end: EndpointId) -> usize
        requires { Contains self.now.ids.items end }
        ensures { slice_get self.now.ids.items result ≡ Some end }
    {
        match self.position(end) {
            Some(at) => at,
            None => unreachable!(),
        }
    }

    /// The book, where no seat is inside.
    ///
    /// ```
    /// if let Ok(entered) = places.try_enter(&mut seat, EndpointId(7)) {
    ///     places.leave(&mut seat, entered);
    /// }
    /// ```
    pub fn try_enter(&self, seat: &mut Seat<B>, end: EndpointId) -> Result<Entered<B>, Busy>
        requires seat { SitsAt self.now seat.old }
        requires known { Contains self.now.ids.items end }
        ensures seat { StaysSeated seat.old seat.new }
        ensures book { IfOk result (λ e. (log : List _) × (slice_get self.now.ids.items e.at ≡ Some end) × Comes B.items B.birth B.stands B.moves e.at (me_of seat.old) log e.book × (me_of seat.new ≡ (with_known e.at (inside_with (B.stands e.book) log (known_at e.at (pass_of seat.old))) (pass_of seat.old), (e.at, None) ∷ hand_of seat.old))) }
        ensures frame { IfOk result (λ e. e.frame ≡ frame_at (B.stands e.book)) }
        ensures busy { IfErr result (λ b. (at : ℕ) × (slice_get self.now.ids.items at ≡ Some end) × Met at (b.holder + 1) (pass_of seat.old) × (me_of seat.new ≡ (read (holder_word at) (b.holder + 1) (pass_of seat.old), hand_of seat.old))) }
    {
        let at = self.position_of(end);
        self.try_enter_at(seat, at)
    }

    /// What the two words of the endpoint say, the holder word read first.
    ///
    /// ```
    /// let length = places.look(&mut seat, EndpointId(7)).count;
    /// ```
    pub fn look(&self, seat: &mut Seat<B>, end: EndpointId) -> Seen
        requires seat { SitsAt self.now seat.old }
        requires known { Contains self.now.ids.items end }
        ensures seat { StaysSeated seat.old seat.new }
        ensures seen { (at : ℕ) × (slice_get self.now.ids.items at ≡ Some end)
            × (me_of seat.new ≡ (read (state_word at) (word_of (place_code result.place) result.count) (read (holder_word at) (holder_code result.holder) (pass_of seat.old)), hand_of seat.old))
            × (length (joined (known_at at (pass_of seat.old)).seen) ≤ result.count) × AllWithin result.count (known_at at (pass_of seat.old)).others }
        ensures holder { holder_code result.holder ≤ (pass_of seat.old).seats }
    {
        let at = self.position_of(end);
        self.look_at(seat, at)
    }

    /// The book, once, where every other seat is gathered. None where this seat took it out before.
    pub fn take_out(&self, seat: &mut Seat<B>, end: EndpointId) -> Option<B>
        requires seat { SitsAt self.now seat.old }
        requires known { Contains self.now.ids.items end }
        requires gathered { HasGathered (pass_of seat.old) }
        ensures seat { StaysSeated seat.old seat.new }
        ensures twice { IfNone result ((at : ℕ) × (slice_get self.now.ids.items at ≡ Some end) × ((known_at at (pass_of seat.old)).inside ≡ true) × (me_of seat.new ≡ (read (holder_word at) seat.old.mark (pass_of seat.old), hand_of seat.old))) }
        ensures book { IfSome result (λ b. (at : ℕ) × (log : List _) × (slice_get self.now.ids.items at ≡ Some end) × Comes B.items B.birth B.stands B.moves at (me_of seat.old) log b × (me_of seat.new ≡ (with_known at (inside_with (B.stands b) log (known_at at (pass_of seat.old))) (pass_of seat.old), (at, None) ∷ hand_of seat.old))) }
    {
        let at = self.position_of(end);
        self.take_out_at(seat, at)
    }
}
