//! The end of the seats.
ghost use Rattle.std.specs.Prelude.{◌≡◌, ℕ, ◌+◌, ◌<◌, false, All, List, IfOk, length, map};
ghost use mathlib.Core.Option.{some};
ghost use lib.ListN.{get_elem?};
ghost use Rattle.am_places.specs.Rule.{Comes, HasGathered, IsOutside, inside_with, known_at, with_known};
ghost use Rattle.am_places.specs.Seats.{SitsAt, StaysSeated, hand_of, me_of, pass_of, table_in};
ghost use Rattle.am_places_stays.specs.Stays.{HasAll, HasBoth, IsWaiting, gathered_all};

use am_names::NoMemory;
use am_places::{Book, Places, Seat};
use std::alloc::Global;

/// The book at this position, where every other seat is gathered and nobody took it out before.
fn take_gathered<B: Book + Send + Drop>(places: &Places<B>, keeper: &mut Seat<B>, at: usize) -> B
    requires table { SitsAt places.now keeper.old }
    requires at { at < places.now.count }
    requires gathered { HasGathered (pass_of keeper.old) }
    requires outside { (known_at at (pass_of keeper.old)).inside ≡ false }
    ensures seat { StaysSeated keeper.old keeper.new }
    ensures book { (log : List _) × Comes B.items B.birth B.stands B.moves at (me_of keeper.old) log result × (pass_of keeper.new ≡ with_known at (inside_with (B.stands result) log (known_at at (pass_of keeper.old))) (pass_of keeper.old)) }
{
    match places.take_out_at(keeper, at) {
        Some(book) => book,
        None => unreachable!(),
    }
}

/// Every book, where every other seat is gathered and nobody took one out before.
fn take_all<B: Book + Send + Drop>(
    alloc: Global,
    places: &Places<B>,
    mut keeper: Seat<B>,
) -> Result<Vec<B>, NoMemory>
    requires table { SitsAt places.now keeper }
    requires gathered { HasGathered (pass_of keeper) }
    requires outside { IsOutside (pass_of keeper) }
    ensures many { IfOk result (λ books. length books.items ≡ places.now.count) }
    ensures each { IfOk result (λ books. (k : ℕ) (b : B) → get_elem? books.items k ≡ some b → (log : List _) × Comes B.items B.birth B.stands B.moves k (me_of keeper) log b) }
{
    let mut books = Vec::new(alloc);
    for at in 0..places.count {
        books.push(take_gathered(places, &mut keeper, at))?;
    }
    Ok(books)
}

/// The keeper gathers the others.
fn gather_all<B: Book + Send + Drop>(places: &Places<B>, keeper: &mut Seat<B>, others: Vec<Seat<B>>)
    requires table { SitsAt places.now keeper.old }
    requires others { All (λ s. IsWaiting (table_in places.now) s.token) others.items }
    ensures table { keeper.new.token.table_id ≡ keeper.old.token.table_id }
    ensures gathered { me_of keeper.new ≡ (gathered_all (pass_of keeper.old) (map (λ s. pass_of s) others.items), hand_of keeper.old) }
{
    for other in others {
        places.gather(keeper, other);
    }
}

/// The book at this position, for the last time, where its places had two seats and both wait. Its list is the one with which
/// it began, and then the items that each seat added, each once and in order.
///
/// ```
/// let (first, second) = join(&rt, || work(&places, first), || work(&places, second));
/// let notes = end_two(&places, second, first, 0);
/// ```
pub fn end_two<B: Book + Send + Drop>(
    places: &Places<B>,
    mut keeper: Seat<B>,
    other: Seat<B>,
    at: usize,
) -> B
    requires at { at < places.now.count }
    requires keeper { IsWaiting (table_in places.now) keeper.token }
    requires other { IsWaiting (table_in places.now) other.token }
    requires marks { ((pass_of keeper).mark ≡ 2) × ((pass_of keeper).seats ≡ 2) × ((pass_of other).mark ≡ 1) }
    ensures { HasBoth at (pass_of keeper) (pass_of other) (B.items result) }
{
    places.gather(&mut keeper, other);
    take_gathered(places, &mut keeper, at)
}

/// The same of every book: all of them, in the order in which the places were given them. Where there is no memory, the books
/// are dropped.
///
/// ```
/// let (first, second) = join(&rt, || work(&places, first), || work(&places, second));
/// for notes in end_all(alloc, &places, second, first)? {
///     print(notes);
/// }
/// ```
pub fn end_all<B: Book + Send + Drop>(
    alloc: Global,
    places: &Places<B>,
    mut keeper: Seat<B>,
    other: Seat<B>,
) -> Result<Vec<B>, NoMemory>
    requires keeper { IsWaiting (table_in places.now) keeper.token }
    requires other { IsWaiting (table_in places.now) other.token }
    requires marks { ((pass_of keeper).mark ≡ 2) × ((pass_of keeper).seats ≡ 2) × ((pass_of other).mark ≡ 1) }
    ensures many { IfOk result (λ books. length books.items ≡ places.now.count) }
    ensures each { IfOk result (λ books. (k : ℕ) (b : B) → get_elem? books.items k ≡ some b → HasBoth k (pass_of keeper) (pass_of other) (B.items b)) }
{
    places.gather(&mut keeper, other);
    let books = take_all(alloc, places, keeper)?;
    Ok(books)
}

/// Every book of places with any number of seats, all of which wait: the last one, and the others in the order of their numbers.
/// The books are in the order in which the places were given them. Where there is no memory, they are dropped.
///
/// ```
/// let (places, mut seats) = open(alloc, books, ids, 0, 3)?;
/// let Some(mut last) = seats.pop() else { return Ok(()) };
/// let _done = write(&places, &mut last, 0, 7);
/// let books = end_seats(alloc, &places, last, seats)?;
/// ```
pub fn end_seats<B: Book + Send + Drop>(
    alloc: Global,
    places: &Places<B>,
    mut last: Seat<B>,
    others: Vec<Seat<B>>,
) -> Result<Vec<B>, NoMemory>
    requires last { IsWaiting (table_in places.now) last.token }
    requires others { (k : ℕ) (s : _) → get_elem? others.items k ≡ some s → IsWaiting (table_in places.now) s.token × ((pass_of s).mark ≡ k + 1) }
    requires marks { ((pass_of last).mark ≡ length others.items + 1) × ((pass_of last).seats ≡ length others.items + 1) }
    ensures many { IfOk result (λ books. length books.items ≡ places.now.count) }
    ensures each { IfOk result (λ books. (k : ℕ) (b : B) → get_elem? books.items k ≡ some b → HasAll k (pass_of last) (map (λ s. pass_of s) others.items) (B.items b)) }
{
    gather_all(places, &mut last, others);
    let books = take_all(alloc, places, last)?;
    Ok(books)
}
