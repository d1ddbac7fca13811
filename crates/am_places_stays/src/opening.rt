//! Places and their seats, at the start.
ghost use Rattle.std.specs.Prelude.{◌≡◌, ℕ, ◌<◌, ◌≤◌, ◌^◌, IfOk, length};
ghost use mathlib.Core.Option.{some};
ghost use lib.ListN.{get_elem?};
ghost use Rattle.am_places.specs.Seats.{table_in};
ghost use Rattle.am_places_stays.specs.Stays.{IsNew};

use am_names::{EndpointId, NoMemory};
use am_places::{Book, Places, Seat};
use std::alloc::Global;

/// Places for these books, each at the endpoint with the same index, and so many seats, numbered from 0 in the order of the list.
/// The last one is the driver's. Each waits, has added nothing, and has seen with what list each book began. Where there is no
/// memory, the books are dropped.
///
/// ```
/// let books = vec![in alloc; Notes::new(alloc)]?;
/// let ids = vec![in alloc; EndpointId(0)]?;
/// let (places, mut seats) = open(alloc, books, ids, 0, 3)?;
/// ```
pub fn open<B: Book + Send + Drop>(
    alloc: Global,
    books: Vec<B>,
    ids: Vec<EndpointId>,
    frames: u8,
    seats: u8,
) -> Result<(Places<B>, Vec<Seat<B>>), NoMemory>
    requires ids { length ids.items ≡ length books.items }
    requires few { (length books.items < 2 ^ 32) × (frames ≤ 16) }
    requires seats { 0 < seats }
    requires homely { (k : ℕ) (b : B) → get_elem? books.items k ≡ some b → B.stands b < 2 }
    ensures places { IfOk result (λ r. (r.0.ids.items ≡ ids.items) × (r.0.count ≡ length books.items) × (r.0.frames ≡ frames)) }
    ensures many { IfOk result (λ r. length r.1.items ≡ seats) }
    ensures seats { IfOk result (λ r. (k : ℕ) (s : _) → get_elem? r.1.items k ≡ some s → IsNew B.items (table_in r.0) books.items k seats frames s.token) }
{
    let (places, list) = Places::new(alloc, books, ids, frames, seats)?;
    Ok((places, list))
}

/// The same with two seats: the first, and then the last, which is the driver's.
pub fn open_two<B: Book + Send + Drop>(
    alloc: Global,
    books: Vec<B>,
    ids: Vec<EndpointId>,
    frames: u8,
) -> Result<(Places<B>, Seat<B>, Seat<B>), NoMemory>
    requires ids { length ids.items ≡ length books.items }
    requires few { (length books.items < 2 ^ 32) × (frames ≤ 16) }
    requires homely { (k : ℕ) (b : B) → get_elem? books.items k ≡ some b → B.stands b < 2 }
    ensures places { IfOk result (λ r. (r.0.ids.items ≡ ids.items) × (r.0.count ≡ length books.items) × (r.0.frames ≡ frames)) }
    ensures first { IfOk result (λ r. IsNew B.items (table_in r.0) books.items 0 2 frames r.1.token) }
    ensures second { IfOk result (λ r. IsNew B.items (table_in r.0) books.items 1 2 frames r.2.token) }
{
    let (places, mut seats) = open(alloc, books, ids, frames, 2)?;
    let Some(second) = seats.pop() else {
        unreachable!()
    };
    let Some(first) = seats.pop() else {
        unreachable!()
    };
    Ok((places, first, second))
}
