//! Two threads that write into four books, and a frame.

ghost use Rattle.std.specs.Prelude.{◌≡◌, ℕ, ◌+◌, ◌-◌, ◌<◌, ◌≤◌, Contains, IfOk, IfSome, length};
ghost use mathlib.Core.Option.{some};
ghost use lib.ListN.{get_elem?};
ghost use Rattle.am_places.specs.Rule.{HasGathered};
ghost use Rattle.am_places.specs.Seats.{SitsAt, pass_of, table_in};
ghost use Rattle.am_parts_tests.specs.Places.Ids.{nine};
ghost use Rattle.am_places_stays.specs.Stays.{IsInside, IsWaiting};

use crate::places::notes::Notes;
use am_names::{EndpointId, NoMemory};
use am_office_entries::Place;
use am_places::{Book, Entered, Places, Seat, may_cross_threads};
use am_places_stays::{end_all, end_seats, enter, leave, open, write, write_all};
use std::alloc::Global;
use std::process::Abort;
use std::thread::join;

/// Places for four books of no lines, and this many seats, all of which wait.
fn four_books(
    alloc: Global,
    frames: u8,
    seats: u8,
) -> Result<(Places<Notes>, Vec<Seat<Notes>>), NoMemory>
    requires { (0 < seats) × (frames ≤ 16) }
    ensures places { IfOk result (λ r. (r.0.count ≡ 4) × (r.0.frames ≡ frames)) }
    ensures nine { IfOk result (λ r. Contains r.0.ids.items nine) }
    ensures many { IfOk result (λ r. length r.1.items ≡ seats) }
    ensures seats { IfOk result (λ r. (k : ℕ) (s : _) → get_elem? r.1.items k ≡ some s → IsWaiting (table_in r.0) s.token × ((pass_of s).mark ≡ k + 1) × ((pass_of s).seats ≡ seats) × (length (pass_of s).frames ≡ r.0.frames)) }
{
    let books = vec![in alloc;
        Notes::new(alloc),
        Notes::new(alloc),
        Notes::new(alloc),
        Notes::new(alloc),
    ]?;
    let ids = vec![in alloc;
        EndpointId(4),
        EndpointId(7),
        EndpointId(9),
        EndpointId(250),
    ]?;
    let (places, list) = open(alloc, books, ids, frames, seats)?;
    Ok((places, list))
}

/// The last seat of the list.
fn last_seat(places: &Places<Notes>, seats: u8, list: &mut Vec<Seat<Notes>>) -> Option<Seat<Notes>>
    requires { (k : ℕ) (s : _) → get_elem? list.old.items k ≡ some s → IsWaiting (table_in places.now) s.token × ((pass_of s).mark ≡ k + 1) × ((pass_of s).seats ≡ seats) × (length (pass_of s).frames ≡ places.now.frames) }
    ensures list { (k : ℕ) (s : _) → get_elem? list.new.items k ≡ some s → IsWaiting (table_in places.now) s.token × ((pass_of s).mark ≡ k + 1) × ((pass_of s).seats ≡ seats) × (length (pass_of s).frames ≡ places.now.frames) }
    ensures length { length list.new.items ≡ length list.old.items - 1 }
    ensures seat { IfSome result (λ s. IsWaiting (table_in places.now) s.token × ((pass_of s).mark ≡ length list.old.items) × ((pass_of s).seats ≡ seats) × (length (pass_of s).frames ≡ places.now.frames)) }
{
    let seat = list.pop()?;
    Some(seat)
}

/// Tries 1,000 times to add a line, at one book after the other: in each its lines are numbered from the first on. How many it added to
/// each.
fn work(places: &Places<Notes>, mut seat: Seat<Notes>, first: u32) -> (Seat<Notes>, [u32; 4])
    requires waiting { IsWaiting (table_in places.now) seat.token }
    requires four { places.now.count ≡ 4 }
    ensures seat { ((pass_of result.0).mark ≡ (pass_of seat).mark) × ((pass_of result.0).seats ≡ (pass_of seat).seats) }
    ensures waiting { IsWaiting (table_in places.now) result.0.token }
{
    let mut added = [0_u32; 4];
    for turn in 0..1000_usize {
        let at = turn % 4;
        if write(places, &mut seat, at, first.saturating_add(added[at])) {
            added[at] = added[at].saturating_add(1);
        }
    }
    (seat, added)
}

/// Whether a book has so many lines from 1000 on and so many from 2000 on, each once and in order.
fn has_both(lines: &[u32], ours: u32, theirs: u32) -> bool {
    let mut our_next = 1000_u32;
    let mut their_next = 2000_u32;
    for line in lines {
        if *line == our_next {
            our_next = our_next.saturating_add(1);
        } else if *line == their_next {
            their_next = their_next.saturating_add(1);
        } else {
            return false;
        }
    }
    our_next.saturating_sub(1000) == ours && their_next.saturating_sub(2000) == theirs
}

#[test]
fn each_seat_finds_its_lines(rt: HostRuntime) {
    let Ok((places, mut seats)) = four_books(rt.alloc(), 0, 2) else {
        rt.panic("no places")
    };
    let Some(second) = last_seat(&places, 2, &mut seats) else {
        rt.panic("no second seat")
    };
    let Some(first) = last_seat(&places, 2, &mut seats) else {
        rt.panic("no first seat")
    };
    let (second_ended, first_ended) = join(
        &rt,
        || work(&places, second, 1000),
        || work(&places, first, 2000),
    );
    let (keeper, ours) = second_ended;
    let (other, theirs) = first_ended;
    let books = end_all(rt.alloc(), &places, keeper, other).expect(&rt, "the books");
    for at in 0..4_usize {
        assert!(rt; has_both(books[at].lines.as_slice(), ours[at], theirs[at]));
    }
}

#[test]
fn one_of_three_adds(rt: HostRuntime) {
    let Ok((places, mut seats)) = four_books(rt.alloc(), 0, 3) else {
        rt.panic("no places")
    };
    let mut last = last_seat(&places, 3, &mut seats).expect(&rt, "the last seat");
    assert!(rt; write(&places, &mut last, 2, 7));
    let books = end_seats(rt.alloc(), &places, last, seats).expect(&rt, "the books");
    assert!(rt; books[2].lines.as_slice() == [7].as_slice() && books[3].lines.is_empty());
}

/// Puts a book on the host into frame 1, where no frame is claimed for it. For whom it is claimed, if it is for another.
fn take_frame_1(
    places: &Places<Notes>,
    driver: &mut Seat<Notes>,
    entered: &mut Entered<Notes>,
) -> Option<EndpointId>
    requires at { entered.old.at < places.now.count }
    requires driver { (pass_of driver.old).mark ≡ (pass_of driver.old).seats }
    requires frames { (1 < places.now.frames) × (length (pass_of driver.old).frames ≡ places.now.frames) }
    requires inside { IsInside ⟦<Notes as Book>⟧.items ⟦<Notes as Book>⟧.birth ⟦<Notes as Book>⟧.stands ⟦<Notes as Book>⟧.moves (table_in places.now) entered.old.at driver.old.token entered.old.book }
    ensures seat { ((pass_of driver.new).mark ≡ (pass_of driver.old).mark) × ((pass_of driver.new).seats ≡ (pass_of driver.old).seats) × (length (pass_of driver.new).frames ≡ length (pass_of driver.old).frames) }
    ensures inside { (entered.new.at ≡ entered.old.at) × IsInside ⟦<Notes as Book>⟧.items ⟦<Notes as Book>⟧.birth ⟦<Notes as Book>⟧.stands ⟦<Notes as Book>⟧.moves (table_in places.now) entered.old.at driver.new.token entered.new.book }
{
    let Place::Host = entered.book.place else {
        return None;
    };
    if entered.frame.is_some() {
        return None;
    }
    match places.claim_frame(driver, entered, 1) {
        Ok(()) => {
            entered.book.place = Place::Frame(1);
            None
        }
        Err(taken) => Some(taken.owner),
    }
}

/// Moves the book at this position into frame 1. For whom it is claimed, if it is for another.
fn load(places: &Places<Notes>, driver: &mut Seat<Notes>, at: usize) -> Option<EndpointId>
    requires waiting { IsWaiting (table_in places.now) driver.old.token }
    requires at { at < places.now.count }
    requires driver { (pass_of driver.old).mark ≡ (pass_of driver.old).seats }
    requires frames { (1 < places.now.frames) × (length (pass_of driver.old).frames ≡ places.now.frames) }
    ensures seat { ((pass_of driver.new).mark ≡ (pass_of driver.old).mark) × ((pass_of driver.new).seats ≡ (pass_of driver.old).seats) × (length (pass_of driver.new).frames ≡ length (pass_of driver.old).frames) }
    ensures waiting { IsWaiting (table_in places.now) driver.new.token }
{
    let Ok(mut entered) = enter(places, driver, at) else {
        return None;
    };
    let owner = take_frame_1(places, driver, &mut entered);
    leave(places, driver, entered);
    owner
}

/// The driver's seat gathers the other four.
fn gather_four(
    places: &Places<Notes>,
    driver: &mut Seat<Notes>,
    third: Seat<Notes>,
    second: Seat<Notes>,
    first: Seat<Notes>,
    zeroth: Seat<Notes>,
)
    requires driver { IsWaiting (table_in places.now) driver.old.token × ((pass_of driver.old).mark ≡ 5) × ((pass_of driver.old).seats ≡ 5) }
    requires third { IsWaiting (table_in places.now) third.token × ((pass_of third).mark ≡ 4) }
    requires second { IsWaiting (table_in places.now) second.token × ((pass_of second).mark ≡ 3) }
    requires first { IsWaiting (table_in places.now) first.token × ((pass_of first).mark ≡ 2) }
    requires zeroth { IsWaiting (table_in places.now) zeroth.token × ((pass_of zeroth).mark ≡ 1) }
    ensures table { SitsAt places.now driver.new }
    ensures gathered { HasGathered (pass_of driver.new) }
{
    places.gather(driver, third);
    places.gather(driver, second);
    places.gather(driver, first);
    places.gather(driver, zeroth);
}

#[test]
fn a_frame_has_one_owner(rt: HostRuntime) {
    let Ok((places, mut seats)) = four_books(rt.alloc(), 2, 5) else {
        rt.panic("no places")
    };
    let Some(mut driver) = last_seat(&places, 5, &mut seats) else {
        rt.panic("no seat 4")
    };
    let Some(mut third) = last_seat(&places, 5, &mut seats) else {
        rt.panic("no seat 3")
    };
    let Some(second) = last_seat(&places, 5, &mut seats) else {
        rt.panic("no seat 2")
    };
    assert!(rt; load(&places, &mut driver, 2).is_none());
    let (mut second, added) = write_all(&places, second, 2, &[1, 2, 3, 4, 5], 5);
    assert!(rt; added == 5);
    let Ok(held) = enter(&places, &mut third, 2) else {
        rt.panic("endpoint 9 is held")
    };
    may_cross_threads(&places, &third, &held);
    // its place word is the sum of its holder word, 4, and its state word
    let seen = places.look(&mut second, EndpointId(9));
    assert!(rt; seen.holder == Some(3) && seen.place == Place::Frame(1) && seen.count == 5);
    assert!(rt; 4 + 256 * 3 + 65536 * u64::from(seen.count) == 328452);
    match places.try_enter(&mut second, EndpointId(9)) {
        Ok(_entered) => rt.panic("endpoint 9 is free"),
        Err(busy) => assert!(rt; busy.holder == 3),
    }
    assert!(rt; load(&places, &mut driver, 0) == Some(EndpointId(9)));
    leave(&places, &mut third, held);
    let Some(first) = last_seat(&places, 5, &mut seats) else {
        rt.panic("no seat 1")
    };
    let Some(zeroth) = last_seat(&places, 5, &mut seats) else {
        rt.panic("no seat 0")
    };
    gather_four(&places, &mut driver, third, second, first, zeroth);
    let Some(book) = places.take_out(&mut driver, EndpointId(9)) else {
        rt.panic("no book")
    };
    assert!(rt; book.lines.as_slice() == [1, 2, 3, 4, 5].as_slice());
    assert!(rt; places.take_out(&mut driver, EndpointId(9)).is_none());
}
