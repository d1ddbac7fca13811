//! Stays of seats at books: places with what a seat knows carried along.
//!
//! `am_places` says of each call how it changes a seat's pass. Here are the same calls with the two facts that a seat keeps:
//! `IsWaiting` between two stays, and `IsInside` within one. `open` gives the places of some books and their seats, which wait (`open_two` where there are two).
//! `enter` takes a seat in, or leaves it waiting; `leave` gives the book back. For a book with an `add` of its own (`Grow`),
//! `write` is a stay that adds one item, and `write_all` makes such stays in a row. What a seat has added is told by `added_at`.
//! `end_two` gives a book of which two seats are done, `end_all` every book, and `end_seats` every book of any number of seats:
//! each has what each seat added, once and in order.
#![tactic(auto)]

mod ending;
pub mod moments;
mod opening;
mod stays;
mod writing;

pub use ending::{end_all, end_seats, end_two};
pub use opening::{open, open_two};
pub use stays::{enter, leave};
pub use writing::{Grow, write, write_all};
