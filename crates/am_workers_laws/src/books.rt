//! An endpoint as a book that changes hands between threads. It stands here in a struct of its own, since an impl of another
//! crate's trait must name a type of its crate, and since an endpoint tells neither that its limits are in range, nor that the
//! stamps of its log rise, nor that on disk its body stays what it is. Whoever enters it is told these.

ghost use Rattle.am_workers_laws.specs.Books.Books.{IsBook, book_prop, moves, stands_at};

mod stamps;

use am_endpoint::{EndSettings, Endpoint};
use am_office_entries::{Entry, Place};
use am_places::Book;
pub use stamps::{LAST, is_spent};

#[derive(Drop)]
pub struct EndBook {
    /// Behind a box, so that an enter and a leave move a pointer and not the endpoint's tables.
    pub end: Box<Endpoint>,
    ghost kept: { IsBook end.value } by { book_prop end.value },
}

impl Book for EndBook {
    type Item = Entry;

    type Birth = EndSettings;

    ghost items = { λ b. b.end.value.log };

    ghost birth = { λ b. b.end.value.settings };

    ghost stands = { λ b. stands_at b.end.value };

    ghost moves = { moves };

    fn count(&self) -> u32 {
        self.end.log().len() as u32
    }

    fn place(&self) -> Place {
        self.end.place()
    }
}
