//! A small book: lines, in the order in which they were added, and a place.
ghost use Rattle.am_places.specs.Codes.{place_code};
ghost use Rattle.std.specs.Prelude.{◌≡◌, ◌<◌, ◌^◌, [], false, length};

use am_office_entries::Place;
use am_places::Book;
use am_places_stays::Grow;
use std::alloc::Global;

/// Lines, each a number, in the order in which they were added.
#[derive(Drop)]
pub struct Notes {
    pub lines: Vec<u32>,
    pub place: Place,
    ghost few: { length lines.items < 2 ^ 32 },
}

impl Book for Notes {
    type Item = u32;

    type Birth = ();

    ghost items = { λ notes. notes.lines.items };

    ghost birth = { λ _. tt };

    ghost stands = { λ notes. place_code notes.place };

    ghost moves = { λ _. false };

    fn count(&self) -> u32 {
        self.lines.len() as u32
    }

    fn place(&self) -> Place {
        self.place
    }
}

impl Notes {
    /// No lines, on the host.
    pub fn new(alloc: Global) -> Notes
        ensures { (result.lines.items ≡ []) × (place_code result.place ≡ 0) }
    {
        Notes {
            lines: Vec::new(alloc),
            place: Place::Host,
        }
    }
}

impl Grow for Notes {
    fn add(&mut self, line: u32) -> bool {
        if self.lines.len() >= u32::MAX as usize {
            return false;
        }
        self.lines.push(line).is_ok()
    }
}
