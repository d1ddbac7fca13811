//! A list of lines that goes from hand to hand.

ghost use Rattle.std.specs.Prelude.{◌≡◌, ◌<◌, ◌^◌, [], false, length};

use am_office_entries::Place;
use am_places::Book;
use am_places_stays::Grow;
use std::alloc::Global;

/// Lines, each a number, in the order in which they were added.
#[derive(Drop)]
pub struct Tally {
    pub lines: Vec<u32>,
    ghost few: { length lines.items < 2 ^ 32 },
}

impl Tally {
    /// No lines.
    pub fn new(alloc: Global) -> Tally
        ensures { result.lines.items ≡ [] }
    {
        Tally {
            lines: Vec::new(alloc),
        }
    }
}

impl Book for Tally {
    type Item = u32;

    type Birth = ();

    ghost items = { λ tally. tally.lines.items };

    ghost birth = { λ _. tt };

    ghost stands = { λ _. 0 };

    ghost moves = { λ _. false };

    fn count(&self) -> u32 {
        self.lines.len() as u32
    }

    fn place(&self) -> Place {
        Place::Host
    }
}

impl Grow for Tally {
    fn add(&mut self, line: u32) -> bool {
        self.lines.len() < u32::MAX as usize && self.lines.push(line).is_ok()
    }
}
