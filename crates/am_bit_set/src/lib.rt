//! Sets of places from 0 to 255, in which the least place behind another is found at once.
#![tactic(auto)]

ghost use Rattle.am_bit_set.specs.Places.{IsNextMark, is_marked};
ghost use Rattle.std.specs.Prelude.{◌≡◌, ℕ, ◌<◌, ◌==◌, false, if◌then◌else◌};

mod words;

use crate::words::{next_in, put_bit};

/// A set of places from 0 to 255. Contracts see it by `is_marked`, the test of whether a place is in it.
///
/// ```
/// let mut marks = BitSet::new();
/// marks.set(7, true);
/// let least = marks.next(0);
/// ```
#[derive(Drop)]
pub struct BitSet {
    words: [u64; 4],
}

impl BitSet {
    /// No place.
    pub fn new() -> BitSet
        ensures { (k : ℕ) → is_marked result k ≡ false }
    {
        BitSet { words: [0; 4] }
    }

    /// From now on a place is in the set exactly where this says so. The others stay.
    pub fn set(&mut self, place: usize, marked: bool)
        requires { place < 256 }
        ensures { (k : ℕ) → is_marked self.new k ≡ (if k == place then marked else is_marked self.old k) }
    {
        let word = self.words[place / 64];
        self.words[place / 64] = put_bit(word, (place % 64) as u32, marked);
    }

    /// The least place of the set at or behind a place. None exactly where there is none.
    pub fn next(&self, from: usize) -> Option<usize>
        ensures { IsNextMark self.now from result }
    {
        next_in(&self.words, from)
    }
}
