//! A piece of a block, and the words of a request that carry it.

use crate::bytes::word_at;
use am_names::Words;

/// A part of a block, as the words of a request carry it.
#[derive(Clone, Copy, PartialEq, Eq)]
pub struct Piece {
    /// The transfer that it is of, by its place among the scenario's transfers, from 1.
    pub transfer: u32,
    /// The place in the segment where its first byte belongs, 0 to 65,535.
    pub offset: u32,
    /// How many bytes it has, 1 to 24.
    pub len: u8,
    /// Its bytes in order, and zeros after them.
    pub bytes: [u8; 24],
}

impl Piece {
    ghost use Rattle.std.specs.Prelude.{◌≡◌, ◌<◌};
    ghost use Rattle.am_segment_pieces.specs.Pieces.{words_of};

    /// The words that carry the piece.
    #[tactic(auto, unfolding(crate::specs::Pieces::words_of))]
    pub fn words(&self) -> Words
        requires { self.now.offset < 65536 }
        ensures { result ≡ words_of self.now }
    {
        Words {
            a: u64::from(self.offset)
                + 65_536 * u64::from(self.len)
                + 0x1_0000_0000 * u64::from(self.transfer),
            b: word_at(&self.bytes, 0),
            c: word_at(&self.bytes, 8),
            d: word_at(&self.bytes, 16),
        }
    }
}
