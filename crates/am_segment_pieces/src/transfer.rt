//! A block that is to be written to a segment.

use crate::bytes::padded;
use crate::parts::Piece;
use am_names::EndpointId;
use std::marker::Model;

/// A block, and the place where it belongs. The block has 1 to 512 bytes, and ends at most at place 65,536.
#[derive(Drop)]
pub struct Transfer {
    /// The endpoint that has the segment.
    pub dest: EndpointId,
    /// The place of the first byte in the segment.
    pub offset: u32,
    /// The block, 1 to 512 bytes.
    pub bytes: Vec<u8>,
}

impl Model for Transfer {
    ghost use Rattle.am_segment_pieces.specs.Lists.{IsFitting, TransferLists};

    ghost Value = { TransferLists };

    ghost view = { λ t. record { dest = t.dest; offset = t.offset; bytes = t.bytes.items } };

    ghost invariant = { λ t. IsFitting (record { dest = t.dest; offset = t.offset; bytes = t.bytes.items }) };
}

impl Transfer {
    ghost use Rattle.std.specs.Prelude.{◌≡◌, ◌<◌, ◌+◌};
    ghost use Rattle.am_segment_pieces.specs.Blocks.{piece_at, piece_count};

    /// How many pieces the block is cut into, each of 24 bytes but the last.
    pub fn piece_count(&self) -> u32
        ensures { result ≡ piece_count self.now }
    {
        (self.bytes.len() as u32).div_ceil(24)
    }

    /// The piece with this number, counted from 0, of the transfer that has the other number.
    #[tactic(auto, unfolding(crate::specs::Blocks::piece_at))]
    pub fn piece_at(&self, transfer: u32, number: u32) -> Piece
        requires { number < piece_count self.now }
        ensures exact { result ≡ piece_at transfer self.now number }
        ensures place { result.offset < 65536 }
    {
        let start = 24 * (number as usize);
        let end = (start + 24).min(self.bytes.len());
        let bytes = &self.bytes[start..end];
        Piece {
            transfer,
            offset: self.offset + 24 * number,
            len: bytes.len() as u8,
            bytes: padded(bytes),
        }
    }
}
