//! The piece that the words of a request are.

ghost use Rattle.std.specs.Prelude.{◌≡◌, ◌≤◌, IfSome};
ghost use Rattle.am_segment_pieces.specs.Pieces.{piece_of};

use crate::bytes::{are_zero, bytes_in};
use crate::parts::Piece;
use am_names::Words;

/// The piece that the words of a request are, if they are one: if the length that the first word tells is 1 to 24, and each byte
/// behind so many is 0.
#[tactic(auto, unfolding(crate::specs::Pieces::piece_of))]
pub fn piece(words: Words) -> Option<Piece>
    ensures exact { result ≡ piece_of words }
    ensures short { IfSome result (λ piece. piece.len ≤ 24) }
{
    let len = words.a / 65_536 % 65_536;
    let bytes = bytes_in(words);
    if 1 <= len && len <= 24 && are_zero(&bytes[len as usize..]) {
        Some(Piece {
            transfer: (words.a / 0x1_0000_0000) as u32,
            offset: (words.a % 65_536) as u32,
            len: len as u8,
            bytes,
        })
    } else {
        None
    }
}
