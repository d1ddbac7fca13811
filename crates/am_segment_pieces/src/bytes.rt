//! The 24 bytes that the last three words of a request carry.

ghost use Rattle.std.specs.Prelude.{◌≡◌, ◌<◌, ◌≤◌, ◌^◌, length};
ghost use Rattle.am_segment_pieces.specs.Blocks.{padded};
ghost use Rattle.am_segment_pieces.specs.Pieces.{are_zero, bytes_in, word_at};

use am_names::Words;

/// 24 bytes: these, and zeros after them.
pub fn padded(bytes: &[u8]) -> [u8; 24]
    requires { length bytes.now ≤ 24 }
    ensures { result ≡ padded bytes.now }
{
    let mut all = [0; 24];
    all[..bytes.len()].copy_from_slice(bytes);
    all
}

/// The word that eight bytes are, from this place, 0 to 16, the greatest byte first.
pub fn word_at(bytes: &[u8; 24], at: usize) -> u64
    requires { at ≤ 16 }
    ensures exact { result ≡ word_at bytes.now at }
    ensures small { result < 2 ^ 64 }
{
    u64::from_be_bytes([
        bytes[at],
        bytes[at + 1],
        bytes[at + 2],
        bytes[at + 3],
        bytes[at + 4],
        bytes[at + 5],
        bytes[at + 6],
        bytes[at + 7],
    ])
}

/// The bytes of the last three words, the greatest of each word first.
pub fn bytes_in(words: Words) -> [u8; 24]
    ensures { result ≡ bytes_in words }
{
    let mut bytes = [0; 24];
    bytes[..8].copy_from_slice(&words.b.to_be_bytes());
    bytes[8..16].copy_from_slice(&words.c.to_be_bytes());
    bytes[16..].copy_from_slice(&words.d.to_be_bytes());
    bytes
}

/// Whether each byte is 0.
pub fn are_zero(bytes: &[u8]) -> bool
    ensures { result ≡ are_zero bytes.now }
{
    bytes.iter().all(|byte| *byte == 0)
}
