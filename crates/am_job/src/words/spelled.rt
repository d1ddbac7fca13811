//! The word that four words carry.

ghost use Rattle.std.specs.Prelude.{◌≡◌, ◌≤◌, IfSome};
ghost use Rattle.std.specs.Option.{option_map};
ghost use Rattle.am_job.specs.Words.Codes.{word_in};
ghost use Rattle.am_job.specs.Words.Spelled.{spelled};

use am_names::Words;
use am_segment_pieces::{are_zero, bytes_in};

/// A word that four words carried.
#[derive(Clone, Copy)]
pub struct Spelled {
    /// How many bytes it has, 1 to 24.
    len: u8,
    /// Its bytes in order, and zeros after them.
    bytes: [u8; 24],
}

impl Spelled {
    ghost use Rattle.std.specs.Prelude.{◌≡◌, ◌≤◌};
    ghost use Rattle.am_job.specs.Words.Spelled.{spelled};

    /// Its bytes.
    pub fn as_bytes(&self) -> &[u8]
        requires { self.now.len ≤ 24 }
        ensures { result.now ≡ spelled self.now }
    {
        &self.bytes[..usize::from(self.len)]
    }
}

/// The word that four words carry, if they carry one: if the first is 1 to 24, and each byte of the others behind so many is 0.
#[tactic(auto, unfolding(crate::specs::Words::Codes::word_in))]
pub fn word_in(words: Words) -> Option<Spelled>
    ensures exact { option_map spelled result ≡ word_in words }
    ensures short { IfSome result (λ word. word.len ≤ 24) }
{
    let bytes = bytes_in(words);
    if 1 <= words.a && words.a <= 24 && are_zero(&bytes[words.a as usize..]) {
        Some(Spelled {
            len: words.a as u8,
            bytes,
        })
    } else {
        None
    }
}
