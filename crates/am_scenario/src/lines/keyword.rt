//! The test on keywords.

ghost use Rattle.std.specs.Prelude.{◌≡◌};
ghost use Rattle.std.specs.Str.{bytes_eq};

/// Whether a word is a keyword. It stands in its callers, where the keyword's length is known, so no loop is left.
#[inline(always)]
#[tactic(auto, using(crate::proofs::Keywords::other_length, crate::proofs::Keywords::other_byte, crate::proofs::Keywords::one_byte_more, crate::proofs::Keywords::same_bytes))]
pub fn is_word(word: &[u8], keyword: &[u8]) -> bool
    ensures { result ≡ bytes_eq word.now keyword.now }
{
    if word.len() != keyword.len() {
        return false;
    }
    for i in 0..keyword.len() {
        if word[i] != keyword[i] {
            return false;
        }
    }
    true
}
