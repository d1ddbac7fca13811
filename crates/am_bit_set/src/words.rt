//! The bits of a word, and of words in a row.

ghost use Rattle.am_bit_set.specs.Bits.{IsNext, bit_in};
ghost use Rattle.std.specs.Int.{bit_at};
ghost use Rattle.std.specs.Prelude.{◌≡◌, ◌≢◌, ℕ, ◌*◌, ◌<◌, IfSome, cond, length};

/// The word with a bit.
fn with_bit(word: u64, bit: u32) -> u64
    requires { bit < 64 }
    ensures here { bit_at result bit ≡ 1 }
    ensures others { (i : ℕ) → i < 64 → i ≢ bit → bit_at result i ≡ bit_at word i }
{
    word | (1 << bit)
}

/// The word without a bit.
fn without_bit(word: u64, bit: u32) -> u64
    requires { bit < 64 }
    ensures here { bit_at result bit ≡ 0 }
    ensures others { (i : ℕ) → i < 64 → i ≢ bit → bit_at result i ≡ bit_at word i }
{
    word & !(1 << bit)
}

/// The word where a bit of it is as this says.
pub(crate) fn put_bit(word: u64, bit: u32, set: bool) -> u64
    requires { bit < 64 }
    ensures here { bit_at result bit ≡ cond set 1 0 }
    ensures others { (i : ℕ) → i < 64 → i ≢ bit → bit_at result i ≡ bit_at word i }
{
    if set {
        with_bit(word, bit)
    } else {
        without_bit(word, bit)
    }
}

/// The least bit of a word at or behind a place.
fn next_bit(word: u64, from: u32) -> Option<u32>
    requires { from < 64 }
    ensures next { IsNext (bit_at word) from result }
    ensures within { IfSome result (λ bit. bit < 64) }
{
    let left = word >> from;
    if left == 0 {
        None
    } else {
        Some(from + left.trailing_zeros())
    }
}

/// The least bit of four words at or behind the beginning of a word.
fn next_behind(words: &[u64; 4], first: usize) -> Option<usize>
    requires { length words.now ≡ 4 }
    ensures { IsNext (bit_in words.now) (64 * first) result }
{
    for index in first..4 {
        if let Some(bit) = next_bit(words[index], 0) {
            return Some(64 * index + bit as usize);
        }
    }
    None
}

/// The least bit of four words at or behind a place.
pub(crate) fn next_in(words: &[u64; 4], from: usize) -> Option<usize>
    requires { length words.now ≡ 4 }
    ensures { IsNext (bit_in words.now) from result }
{
    let first = from / 64;
    if first >= 4 {
        return None;
    }
    match next_bit(words[first], (from % 64) as u32) {
        Some(bit) => Some(64 * first + bit as usize),
        None => next_behind(words, first + 1),
    }
}
