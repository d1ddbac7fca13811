//! Numbers, as they are printed.

ghost use Rattle.am_lab_words.specs.Words.{has_no_leading_zero, printed_number};
ghost use Rattle.std.specs.Prelude.{◌≡◌};

use am_lexer::parse_number;

fn has_no_leading_zero(word: &[u8]) -> bool
    ensures { result ≡ has_no_leading_zero word.now }
{
    !matches!(word, [b'0', _, ..])
}

/// The number that is printed as this word: one of decimal digits without leading zeros, below 2^64.
#[tactic(auto, unfolding(crate::specs::Words::printed_number))]
pub(crate) fn printed_number(word: &[u8]) -> Option<u64>
    ensures { result ≡ printed_number word.now }
{
    if has_no_leading_zero(word) {
        parse_number(word)
    } else {
        None
    }
}
