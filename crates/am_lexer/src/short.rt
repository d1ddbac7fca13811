//! Numbers as most lines have them: behind one space, and short.

ghost use Rattle.std.specs.Prelude.{◌≡◌, IfSome, Ok};
ghost use Rattle.am_lexer.specs.Text.{words_of};
ghost use Rattle.am_lexer.specs.Fields.{number_at};

// The number that digits spell up to a space or the end of the text, and what stands behind it. None where that
// doesn't say all, as of a number of 19 digits and more.
#[inline(always)]
fn leading_number(text: &[u8]) -> Option<(u64, &[u8])>
    ensures { IfSome result (λ found. number_at (words_of text.now) ≡ Ok (found.0, words_of found.1.now)) }
{
    let mut number: u64 = 0;
    for i in 0..text.len() {
        let byte = text[i];
        if byte == b' ' && i > 0 {
            return Some((number, &text[i..]));
        }
        if !byte.is_ascii_digit() || number >= 1_000_000_000_000_000_000 {
            return None;
        }
        number = number * 10 + u64::from(byte - b'0');
    }
    if text.is_empty() {
        None
    } else {
        Some((number, &[]))
    }
}

/// The next word as a number, read at one look: where it is a short number behind at most one space.
#[inline(always)]
pub fn short_number(rest: &[u8]) -> Option<(u64, &[u8])>
    ensures { IfSome result (λ found. number_at (words_of rest.now) ≡ Ok (found.0, words_of found.1.now)) }
{
    if !rest.is_empty() && rest[0] == b' ' {
        leading_number(&rest[1..])
    } else {
        leading_number(rest)
    }
}
