//! The report of a journal against the text that is to be one.

ghost use Rattle.am_check.specs.Verdict.{difference, number_of};
ghost use Rattle.std.specs.Prelude.{◌≡◌};

use am_lexer::next_line;

/// The number of a line, which stands still at 2^32-1.
pub(crate) fn number_of(line: usize) -> u32
    ensures { result ≡ number_of line }
{
    if line < u32::MAX as usize {
        line as u32
    } else {
        u32::MAX
    }
}

/// The first line in which two texts differ, counted from 1; the last where all their lines are the same.
#[tactic(auto, unfolding(crate::specs::Verdict::difference_from))]
pub(crate) fn difference(bytes: &[u8], text: &[u8]) -> usize
    ensures { result ≡ difference bytes.now text.now }
{
    let mut same = 0;
    let mut rest = bytes;
    let mut others = text;
    while let Some((line, after)) = next_line(rest) {
        let Some((other, behind)) = next_line(others) else {
            return same + 1;
        };
        if line != other {
            return same + 1;
        }
        same += 1;
        rest = after;
        others = behind;
    }
    match next_line(others) {
        None => same,
        Some(_) => same + 1,
    }
}
