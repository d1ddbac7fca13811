//! The lines of a report before those of its journal.

ghost use Rattle.am_check.specs.Verdict.{count_in, count_of};
ghost use Rattle.am_lexer.specs.Text.{lines_of};
ghost use Rattle.std.specs.Prelude.{◌≡◌, MatchOption, None, Some, drop};

use am_check_lines::printed_number;
use am_lexer::next_line;

/// The number of entries that a line tells.
#[tactic(auto, unfolding(crate::specs::Verdict::count_in))]
fn count_in(line: &[u8]) -> Option<u64>
    ensures { result ≡ count_in line.now }
{
    if line.starts_with(b"entries ") {
        printed_number(&line[8..])
    } else {
        None
    }
}

/// The number of entries that the second line of a report tells, and what stands behind it.
pub fn split_head(report: &[u8]) -> Option<(u64, &[u8])>
    ensures { MatchOption result (count_of (lines_of report.now) ≡ None) (λ found. (count_of (lines_of report.now) ≡ Some found.0) × (lines_of found.1.now ≡ drop 2 (lines_of report.now))) }
{
    let (_, rest) = next_line(report)?;
    let (line, rest) = next_line(rest)?;
    let count = count_in(line)?;
    Some((count, rest))
}
