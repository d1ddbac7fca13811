//! Rows, found by their lines.

ghost use Rattle.std.specs.Prelude.{◌≡◌, ◌≤◌, length};
ghost use Rattle.am_lab_picture.specs.Rows as rows;
ghost use Rattle.am_lab_picture.specs.Rows.{AreInOrder};

use crate::data::PlacedRow;

/// How many rows stand in front of a line (`rows_before` of specs/Rows).
pub(crate) fn rows_before(placed: &[PlacedRow], line: u64) -> usize
    requires { AreInOrder placed.now }
    ensures exact { result ≡ rows.rows_before placed.now line }
    ensures few { result ≤ length placed.now }
{
    placed.partition_point(|row| u64::from(row.line) < line)
}

/// Whether a row stands from a line on, and in front of another (`stands_between` of specs/Rows).
pub(crate) fn stands_between(placed: &[PlacedRow], from: u64, to: u64) -> bool
    requires { AreInOrder placed.now }
    ensures { result ≡ rows.stands_between placed.now from to }
{
    rows_before(placed, from) < rows_before(placed, to)
}

/// Whether a line has a row (`has_row` of specs/Rows).
pub(crate) fn has_row(placed: &[PlacedRow], line: u32) -> bool
    requires { AreInOrder placed.now }
    ensures { result ≡ rows.has_row placed.now line }
{
    let line = u64::from(line);
    stands_between(placed, line, line + 1)
}
