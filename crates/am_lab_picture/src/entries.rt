//! The rows of a picture.

ghost use Rattle.std.specs.Prelude.{◌≡◌, ◌+◌, ◌≤◌, ◌<◌, ◌^◌, ◌++◌, IfOk, OnOk, length, map};
ghost use Rattle.am_lab_picture.specs.Rows as rows;
ghost use Rattle.am_lab_picture.specs.Rows.{entries_in};

use crate::abouts::{about_of, reply_of};
use crate::data::{Lines, Named, PlacedRow, Row};
use crate::journals::IndexedJournal;
use am_names::Serial;
use am_office_entries::Entry;
use std::alloc::{AllocError, Global};

/// A message with its fate, if there is one.
pub(crate) fn named_by(journal: &IndexedJournal, serial: Option<Serial>) -> Option<Named>
    ensures { result ≡ rows.named_by journal.now serial }
{
    match serial {
        Some(serial) => Some(Named {
            serial,
            fate: journal.fate(serial),
        }),
        None => None,
    }
}

fn row(journal: &IndexedJournal, entry: &Entry) -> Row
    ensures { result ≡ rows.row journal.now entry.now }
{
    Row {
        entry: *entry,
        about: named_by(journal, about_of(entry)),
        reply: named_by(journal, reply_of(entry)),
    }
}

/// The entries of some lines of the journal.
pub(crate) fn entries_in(journal: &IndexedJournal, lines: Lines) -> &[Entry]
    requires first { 3 ≤ lines.first }
    requires within { lines.first + lines.count ≤ length journal.now + 3 }
    ensures { result.now ≡ entries_in lines journal.now }
{
    let start = (lines.first - 3) as usize;
    &journal.entries()[start..start + lines.count as usize]
}

/// A row for each entry of some lines of the journal, in order (`rows` of specs/Rows). `AllocError` comes where there
/// is no memory for them.
pub fn rows(alloc: Global, journal: &IndexedJournal, lines: Lines) -> Result<Vec<Row>, AllocError>
    requires first { 3 ≤ lines.first }
    requires within { lines.first + lines.count ≤ length journal.now + 3 }
    ensures { IfOk result (λ made. made.items ≡ rows.rows lines journal.now) }
{
    let shown = entries_in(journal, lines);
    let mut made = Vec::new(alloc);
    for entry in shown {
        made.push(row(journal, entry))?;
    }
    Ok(made)
}

fn put_row(
    made: &mut Vec<PlacedRow>,
    journal: &IndexedJournal,
    line: u32,
    entry: &Entry,
) -> Result<(), AllocError>
    ensures { OnOk result (made.new.items ≡ made.old.items ++ rows.row_in journal.now line entry.now) }
{
    made.push(PlacedRow {
        line,
        row: row(journal, entry),
    })?;
    Ok(())
}

/// A row in its line for each entry of some lines of the journal, in order (`placed_rows` of specs/Rows). `AllocError`
/// comes where there is no memory for them.
pub fn placed_rows(
    alloc: Global,
    journal: &IndexedJournal,
    lines: Lines,
) -> Result<Vec<PlacedRow>, AllocError>
    requires few { length journal.now + 3 < 2 ^ 32 }
    requires first { 3 ≤ lines.first }
    requires within { lines.first + lines.count ≤ length journal.now + 3 }
    ensures { IfOk result (λ made. made.items ≡ rows.placed_rows lines journal.now) }
{
    let shown = entries_in(journal, lines);
    let mut made = Vec::new(alloc);
    let mut line = lines.first;
    for entry in shown {
        put_row(&mut made, journal, line, entry)?;
        line += 1;
    }
    Ok(made)
}
