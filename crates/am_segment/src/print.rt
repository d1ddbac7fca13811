//! What is printed of segments and transfers.

ghost use Rattle.std.specs.Prelude.{◌≡◌, ◌≤◌, ◌<◌, ◌*◌, ◌==◌, ◌++◌, ◌^◌, OnOk, IfOk, drop, find, length, take};
ghost use Rattle.std.specs.List.{flat_map};
ghost use Rattle.am_segment.specs.Hex.{digits_of};
ghost use Rattle.am_segment.specs.Printed.{bytes_part, part_of, parts_below, row_of, segment_part, segments_text, transfer_line};
ghost use Rattle.am_segment_pieces.specs.Segments.{segment_bytes};

use crate::expansion::Expanded;
use crate::hex::put_byte;
use am_office_entries::NoMemory;
use am_office_entries::logged::LoggedJournal;
use am_office_text::LinePiece::Text;
use am_office_text::{count, put_end, put_line, small};
use am_segment_pieces::{SegmentLine, TransferRan, segment_bytes, transfers_ran};
use std::alloc::{AllocError, Global};

fn put_bytes(out: &mut Vec<u8>, bytes: &[u8]) -> Result<(), AllocError>
    ensures { OnOk result (out.new.items ≡ out.old.items ++ flat_map digits_of bytes.now) }
{
    for byte in bytes {
        put_byte(out, *byte)?;
    }
    Ok(())
}

// The row of bytes with this number, counted from 0.
fn row(bytes: &[u8], number: usize) -> &[u8]
    requires { 32 * number ≤ length bytes.now }
    ensures { result.now ≡ take 32 (drop (32 * number) bytes.now) }
{
    let start = 32 * number;
    let end = (start + 32).min(bytes.len());
    &bytes[start..end]
}

// Appends a row of bytes, and its end.
#[tactic(auto, using(std::proofs::Common::append_assoc))]
fn put_row(out: &mut Vec<u8>, row: &[u8]) -> Result<(), AllocError>
    ensures { OnOk result (out.new.items ≡ out.old.items ++ row_of row.now) }
{
    put_bytes(out, row)?;
    put_end(out)
}

// Appends bytes, 32 in a row.
fn put_rows(out: &mut Vec<u8>, bytes: &[u8]) -> Result<(), AllocError>
    ensures { OnOk result (out.new.items ≡ out.old.items ++ bytes_part bytes.now) }
{
    for number in 0..bytes.len().div_ceil(32) {
        put_row(out, row(bytes, number))?;
    }
    Ok(())
}

// Appends a segment and its bytes.
#[tactic(auto, using(std::proofs::Common::append_assoc), unfolding(crate::specs::Printed::segment_part))]
fn put_segment(
    alloc: Global,
    out: &mut Vec<u8>,
    journal: &LoggedJournal,
    segment: &SegmentLine,
) -> Result<(), NoMemory>
    ensures { OnOk result (out.new.items ≡ out.old.items ++ segment_part journal.now segment.now) }
{
    let (end, handler) = (small(segment.end.0), small(segment.handler));
    let bytes = segment_bytes(alloc, journal, segment)?;
    put_line(out, "segment", &[end, handler, count(segment.size)])?;
    put_rows(out, &bytes)?;
    Ok(())
}

// The segment of the endpoint with this number.
fn segment_of(segments: &[SegmentLine], end: u8) -> Option<SegmentLine>
    ensures { result ≡ find (λ s. s.end.0 == end) segments.now }
{
    segments
        .iter()
        .copied()
        .find(|segment| segment.end.0 == end)
}

// Appends a segment, if there is one.
fn put_part(
    alloc: Global,
    out: &mut Vec<u8>,
    journal: &LoggedJournal,
    segment: Option<SegmentLine>,
) -> Result<(), NoMemory>
    ensures { OnOk result (out.new.items ≡ out.old.items ++ part_of journal.now segment) }
{
    match segment {
        Some(segment) => put_segment(alloc, out, journal, &segment),
        None => Ok(()),
    }
}

#[tactic(auto, unfolding(crate::specs::Printed::transfer_line))]
fn put_transfer(out: &mut Vec<u8>, row: TransferRan) -> Result<(), AllocError>
    ensures { OnOk result (out.new.items ≡ out.old.items ++ transfer_line row) }
{
    let (number, ran, pieces) = (count(row.number), count(row.ran), count(row.pieces));
    put_line(
        out,
        "transfer",
        &[number, Text("ran"), ran, Text("of"), pieces],
    )
}

fn put_transfers(out: &mut Vec<u8>, rows: &[TransferRan]) -> Result<(), AllocError>
    ensures { OnOk result (out.new.items ≡ out.old.items ++ flat_map transfer_line rows.now) }
{
    for row in rows {
        put_transfer(out, *row)?;
    }
    Ok(())
}

// Appends the segments, in ascending order of endpoint.
fn put_segments(
    alloc: Global,
    out: &mut Vec<u8>,
    journal: &LoggedJournal,
    segments: &[SegmentLine],
) -> Result<(), NoMemory>
    ensures { OnOk result (out.new.items ≡ out.old.items ++ parts_below journal.now segments.now 256) }
{
    for end in 0..256u32 {
        put_part(alloc, out, journal, segment_of(segments, end as u8))?;
    }
    Ok(())
}

/// What is printed of the segments and transfers of a run: for each segment, in ascending order of endpoint, a line and its bytes,
/// and for each transfer how many of its pieces ran. `NoMemory` leaves all as it is.
#[tactic(auto, unfolding(crate::specs::Printed::segments_text))]
pub fn segments_text(
    alloc: Global,
    expanded: &Expanded,
    journal: &LoggedJournal,
) -> Result<Vec<u8>, NoMemory>
    requires { length expanded.now.transfers < 2 ^ 32 }
    ensures { IfOk result (λ text. text.items ≡ segments_text expanded.now journal.now) }
{
    let rows = transfers_ran(alloc, journal, &expanded.segments, &expanded.transfers)?;
    let mut out = Vec::new(alloc);
    put_segments(alloc, &mut out, journal, &expanded.segments)?;
    put_transfers(&mut out, &rows)?;
    Ok(out)
}
