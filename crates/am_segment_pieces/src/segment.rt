//! A segment of an endpoint: the bytes that the runs of one handler wrote.

ghost use Rattle.std.specs.Prelude.{◌≡◌, ◌≤◌, ◌<◌, ◌+◌, ℕ, IfOk, IfSome, length, replicate, slice_index};
ghost use Rattle.am_office_entries.specs.Logged.Behind.{entries_behind};
ghost use Rattle.am_segment_pieces.specs.Segments.{after_write, byte_after, segment_bytes, words_run, written_by};

use crate::decode::piece;
use crate::parts::Piece;
use am_library_views::handler_run_of;
use am_names::{EndpointId, Words};
use am_office_entries::logged::LoggedJournal;
use am_office_entries::{Entry, NoMemory};
use std::alloc::Global;

/// A segment of an endpoint: the pieces that run one of its handlers are written there.
#[derive(Clone, Copy, PartialEq, Eq)]
pub struct SegmentLine {
    pub end: EndpointId,
    /// The handler, 1 to 15.
    pub handler: u8,
    /// How many bytes the segment has, 1 to 65,536.
    pub size: u32,
}

// The words with which an entry runs this handler of this endpoint, if it does.
fn words_run(end: EndpointId, handler: u8, entry: &Entry) -> Option<Words>
    ensures { result ≡ words_run end handler entry.now }
{
    match handler_run_of(entry) {
        Some(run) if run.end.0 == end.0 && run.handler == handler => Some(run.words),
        _ => None,
    }
}

// The piece that an entry writes to a segment, if it does.
#[tactic(auto, unfolding(crate::specs::Segments::written_by))]
fn written_by(segment: &SegmentLine, entry: &Entry) -> Option<Piece>
    ensures exact { result ≡ written_by segment.now entry.now }
    ensures fits { IfSome result (λ piece. piece.offset + piece.len ≤ segment.now.size) }
    ensures short { IfSome result (λ piece. piece.len ≤ 24) }
{
    let words = words_run(segment.end, segment.handler, entry)?;
    let piece = piece(words)?;
    if u64::from(piece.offset) + u64::from(piece.len) <= u64::from(segment.size) {
        Some(piece)
    } else {
        None
    }
}

// Writes a piece to its places.
fn write(bytes: &mut [u8], piece: &Piece)
    requires fits { piece.now.offset + piece.now.len ≤ length bytes.old }
    requires short { piece.now.len ≤ 24 }
    ensures { (place : ℕ) → slice_index bytes.new place ≡ byte_after piece.now place (slice_index bytes.old place) }
{
    let start = piece.offset as usize;
    let len = usize::from(piece.len);
    bytes[start..start + len].copy_from_slice(&piece.bytes[..len]);
}

// Writes what an entry writes.
fn take_entry(bytes: &mut [u8], segment: &SegmentLine, entry: &Entry)
    requires { length bytes.old ≡ segment.now.size }
    ensures { (place : ℕ) → slice_index bytes.new place ≡ after_write (written_by segment.now entry.now) place (slice_index bytes.old place) }
{
    if let Some(piece) = written_by(segment, entry) {
        write(bytes, &piece);
    }
}

// Writes what the entries write, one after the other.
fn take_entries(bytes: &mut [u8], segment: &SegmentLine, entries: &[&Entry])
    requires { bytes.old ≡ replicate segment.now.size 0 }
    ensures { bytes.new ≡ segment_bytes segment.now (entries_behind entries.now) }
{
    for entry in entries {
        take_entry(bytes, segment, entry);
    }
}

/// The bytes of a segment after the entries of a journal: at each place that of the last piece that was written over it, or 0 where
/// none was. A piece is written where its handler runs at the segment's endpoint and it ends within the segment. `NoMemory` leaves
/// the journal and the segment as they are.
pub fn segment_bytes(
    alloc: Global,
    journal: &LoggedJournal,
    segment: &SegmentLine,
) -> Result<Vec<u8>, NoMemory>
    ensures { IfOk result (λ bytes. bytes.items ≡ segment_bytes segment.now journal.now) }
{
    let mut bytes = vec![in alloc; 0; segment.size as usize]?;
    take_entries(&mut bytes, segment, journal.entries());
    Ok(bytes)
}
