//! Which pieces of the transfers ran.

ghost use Rattle.std.specs.Prelude.{◌≡◌, ◌≤◌, ◌<◌, ◌+◌, ◌^◌, List, IfOk, if◌then◌else◌, length};
ghost use Rattle.am_office_entries.specs.declared.Entry.{Entry};
ghost use Rattle.am_office_entries.specs.Logged.Behind.{entries_behind};
ghost use Rattle.am_segment_pieces.specs.Pieces.{words_of};
ghost use Rattle.am_segment_pieces.specs.Segments.{has_run, ran_count, ran_from, ran_of, segment_of};
ghost use Rattle.am_segment_pieces.specs.Runs.{TellsRuns, key_in, run_key};

use crate::parts::Piece;
use crate::segment::SegmentLine;
use crate::transfer::Transfer;
use am_library_views::handler_run_of;
use am_names::{EndpointId, Words};
use am_office_entries::logged::LoggedJournal;
use am_office_entries::{Entry, NoMemory};
use std::alloc::Global;
use std::collections::HashSet;

/// How much of a transfer ran.
#[derive(Clone, Copy, PartialEq, Eq)]
pub struct TransferRan {
    /// The transfer, by its place among the scenario's transfers, from 1.
    pub number: u32,
    /// How many of its pieces have words that some run of the segment's handler has.
    pub ran: u32,
    /// How many pieces it has.
    pub pieces: u32,
}

/// A run: at which endpoint, of which handler, with which words.
#[derive(Clone, Copy, PartialEq, Eq, Hash)]
struct Run {
    end: u8,
    handler: u8,
    a: u64,
    b: u64,
    c: u64,
    d: u64,
}

fn run_key(end: EndpointId, handler: u8, words: Words) -> Run
    ensures { result ≡ run_key end handler words }
{
    Run {
        end: end.0,
        handler,
        a: words.a,
        b: words.b,
        c: words.c,
        d: words.d,
    }
}

// The run that an entry is, if it is one.
fn run_in(entry: &Entry) -> Option<Run>
    ensures { result ≡ key_in entry.now }
{
    match handler_run_of(entry) {
        Some(run) => Some(run_key(run.end, run.handler, run.words)),
        None => None,
    }
}

// All runs of the entries.
fn runs(alloc: Global, entries: &[&Entry]) -> Result<HashSet<Run>, NoMemory>
    ensures { IfOk result (λ set. TellsRuns set (entries_behind entries.now)) }
{
    let mut set = HashSet::new(alloc);
    for entry in entries {
        if let Some(run) = run_in(entry) {
            set.insert(run)?;
        }
    }
    Ok(set)
}

// Whether a piece ran.
fn has_run(runs: &HashSet<Run>, segment: SegmentLine, piece: &Piece) -> bool
    requires { piece.now.offset < 65536 }
    ensures { (journal : List Entry) → TellsRuns runs.now journal → result ≡ has_run journal segment.end segment.handler (words_of piece.now) }
{
    runs.contains(&run_key(segment.end, segment.handler, piece.words()))
}

// One where it is so, and none where it isn't.
fn counted(ran: bool) -> u32
    ensures exact { result ≡ (if ran then 1 else 0) }
    ensures one { result ≤ 1 }
{
    if ran { 1 } else { 0 }
}

// How many pieces of a transfer ran.
fn ran_count(runs: &HashSet<Run>, segment: SegmentLine, number: u32, transfer: &Transfer) -> u32
    ensures { (journal : List Entry) → TellsRuns runs.now journal → result ≡ ran_count journal segment number transfer.now }
{
    let mut ran = 0;
    for k in 0..transfer.piece_count() {
        let piece = transfer.piece_at(number, k);
        ran += counted(has_run(runs, segment, &piece));
    }
    ran
}

// The segment of an endpoint.
fn segment_of(segments: &[SegmentLine], end: EndpointId) -> Option<SegmentLine>
    ensures { result ≡ segment_of segments.now end }
{
    segments
        .iter()
        .copied()
        .find(|segment| segment.end.0 == end.0)
}

// What ran of a transfer.
fn ran_of(
    runs: &HashSet<Run>,
    segments: &[SegmentLine],
    number: u32,
    transfer: &Transfer,
) -> TransferRan
    ensures { (journal : List Entry) → TellsRuns runs.now journal → result ≡ ran_of segments.now journal number transfer.now }
{
    let ran = match segment_of(segments, transfer.dest) {
        Some(segment) => ran_count(runs, segment, number, transfer),
        None => 0,
    };
    TransferRan {
        number,
        ran,
        pieces: transfer.piece_count(),
    }
}

/// How much of each transfer ran in a journal: how many of its pieces have words that some run has, at the endpoint of the segment
/// and of its handler. `NoMemory` leaves all as it is.
pub fn transfers_ran(
    alloc: Global,
    journal: &LoggedJournal,
    segments: &[SegmentLine],
    transfers: &[Transfer],
) -> Result<Vec<TransferRan>, NoMemory>
    requires { length transfers.now < 2 ^ 32 }
    ensures { IfOk result (λ rows. rows.items ≡ ran_from segments.now journal.now 1 transfers.now) }
{
    let runs = runs(alloc, journal.entries())?;
    let mut rows = Vec::new(alloc);
    let mut number: u32 = 0;
    for transfer in transfers {
        number += 1;
        rows.push(ran_of(&runs, segments, number, transfer))?;
    }
    Ok(rows)
}
