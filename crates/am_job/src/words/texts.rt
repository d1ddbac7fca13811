//! The words of a text.

ghost use Rattle.std.specs.Prelude.{◌≡◌, ◌++◌, ◌+◌, ◌<◌, ◌≤◌, ◌^◌, IfOk, OnOk, count_by, drop, filter, length, map};
ghost use Rattle.std.specs.List.{All, slice_range};
ghost use Rattle.am_job.specs.Words.Codes.{Fits, coded, sent_words};
ghost use Rattle.am_job.specs.Words.Texts.{closed, is_gap, is_long, is_short, long_count};

use crate::words::codes::{CodedWord, coded};
use am_names::NoMemory;
use std::alloc::Global;

/// The words of a text.
#[derive(Drop)]
pub struct TextWords {
    /// The words of at most 24 bytes, in order, as they are sent.
    pub sent: Vec<CodedWord>,
    /// How many words are longer.
    pub long: u64,
}

fn is_gap(byte: u8) -> bool
    ensures { result ≡ is_gap byte }
{
    byte == b'\t' || byte == b'\n' || byte == b'\r' || byte == b' '
}

// Takes a run of bytes without a gap as a word, unless it is empty.
#[tactic(auto, using(crate::proofs::Parted::long_run, crate::proofs::Parted::short_run, crate::proofs::Parted::no_run))]
fn take_run(found: &mut TextWords, run: &[u8]) -> Result<(), NoMemory>
    requires { found.old.long + 1 < 2 ^ 64 }
    ensures sent { OnOk result (found.new.sent.items ≡ found.old.sent.items ++ map coded (filter is_short (closed run.now))) }
    ensures long { OnOk result (found.new.long ≡ found.old.long + count_by is_long (closed run.now)) }
    ensures fit { OnOk result (All Fits found.old.sent.items → All Fits found.new.sent.items) }
{
    if run.len() > 24 {
        found.long += 1;
    } else if !run.is_empty() {
        found.sent.push(coded(run))?;
    }
    Ok(())
}

// The bytes between two places.
fn run_between(text: &[u8], start: usize, end: usize) -> &[u8]
    requires order { start ≤ end }
    requires within { end ≤ length text.now }
    ensures { result.now ≡ slice_range text.now start end }
{
    &text[start..end]
}

// The bytes from a place on.
fn rest_from(text: &[u8], start: usize) -> &[u8]
    requires { start ≤ length text.now }
    ensures { result.now ≡ drop start text.now }
{
    &text[start..]
}

/// The words of a text: its longest runs of bytes other than tab, line feed, carriage return and space. Those of at most 24 bytes
/// are given in order, the others are counted.
pub fn split(alloc: Global, text: &[u8]) -> Result<TextWords, NoMemory>
    ensures sent { IfOk result (λ found. found.sent.items ≡ sent_words text.now) }
    ensures long { IfOk result (λ found. found.long ≡ long_count text.now) }
    ensures fit { IfOk result (λ found. All Fits found.sent.items) }
{
    let mut found = TextWords {
        sent: Vec::new(alloc),
        long: 0,
    };
    let mut start = 0;
    for (i, byte) in text.iter().enumerate() {
        if is_gap(*byte) {
            take_run(&mut found, run_between(text, start, i))?;
            start = i + 1;
        }
    }
    take_run(&mut found, rest_from(text, start))?;
    Ok(found)
}
