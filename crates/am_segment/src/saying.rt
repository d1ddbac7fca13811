//! What own lines say, word by word.

ghost use Rattle.std.specs.Prelude.{◌≡◌, ◌≤◌, ◌+◌, ◌*◌, IfOk, nat_le};
ghost use Rattle.am_lexer.specs.Text.{words_of};
ghost use Rattle.am_lexer.specs.Fields.{Gives, within};
ghost use Rattle.am_scenario.specs.Lines.Answers.{Yields};
ghost use Rattle.am_segment_pieces.specs.Blocks.{piece_count};
ghost use Rattle.am_segment.specs.Drafts.{laid};
ghost use Rattle.am_segment.specs.Saying.{block_at, end_at, fresh, segment_at, segment_line, serve_line, transfer_line};

use crate::expansion::Expansion;
use crate::hex::block_of;
use am_lexer::{What, take_byte, take_end, take_number, take_u32, take_word};
use am_names::EndpointId;
use am_scenario::drafts::LineFault;
use am_segment_pieces::{SegmentLine, Transfer};
use std::alloc::Global;

/// The most calls that own lines make.
pub(crate) const MOST_CALLS: u32 = 16_384;

/// What a line says that sends a block.
#[derive(Drop)]
pub(crate) struct Sent {
    /// The endpoint that sends it.
    pub(crate) end: EndpointId,
    /// The index that it is sent by.
    pub(crate) index: u8,
    /// The handler of the segment.
    pub(crate) handler: u8,
    pub(crate) transfer: Transfer,
}

/// What a line says that polls many times.
#[derive(Clone, Copy)]
pub(crate) struct Served {
    pub(crate) end: EndpointId,
    /// How often, 1 to 1,024.
    pub(crate) polls: u32,
}

#[tactic(auto, unfolding(crate::specs::Saying::end_at))]
fn take_end_of<'a>(said: &Expansion, rest: &'a [u8]) -> Result<(EndpointId, &'a [u8]), What>
    ensures { Gives (λ found. (found.0, words_of found.1.now)) result (end_at (laid said.now) (words_of rest.now)) }
{
    let (number, rest) = take_number(rest)?;
    match said.end_of(number) {
        Some(end) => Ok((EndpointId(end), rest)),
        None => Err(What::Undeclared),
    }
}

#[tactic(auto, unfolding(crate::specs::Saying::segment_at))]
fn take_segment<'a>(said: &Expansion, rest: &'a [u8]) -> Result<(SegmentLine, &'a [u8]), What>
    ensures found { Gives (λ found. (found.0, words_of found.1.now)) result (segment_at (laid said.now) (words_of rest.now)) }
    ensures sized { IfOk result (λ found. found.0.size ≤ 65536) }
{
    let (number, rest) = take_number(rest)?;
    match said.segment_of(number) {
        Some(segment) => Ok((segment, rest)),
        None => Err(What::Undeclared),
    }
}

// Whether a block ends within a segment.
fn is_within(segment: SegmentLine, offset: u64, len: usize) -> bool
    ensures { result ≡ nat_le (offset + len) segment.size }
{
    match offset.checked_add(len as u64) {
        Some(end) => end <= u64::from(segment.size),
        None => false,
    }
}

// The block that the next word spells, as a transfer to its places in a segment.
#[tactic(auto, unfolding(crate::specs::Saying::block_at))]
fn take_block(
    alloc: Global,
    segment: SegmentLine,
    offset: u64,
    rest: &[u8],
) -> Result<(Transfer, &[u8]), LineFault>
    requires { segment.size ≤ 65536 }
    ensures { Yields (λ found. (found.0, words_of found.1.now)) result (block_at segment offset (words_of rest.now)) }
{
    let (word, rest) = take_word(rest)?;
    let Some(bytes) = block_of(alloc, word)? else {
        return Err(LineFault::What(What::BadNumber));
    };
    if is_within(segment, offset, bytes.len()) {
        let transfer = Transfer {
            dest: segment.end,
            offset: offset as u32,
            bytes,
        };
        Ok((transfer, rest))
    } else {
        Err(LineFault::What(What::OutOfRange))
    }
}

#[tactic(auto, unfolding(crate::specs::Saying::fresh))]
fn fresh(said: &Expansion, segment: SegmentLine) -> Result<SegmentLine, What>
    ensures says { Gives (λ s. s) result (fresh (laid said.now) segment) }
    ensures same { IfOk result (λ s. s ≡ segment) }
{
    if said.segment_of(u64::from(segment.end.0)).is_some() {
        return Err(What::Twice);
    }
    if said.segments.len() < 16 {
        Ok(segment)
    } else {
        Err(What::TooMany)
    }
}

// Whether so many calls more may be made from own lines.
fn has_room(said: &Expansion, calls: u32) -> bool
    ensures { result ≡ nat_le (said.now.calls + calls) 16_384 }
{
    calls <= MOST_CALLS - said.calls
}

// The size of a segment.
fn take_size(rest: &[u8]) -> Result<(u32, &[u8]), What>
    ensures found { Gives (λ found. (found.0, words_of found.1.now)) result (within 1 65_536 (words_of rest.now)) }
    ensures small { IfOk result (λ found. found.0 ≤ 65536) }
{
    take_u32(1, 65_536, rest)
}

/// The segment that a line gives an endpoint.
#[tactic(auto, unfolding(crate::specs::Saying::segment_line))]
pub(crate) fn segment_line(said: &Expansion, rest: &[u8]) -> Result<SegmentLine, What>
    ensures says { Gives (λ s. s) result (segment_line (laid said.now) (words_of rest.now)) }
    ensures sized { IfOk result (λ s. s.size ≤ 65536) }
{
    if said.scripted {
        return Err(What::OutOfPlace);
    }
    let (end, rest) = take_end_of(said, rest)?;
    let (handler, rest) = take_byte(1, 15, rest)?;
    let (size, rest) = take_size(rest)?;
    take_end(rest)?;
    fresh(said, SegmentLine { end, handler, size })
}

/// The block that a line sends.
#[tactic(auto, unfolding(crate::specs::Saying::transfer_line))]
pub(crate) fn transfer_line(alloc: Global, said: &Expansion, rest: &[u8]) -> Result<Sent, LineFault>
    ensures says { Yields (λ s. s) result (transfer_line (laid said.now) (words_of rest.now)) }
    ensures room { IfOk result (λ s. said.now.calls + 2 * piece_count s.transfer ≤ 16384) }
{
    let (end, rest) = take_end_of(said, rest)?;
    let (index, rest) = take_byte(0, 15, rest)?;
    let (segment, rest) = take_segment(said, rest)?;
    let (offset, rest) = take_number(rest)?;
    let (transfer, rest) = take_block(alloc, segment, offset, rest)?;
    take_end(rest)?;
    if has_room(said, 2 * transfer.piece_count()) {
        Ok(Sent {
            end,
            index,
            handler: segment.handler,
            transfer,
        })
    } else {
        Err(LineFault::What(What::TooMany))
    }
}

/// The polls that a line makes.
#[tactic(auto, unfolding(crate::specs::Saying::serve_line))]
pub(crate) fn serve_line(said: &Expansion, rest: &[u8]) -> Result<Served, What>
    ensures says { Gives (λ s. s) result (serve_line (laid said.now) (words_of rest.now)) }
    ensures room { IfOk result (λ s. said.now.calls + s.polls ≤ 16384) }
{
    let (end, rest) = take_end_of(said, rest)?;
    let (polls, rest) = take_u32(1, 1024, rest)?;
    take_end(rest)?;
    if has_room(said, polls) {
        Ok(Served { end, polls })
    } else {
        Err(What::TooMany)
    }
}
