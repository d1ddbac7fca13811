//! What the lines of a text with segments have said so far.

ghost use Rattle.std.specs.Prelude.{◌≤◌, IsTrue, nat_le, length};
ghost use Rattle.std.specs.List.{list_all};

use am_segment_pieces::{SegmentLine, Transfer};
use std::alloc::Global;
use std::marker::Model;

/// A text with segments, expanded: the scenario's text that it stands for.
#[derive(Drop)]
pub struct Expanded {
    /// The text, in the form Run. Each of its lines has its end.
    pub text: Vec<u8>,
    /// For each line of the text the line that it came from, counted from 1.
    pub origin: Vec<u32>,
    /// The segments, in the order of their lines: at most 16, each of an endpoint of its own.
    pub segments: Vec<SegmentLine>,
    /// The transfers, in the order of their lines.
    pub transfers: Vec<Transfer>,
}

impl Model for Expanded {
    ghost use Rattle.am_segment.specs.Lists.{ExpandedLists};

    ghost Value = { ExpandedLists };

    ghost view = { λ e. record {
      text = e.text.items;
      origin = e.origin.items;
      segments = e.segments.items;
      transfers = e.transfers.items;
    } };
}

/// What the lines so far have said.
#[derive(Drop)]
pub(crate) struct Expansion {
    /// The numbers of the endpoints that were declared, each once.
    pub(crate) ends: Vec<u8>,
    /// Whether a line of section 4 stood.
    pub(crate) scripted: bool,
    pub(crate) segments: Vec<SegmentLine>,
    pub(crate) transfers: Vec<Transfer>,
    /// How many calls were made from own lines.
    pub(crate) calls: u32,
    pub(crate) text: Vec<u8>,
    pub(crate) origin: Vec<u32>,
    ghost few: { length transfers.items ≤ calls },
    ghost room: { calls ≤ 16384 },
    ghost sized: { IsTrue (list_all (λ s. nat_le s.size 65536) segments.items) },
}

impl Expansion {
    ghost use Rattle.std.specs.Prelude.{◌≡◌, ◌==◌, ◌<◌, ◌≤◌, IfSome, find};
    ghost use Rattle.am_segment.specs.Drafts.{laid};
    ghost use Rattle.am_segment.specs.Laid.{nothing_laid};

    /// Nothing was said.
    pub(crate) fn new(alloc: Global) -> Expansion
        ensures { laid result ≡ nothing_laid }
    {
        Expansion {
            ends: Vec::new(alloc),
            scripted: false,
            segments: Vec::new(alloc),
            transfers: Vec::new(alloc),
            calls: 0,
            text: Vec::new(alloc),
            origin: Vec::new(alloc),
        }
    }

    /// The endpoint that a line declared with this number.
    pub(crate) fn end_of(&self, number: u64) -> Option<u8>
        ensures { result ≡ find (λ end. end == number) (laid self.now).ends }
    {
        self.ends
            .iter()
            .copied()
            .find(|end| u64::from(*end) == number)
    }

    /// The segment of the endpoint with this number.
    pub(crate) fn segment_of(&self, number: u64) -> Option<SegmentLine>
        ensures exact { result ≡ find (λ s. s.end.0 == number) (laid self.now).segments }
        ensures sized { IfSome result (λ s. s.size ≤ 65536) }
    {
        self.segments
            .iter()
            .copied()
            .find(|segment| u64::from(segment.end.0) == number)
    }
}
