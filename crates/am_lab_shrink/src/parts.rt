//! Lines are left out, as many at once as are given.

ghost use Rattle.am_lab_shrink.specs.Lines.{text_of};
ghost use Rattle.am_lab_shrink.specs.Steps.{HaveLine, IsPassed, IsTried};
ghost use Rattle.std.specs.Prelude.{◌≡◌, ◌<◌, ◌≤◌, IfOk, length};

use crate::lines::KeptLines;
use crate::reports::{Making, tells};
use am_names::NoMemory;
use std::alloc::Global;

/// The lines without those from one place up to another, if their report still has such a line; else all.
fn tried<'a>(
    alloc: Global,
    making: Making,
    words: &[u8],
    lines: KeptLines<'a>,
    from: usize,
    to: usize,
) -> Result<KeptLines<'a>, NoMemory>
    requires order { from ≤ to }
    requires in_range { to ≤ length lines }
    ensures { IfOk result (λ kept. IsTried making words.now from to lines.entry kept) }
{
    let rest = lines.without(alloc, from, to)?;
    let text = rest.text(alloc)?;
    if tells(alloc, making, words, &text)? {
        Ok(rest)
    } else {
        Ok(lines)
    }
}

/// The lines without the parts of this size that can be left out, one after the other, from the last to the first.
pub(crate) fn passed<'a>(
    alloc: Global,
    making: Making,
    words: &[u8],
    lines: KeptLines<'a>,
    size: usize,
) -> Result<KeptLines<'a>, NoMemory>
    requires some { 0 < size }
    requires have { HaveLine making words.now lines }
    ensures { IfOk result (λ kept. IsPassed making words.now size 0 lines.entry kept) }
{
    let mut kept = lines;
    let mut end = kept.len();
    while end > 0 {
        let start = end.saturating_sub(size);
        kept = tried(alloc, making, words, kept, start, end)?;
        end = start;
    }
    Ok(kept)
}
