//! A report of a run that met a full log.

ghost use Rattle.am_check.specs.Cut as places;
ghost use Rattle.am_lab.specs.Cuts.{cut_report, full_before, full_in, full_line_of, last_line, reads_report, without_line};
ghost use Rattle.am_main_lines.specs.Lines.{answer_in};
ghost use Rattle.std.specs.Prelude.{◌≡◌, ◌≤◌, IfOk, Some, length, option_map};

use am_check::place_of;
use am_lab_words::Asked;
use am_lexer::next_line;
use am_main_lines::Output;
use std::alloc::{AllocError, Global};

// The last line of a text.
#[tactic(auto, unfolding(crate::specs::Cuts::last_after))]
fn last_line(text: &[u8]) -> &[u8]
    ensures { result.now ≡ last_line text.now }
{
    let mut last: &[u8] = &[];
    let mut rest = text;
    while let Some((line, after)) = next_line(rest) {
        last = line;
        rest = after;
    }
    last
}

// A line that tells a full log.
#[tactic(auto, unfolding(crate::specs::Cuts::full_in))]
fn full_in(line: &[u8]) -> Option<&[u8]>
    ensures { option_map (λ line. line.now) result ≡ full_in line.now }
{
    if line.starts_with(b"log full ") {
        Some(line)
    } else {
        None
    }
}

// Whether a command reads a report behind its scenario, and tells nothing of one with the line of a full log in front.
fn reads_report(asked: Asked) -> bool
    ensures { result ≡ reads_report asked }
{
    match asked {
        Asked::Explain(_)
        | Asked::Front
        | Asked::Why { .. }
        | Asked::Chart { .. }
        | Asked::ChartMessage { .. }
        | Asked::Replay
        | Asked::Json(_)
        | Asked::Shiviz(_)
        | Asked::Page(_)
        | Asked::State { .. } => true,
        Asked::WhyFront { .. }
        | Asked::ChartFront(_)
        | Asked::Scenario(_)
        | Asked::Made(_)
        | Asked::Expanded
        | Asked::Round { .. }
        | Asked::Schedule { .. }
        | Asked::Schedules(_)
        | Asked::Find(_)
        | Asked::FindWithout(_)
        | Asked::Faults { .. }
        | Asked::Shrink(_)
        | Asked::ShrinkSeeded(_) => false,
    }
}

/// The line in front of a report, where it tells a full log.
pub(crate) fn full_before(text: &[u8]) -> Option<&[u8]>
    ensures { option_map (λ line. line.now) result ≡ full_before text.now (places.place_of text.now) }
{
    match place_of(text) {
        Some(place) => full_in(last_line(&text[..place])),
        None => None,
    }
}

// The bytes of a text without a line in front of its report, which begins at this place.
fn cut_out(alloc: Global, text: &[u8], place: usize, line: &[u8]) -> Result<Vec<u8>, AllocError>
    requires { place ≤ length text.now }
    ensures { IfOk result (λ left. left.items ≡ without_line text.now line.now (Some place)) }
{
    let mut left = Vec::from_slice(alloc, &text[..place.saturating_sub(line.len() + 1)])?;
    left.extend_from_slice(&text[place..])?;
    Ok(left)
}

/// The bytes of a text without this line in front of its report.
pub(crate) fn without_line(alloc: Global, text: &[u8], line: &[u8]) -> Result<Vec<u8>, AllocError>
    ensures exact { IfOk result (λ left. left.items ≡ without_line text.now line.now (places.place_of text.now)) }
    ensures short { IfOk result (λ left. length left.items ≤ length text.now) }
{
    match place_of(text) {
        Some(place) => cut_out(alloc, text, place, line),
        None => Vec::from_slice(alloc, text),
    }
}

/// The line that tells a full log, in front of the report that a command reads.
pub(crate) fn full_line_of(asked: Asked, text: &[u8]) -> Option<&[u8]>
    ensures { option_map (λ line. line.now) result ≡ full_line_of asked text.now }
{
    if reads_report(asked) {
        full_before(text)
    } else {
        None
    }
}

/// The answer to the report of a run that met a full log, which this line tells.
#[tactic(auto, unfolding(crate::specs::Cuts::cut_report))]
pub(crate) fn cut_report(alloc: Global, line: &[u8]) -> Result<Output, AllocError>
    ensures { IfOk result (λ o. answer_in o ≡ cut_report line.now) }
{
    let mut text = Vec::from_slice(alloc, line)?;
    text.extend_from_slice(
        b"\nthe run met this full log: its report ends early, so nothing of it is checked or shown\n",
    )?;
    Ok(Output { status: 6, text })
}
