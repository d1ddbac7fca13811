//! A line of a text by its number, and the lines in front of it.

ghost use Rattle.am_lab_reasons.specs.Refusals.Lines.{ended, lines_before};
ghost use Rattle.am_lexer.specs.Text.{lines_of};
ghost use Rattle.std.specs.Prelude.{◌≡◌, ◌-◌, ◌++◌, IfOk, OnOk, option_map, slice_get};

use am_lexer::next_line;
use std::alloc::{AllocError, Global};

/// A line of a text, and the lines in front of it.
#[derive(Drop)]
pub(crate) struct Cut<'a> {
    pub(crate) before: Vec<u8>,
    /// None where the text has no such line.
    pub(crate) line: Option<&'a [u8]>,
}

#[tactic(auto, using(std::proofs::Common::append_assoc))]
fn put_ended(out: &mut Vec<u8>, line: &[u8]) -> Result<(), AllocError>
    ensures { OnOk result (out.new.items ≡ out.old.items ++ ended line.now) }
{
    out.extend_from_slice(line)?;
    out.extend_from_slice(b"\n")
}

// The first of the lines that are left.
fn first_line(rest: &[u8]) -> Option<&[u8]>
    ensures { option_map (λ line. line.now) result ≡ slice_get (lines_of rest.now) 0 }
{
    match next_line(rest) {
        Some((line, _)) => Some(line),
        None => None,
    }
}

/// The line at a place of a text, the first at 0, if it has so many.
pub(crate) fn line_at(text: &[u8], place: u32) -> Option<&[u8]>
    ensures { option_map (λ line. line.now) result ≡ slice_get (lines_of text.now) place }
{
    let mut rest = text;
    let mut left = place;
    while left > 0 {
        let (_, after) = next_line(rest)?;
        rest = after;
        left -= 1;
    }
    first_line(rest)
}

/// The line with this number, counted from 1, and the lines in front of it.
#[tactic(auto, using(std::proofs::Common::append_assoc))]
pub(crate) fn cut_at(alloc: Global, text: &[u8], number: u32) -> Result<Cut<'_>, AllocError>
    ensures before { IfOk result (λ cut. cut.before.items ≡ lines_before number text.now) }
    ensures line { IfOk result (λ cut. option_map (λ line. line.now) cut.line ≡ slice_get (lines_of text.now) (number - 1)) }
{
    let mut before = Vec::new(alloc);
    let mut rest = text;
    let mut left = number.saturating_sub(1);
    while left > 0 {
        let Some((line, after)) = next_line(rest) else {
            return Ok(Cut { before, line: None });
        };
        put_ended(&mut before, line)?;
        rest = after;
        left -= 1;
    }
    let line = first_line(rest);
    Ok(Cut { before, line })
}
