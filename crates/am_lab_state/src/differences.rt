//! How two texts differ, line by line.

ghost use Rattle.am_lab_state.specs.Differences.{HasLinesOf, difference, has_line, line_unless, lines_missing, marked_line, same_line};
ghost use Rattle.std.specs.Prelude.{◌≡◌, ◌++◌, IfOk, IfSome, MatchOption, OnOk, false, true};

use am_lexer::next_line;
use am_office_text::LinePiece::Text;
use am_office_text::{put_bytes, put_end, put_word};
use std::alloc::{AllocError, Global};

fn is_same(first: &[u8], second: &[u8]) -> bool
    ensures { result ≡ same_line first.now second.now }
{
    first == second
}

// What stands behind a line of a text, if the text has it.
fn behind_line<'a>(text: &'a [u8], line: &[u8]) -> Option<&'a [u8]>
    ensures found { MatchOption result (has_line text.now line.now ≡ false) (λ behind. has_line text.now line.now ≡ true) }
    ensures part { IfSome result (λ behind. HasLinesOf text.now behind.now) }
{
    let mut rest = text;
    while let Some((next, after)) = next_line(rest) {
        if is_same(line, next) {
            return Some(after);
        }
        rest = after;
    }
    None
}

// What stands behind a line of a text, if the text has it, which is looked for in this part of the text first.
fn behind_near<'a>(text: &'a [u8], near: &'a [u8], line: &[u8]) -> Option<&'a [u8]>
    requires { HasLinesOf text.now near.now }
    ensures found { MatchOption result (has_line text.now line.now ≡ false) (λ behind. has_line text.now line.now ≡ true) }
    ensures part { IfSome result (λ behind. HasLinesOf text.now behind.now) }
{
    match behind_line(near, line) {
        Some(behind) => Some(behind),
        None => behind_line(text, line),
    }
}

// Appends a line behind its mark.
#[tactic(auto, using(std::proofs::Common::append_assoc))]
fn put_marked(out: &mut Vec<u8>, mark: &'static str, line: &[u8]) -> Result<(), AllocError>
    ensures { OnOk result (out.new.items ≡ out.old.items ++ line_unless false mark.now line.now) }
{
    put_word(out, Text(mark))?;
    put_bytes(out, line)?;
    put_end(out)
}

// Appends a line behind its mark, unless the other text has it, and gives the part of the other in which the line behind it is to be
// looked for first.
#[tactic(auto, using(crate::proofs::Differing::known_put, crate::proofs::Differing::missing_put))]
fn put_unless<'a>(
    out: &mut Vec<u8>,
    mark: &'static str,
    other: &'a [u8],
    near: &'a [u8],
    line: &[u8],
) -> Result<&'a [u8], AllocError>
    requires { HasLinesOf other.now near.now }
    ensures put { IfOk result (λ next. out.new.items ≡ out.old.items ++ marked_line mark.now other.now line.now) }
    ensures part { IfOk result (λ next. HasLinesOf other.now next.now) }
{
    match behind_near(other, near, line) {
        Some(behind) => Ok(behind),
        None => {
            put_marked(out, mark, line)?;
            Ok(near)
        }
    }
}

// Appends the lines of a text that the other doesn't have. It goes over both side by side: a line is looked for in the other from
// behind the last one that was found there.
fn put_missing(
    out: &mut Vec<u8>,
    mark: &'static str,
    other: &[u8],
    text: &[u8],
) -> Result<(), AllocError>
    ensures { OnOk result (out.new.items ≡ out.old.items ++ lines_missing mark.now other.now text.now) }
{
    let mut near = other;
    let mut rest = text;
    while let Some((line, after)) = next_line(rest) {
        near = put_unless(out, mark, other, near, line)?;
        rest = after;
    }
    Ok(())
}

/// Appends the lines of the first text that the second doesn't have, each behind `-`, and those of the second that the first
/// doesn't have, behind `+`. It takes time for the two texts, and for one of them again with each line that it appends.
#[tactic(auto, using(std::proofs::Common::append_assoc))]
pub(crate) fn put_difference(
    out: &mut Vec<u8>,
    first: &[u8],
    second: &[u8],
) -> Result<(), AllocError>
    ensures { OnOk result (out.new.items ≡ out.old.items ++ difference first.now second.now) }
{
    put_missing(out, "- ", second, first)?;
    put_missing(out, "+ ", first, second)
}

/// How the second text differs from the first, as `put_difference` tells it.
pub(crate) fn difference(alloc: Global, first: &[u8], second: &[u8]) -> Result<Vec<u8>, AllocError>
    ensures { IfOk result (λ text. text.items ≡ difference first.now second.now) }
{
    let mut out = Vec::new(alloc);
    put_difference(&mut out, first, second)?;
    Ok(out)
}
