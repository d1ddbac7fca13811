//! The lines of a text that are kept.

ghost use Rattle.am_lab_shrink.specs.Kept.{lines_behind};
ghost use Rattle.am_lab_shrink.specs.Lines.{ended, text_of};
ghost use Rattle.std.specs.List.{remove_range};
ghost use Rattle.std.specs.Prelude.{◌≡◌, ◌≤◌, ◌++◌, IfOk, OnOk, length};

use am_lexer::next_line;
use am_names::NoMemory;
use std::alloc::{AllocError, Global};
use std::marker::Model;

/// How many lines a text may have.
const MOST_LINES: usize = 4096;

/// Some lines of a text, in their order. Contracts see the list of the lines.
#[derive(Drop)]
pub(crate) struct KeptLines<'a> {
    lines: Vec<&'a [u8]>,
}

impl<'a> Model for KeptLines<'a> {
    ghost use Rattle.am_lab_shrink.specs.Kept.{lines_behind};
    ghost use Rattle.std.specs.Prelude.{List, ℕ};

    ghost Value = { List (List ℕ) };

    ghost view = { λ kept. lines_behind kept.lines.items };
}

/// The lines without those from one place up to another.
#[tactic(auto, using(am_lemmas::proofs::Lists::rest_is))]
fn without_part<'a>(
    alloc: Global,
    lines: &[&'a [u8]],
    from: usize,
    to: usize,
) -> Result<Vec<&'a [u8]>, AllocError>
    requires order { from ≤ to }
    requires in_range { to ≤ length lines.now }
    ensures { IfOk result (λ left. left.items ≡ remove_range lines.now from to) }
{
    let mut left = Vec::with_capacity(alloc, lines.len())?;
    left.extend_from_slice(&lines[..from])?;
    left.extend_from_slice(&lines[to..])?;
    Ok(left)
}

/// Appends a line with its end.
fn put_line(out: &mut Vec<u8>, line: &[u8]) -> Result<(), AllocError>
    ensures { OnOk result (out.new.items ≡ out.old.items ++ ended line.now) }
{
    out.extend_from_slice(line)?;
    out.push(b'\n')?;
    Ok(())
}

/// Appends lines, each with its end.
#[tactic(auto, using(std::proofs::Common::append_assoc, crate::proofs::Behind::length_behind, crate::proofs::Behind::text_next))]
fn put_lines(out: &mut Vec<u8>, lines: &[&[u8]]) -> Result<(), AllocError>
    ensures { OnOk result (out.new.items ≡ out.old.items ++ text_of (lines_behind lines.now)) }
{
    for line in lines {
        put_line(out, line)?;
    }
    Ok(())
}

impl<'a> KeptLines<'a> {
    ghost use Rattle.am_lab_shrink.specs.Lines.{text_of};
    ghost use Rattle.am_lexer.specs.Text.{lines_of};
    ghost use Rattle.std.specs.List.{remove_range};
    ghost use Rattle.std.specs.Prelude.{◌≡◌, ◌<◌, ◌≤◌, IfOk, IfSome, MatchOption, length};

    /// All lines of a text. `None`: there are more than 4,096.
    pub(crate) fn of(alloc: Global, text: &'a [u8]) -> Result<Option<KeptLines<'a>>, NoMemory>
        ensures lines { IfOk result (λ found. MatchOption found (4096 < length (lines_of text.now)) (λ kept. kept ≡ lines_of text.now)) }
        ensures few { IfOk result (λ found. IfSome found (λ kept. length kept ≤ 4096)) }
    {
        let mut lines = Vec::new(alloc);
        let mut rest = text;
        while let Some((line, behind)) = next_line(rest) {
            if lines.len() == MOST_LINES {
                return Ok(None);
            }
            lines.push(line)?;
            rest = behind;
        }
        Ok(Some(KeptLines { lines }))
    }

    /// How many there are.
    pub(crate) fn len(&self) -> usize
        ensures { result ≡ length self.now }
    {
        self.lines.len()
    }

    /// They without those from one place up to another, counted from 0.
    pub(crate) fn without(
        &self,
        alloc: Global,
        from: usize,
        to: usize,
    ) -> Result<KeptLines<'a>, NoMemory>
        requires order { from ≤ to }
        requires in_range { to ≤ length self.now }
        ensures { IfOk result (λ kept. kept ≡ remove_range self.now from to) }
    {
        let lines = without_part(alloc, &self.lines, from, to)?;
        Ok(KeptLines { lines })
    }

    /// Their text: each with its end.
    pub(crate) fn text(&self, alloc: Global) -> Result<Vec<u8>, NoMemory>
        ensures { IfOk result (λ text. text.items ≡ text_of self.now) }
    {
        let mut text = Vec::new(alloc);
        put_lines(&mut text, &self.lines)?;
        Ok(text)
    }
}
