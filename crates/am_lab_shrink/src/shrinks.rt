//! What `shrink` prints.

ghost use Rattle.am_lab_shrink.specs.Lines.{text_of};
ghost use Rattle.am_lab_shrink.specs.Reports.{Answers};
ghost use Rattle.am_lab_shrink.specs.Shrinks.{ShrinkAnswers, ShrinksFew, no_such_line, too_many_lines};
ghost use Rattle.am_lab_shrink.specs.Steps.{HaveLine, IsLeastFrom, IsLeastText, Shrinks};
ghost use Rattle.am_lexer.specs.Text.{lines_of};
ghost use Rattle.am_main_lines.specs.Lines.{answer_in};
ghost use Rattle.std.specs.Prelude.{◌≡◌, ◌≤◌, IfOk, length};

use crate::lines::KeptLines;
use crate::parts::passed;
use crate::reports::{Making, answer_of, shows};
use am_main_lines::Output;
use am_names::NoMemory;
use std::alloc::{AllocError, Global};

/// The lines without the parts that can be left out: halves first, then quarters, and so on, as long as a part has more than one line.
fn in_parts<'a>(
    alloc: Global,
    making: Making,
    words: &[u8],
    lines: KeptLines<'a>,
) -> Result<KeptLines<'a>, NoMemory>
    requires { HaveLine making words.now lines }
    ensures { IfOk result (λ kept. Shrinks making words.now lines.entry kept) }
{
    let mut kept = lines;
    let mut size = kept.len() / 2;
    while size > 1 {
        kept = passed(alloc, making, words, kept, size)?;
        size /= 2;
    }
    Ok(kept)
}

/// The lines without single lines that can be left out, until there is none.
fn least<'a>(
    alloc: Global,
    making: Making,
    words: &[u8],
    lines: KeptLines<'a>,
) -> Result<KeptLines<'a>, NoMemory>
    requires { HaveLine making words.now lines }
    ensures shrinks { IfOk result (λ kept. Shrinks making words.now lines.entry kept) }
    ensures least { IfOk result (λ kept. IsLeastFrom making words.now 0 kept) }
{
    let mut kept = lines;
    loop {
        let before = kept.len();
        kept = passed(alloc, making, words, kept, 1)?;
        if kept.len() == before {
            return Ok(kept);
        }
    }
}

/// What is printed of a text whose report has such a line.
fn shrunk_output(
    alloc: Global,
    making: Making,
    words: &[u8],
    lines: KeptLines,
) -> Result<Output, NoMemory>
    requires { HaveLine making words.now lines }
    ensures status { IfOk result (λ output. output.status ≡ 0) }
    ensures text { IfOk result (λ output. IsLeastText making words.now lines.entry output.text.items) }
{
    let kept = in_parts(alloc, making, words, lines)?;
    let kept = least(alloc, making, words, kept)?;
    let text = kept.text(alloc)?;
    Ok(Output { status: 0, text })
}

/// That the text has more lines than it may.
fn too_many_lines(alloc: Global) -> Result<Output, AllocError>
    ensures { IfOk result (λ output. answer_in output ≡ too_many_lines) }
{
    let text = Vec::from_slice(alloc, b"more than 4096 lines\n")?;
    Ok(Output { status: 11, text })
}

/// That the report has no such line.
fn no_such_line(alloc: Global) -> Result<Output, AllocError>
    ensures { IfOk result (λ output. answer_in output ≡ no_such_line) }
{
    let text = Vec::from_slice(alloc, b"no such line\n")?;
    Ok(Output { status: 12, text })
}

/// What is printed of a text with these lines.
fn few_output(
    alloc: Global,
    making: Making,
    words: &[u8],
    text: &[u8],
    lines: KeptLines,
) -> Result<Output, NoMemory>
    requires lines { lines ≡ lines_of text.now }
    requires few { length lines ≤ 4096 }
    ensures { IfOk result (λ output. ShrinksFew making words.now text.now (answer_in output)) }
{
    let first = answer_of(alloc, making, text)?;
    if first.status != 0 {
        return Ok(first);
    }
    if !shows(words, &first) {
        return Ok(no_such_line(alloc)?);
    }
    shrunk_output(alloc, making, words, lines)
}

/// What `shrink` prints of a text and some words, with status 0: some lines of the text, in their order, whose report still has a line
/// that begins with these words (`am_lab_schedules::beginnings`), and of which none can be left out. By a seed each report that is looked
/// at tells a run by this seed. Where the text's own report has no such line, status 12 and a line that says so; where it has no report,
/// the answer that `step`, `run` or `schedule` gives; where it has more than 4,096 lines, status 11. `NoMemory` comes only for want of memory, in any of the runs that are made.
pub fn shrink_output(
    alloc: Global,
    making: Making,
    words: &[u8],
    text: &[u8],
) -> Result<Output, NoMemory>
    ensures { IfOk result (λ output. ShrinkAnswers making words.now text.now (answer_in output)) }
{
    match KeptLines::of(alloc, text)? {
        None => Ok(too_many_lines(alloc)?),
        Some(lines) => few_output(alloc, making, words, text, lines),
    }
}
