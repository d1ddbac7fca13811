//! What is printed of counted words.

ghost use Rattle.std.specs.Prelude.{◌≡◌, ◌++◌, IfOk, OnOk};
ghost use Rattle.std.specs.List.{flat_map};
ghost use Rattle.am_job.specs.Count.Printed.{count_text, left_total, word_line};

use crate::words::WordCount;
use am_office_text::LinePiece::{Number, Text};
use am_office_text::{count, put_end, put_line, put_spaced, put_word, small};
use std::alloc::{AllocError, Global};

// The line of a word.
fn put_row(out: &mut Vec<u8>, row: &WordCount) -> Result<(), AllocError>
    ensures { OnOk result (out.new.items ≡ out.old.items ++ word_line row.now) }
{
    put_word(out, Text("word"))?;
    put_spaced(out, &[Number(row.ran), Number(row.left)])?;
    out.extend_from_slice(b" ")?;
    out.extend_from_slice(&row.word)?;
    put_end(out)?;
    Ok(())
}

fn put_rows(out: &mut Vec<u8>, rows: &[WordCount]) -> Result<(), AllocError>
    ensures { OnOk result (out.new.items ≡ out.old.items ++ flat_map word_line rows.now) }
{
    for row in rows {
        put_row(out, row)?;
    }
    Ok(())
}

// How often words were sent and did not run.
fn left_total(rows: &[WordCount]) -> u64
    ensures { result ≡ left_total rows.now }
{
    let mut left: u64 = 0;
    for row in rows {
        left = left.saturating_add(row.left);
    }
    left
}

/// What is printed of the counts of words: a line for each, and the totals.
#[tactic(auto, using(std::proofs::Common::append_assoc), unfolding(crate::specs::Count::Printed::count_text))]
pub fn count_text(
    alloc: Global,
    w: u8,
    turns: u32,
    words: u64,
    long: u64,
    rows: &[WordCount],
) -> Result<Vec<u8>, AllocError>
    ensures { IfOk result (λ text. text.items ≡ count_text w turns words long rows.now) }
{
    let mut out = Vec::new(alloc);
    put_line(&mut out, "am2", &[Text("count"), small(w), count(turns)])?;
    put_rows(&mut out, rows)?;
    put_line(&mut out, "words", &[Number(words)])?;
    put_line(&mut out, "long", &[Number(long)])?;
    put_line(&mut out, "left", &[Number(left_total(rows))])?;
    Ok(out)
}
