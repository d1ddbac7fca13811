//! The line of a run.

ghost use Rattle.std.specs.Prelude.{◌≡◌, ◌++◌, OnOk, length};
ghost use Rattle.am_lab_schedules.specs.Outcomes.Outcomes as outcomes;
ghost use Rattle.am_office_report.specs.Report.{told};

use crate::outcomes::fates::{FirstFates, put_missed_fates, put_other_fates};
use crate::outcomes::runs::SeedRun;
use am_main_lines::full_line;
use am_names::NoMemory;
use am_office_entries::{Journal, Part};
use am_office_report::{MessageFate, fates, put_total_words};
use am_office_text::LinePiece::{Number, Text};
use am_office_text::{put_end, put_line, put_spaced, put_word};
use std::alloc::{AllocError, Global};

/// How many entries a journal has.
fn entry_count(journal: &Journal) -> u64
    ensures { result ≡ length journal.now }
{
    journal.entries.len() as u64
}

/// The seed, how many entries there are, and how many messages have each fate.
fn put_head(out: &mut Vec<u8>, run: &SeedRun, messages: &[MessageFate]) -> Result<(), AllocError>
    ensures { OnOk result (out.new.items ≡ out.old.items ++ outcomes.line_head run.now messages.now) }
{
    put_word(out, Text("seed"))?;
    let entries = Number(entry_count(&run.journal));
    let words = [Number(run.seed), Text("entries"), entries, Text("totals")];
    put_spaced(out, &words)?;
    put_total_words(out, messages)
}

/// The end of a run's line.
#[tactic(auto, using(std::proofs::Common::append_assoc), unfolding(crate::specs::Outcomes::Outcomes::line_end))]
fn put_line_end(alloc: Global, out: &mut Vec<u8>, full: Option<Part>) -> Result<(), AllocError>
    ensures { OnOk result (out.new.items ≡ out.old.items ++ outcomes.line_end full) }
{
    match full {
        None => put_end(out),
        Some(part) => {
            let line = full_line(alloc, part)?;
            put_word(out, Text(" "))?;
            out.extend_from_slice(&line)
        }
    }
}

/// The line of a run beside the first, whose messages are these.
#[tactic(auto, using(std::proofs::Common::append_assoc), unfolding(crate::specs::Outcomes::Outcomes::run_line))]
fn put_told_line(
    alloc: Global,
    out: &mut Vec<u8>,
    first: &FirstFates,
    run: &SeedRun,
    messages: &[MessageFate],
) -> Result<(), AllocError>
    requires { messages.now ≡ told run.now.journal }
    ensures { OnOk result (out.new.items ≡ out.old.items ++ outcomes.run_line first.now.messages.items run.now) }
{
    put_head(out, run, messages)?;
    put_other_fates(alloc, out, first, messages)?;
    put_missed_fates(alloc, out, first, messages)?;
    put_line_end(alloc, out, run.full)
}

/// The line of a run beside the first.
pub(crate) fn put_run_line(
    alloc: Global,
    out: &mut Vec<u8>,
    first: &FirstFates,
    run: &SeedRun,
) -> Result<(), NoMemory>
    ensures { OnOk result (out.new.items ≡ out.old.items ++ outcomes.run_line first.now.messages.items run.now) }
{
    let logged = run.logged(alloc)?;
    let messages = fates(alloc, &logged)?;
    put_told_line(alloc, out, first, run, &messages)?;
    Ok(())
}

/// How many distinct journals there were.
pub(crate) fn put_distinct(out: &mut Vec<u8>, count: usize) -> Result<(), AllocError>
    ensures { OnOk result (out.new.items ≡ out.old.items ++ outcomes.distinct_line count) }
{
    put_line(out, "distinct", &[Text("journals"), Number(count as u64)])
}
