//! The report of a session.

ghost use Rattle.am_restart.specs.Fates.{messages};
ghost use Rattle.am_restart.specs.Fates as entries_tell;
ghost use Rattle.am_restart.specs.declared.events.SessionEntry.{SessionEntry};
ghost use Rattle.am_session.specs.Lines.{line_of};
ghost use Rattle.am_session.specs.Report as text;
ghost use Rattle.am_session.specs.Tables.{AreKnown};
ghost use Rattle.std.specs.List.{flat_map};
ghost use Rattle.std.specs.Prelude.{◌≡◌, ◌++◌, List, IfOk, OnOk};

use crate::fates::{Known, known_in, known_of};
use crate::printing::{fate_word, put_entry};
use am_names::NoMemory;
use am_office_text::LinePiece::{Number, Text};
use am_office_text::put_line;
use am_restart::{SessionEntry, SessionOutcome};
use std::alloc::{AllocError, Global};
use std::collections::BTreeMap;

fn put_entries(out: &mut Vec<u8>, entries: &[SessionEntry]) -> Result<(), AllocError>
    ensures { OnOk result (out.new.items ≡ out.old.items ++ flat_map line_of entries.now) }
{
    for entry in entries {
        put_entry(out, *entry)?;
    }
    Ok(())
}

fn is_offered(outcome: SessionOutcome) -> bool
    ensures { result ≡ entries_tell.is_offered outcome }
{
    matches!(outcome, SessionOutcome::Offered(_))
}

// How many messages were offered.
fn messages(entries: &[SessionEntry]) -> usize
    ensures { result ≡ messages entries.now }
{
    entries
        .iter()
        .filter(|entry| is_offered(entry.outcome))
        .count()
}

// The fate of one message.
#[tactic(auto, unfolding(crate::specs::Report::fate_line))]
fn put_fate(out: &mut Vec<u8>, table: &BTreeMap<u64, Known>, message: u64) -> Result<(), AllocError>
    ensures { (entries : List SessionEntry) → AreKnown table.now entries → OnOk result (out.new.items ≡ out.old.items ++ text.fate_line entries message) }
{
    let fate = known_in(table, message).fate();
    put_line(out, "fate", &[Number(message), Text(fate_word(fate))])
}

// The fates of so many messages.
fn put_fates(
    out: &mut Vec<u8>,
    table: &BTreeMap<u64, Known>,
    count: usize,
) -> Result<(), AllocError>
    ensures { (entries : List SessionEntry) → AreKnown table.now entries → OnOk result (out.new.items ≡ out.old.items ++ text.fate_lines entries count) }
{
    for before in 0..count {
        put_fate(out, table, before as u64 + 1)?;
    }
    Ok(())
}

#[tactic(auto, using(std::proofs::Common::append_assoc), unfolding(crate::specs::Report::report))]
fn text(alloc: Global, entries: &[SessionEntry]) -> Result<Vec<u8>, AllocError>
    ensures { IfOk result (λ bytes. bytes.items ≡ text.report entries.now) }
{
    let table = known_of(alloc, entries)?;
    let count = messages(entries);
    let mut out = Vec::new(alloc);
    put_line(&mut out, "session", &[Text("report"), Text("1")])?;
    put_line(&mut out, "entries", &[Number(entries.len() as u64)])?;
    put_entries(&mut out, entries)?;
    put_line(&mut out, "messages", &[Number(count as u64)])?;
    put_fates(&mut out, &table, count)?;
    Ok(out)
}

/// The report of the entries of a session: their lines, and the fate of each message that was offered (`report` of
/// `specs/Report.antt`). It goes over the entries three times, with a table from messages to what is known of them. Where there is
/// no memory it answers `NoMemory`.
pub fn session_report(alloc: Global, entries: &[SessionEntry]) -> Result<Vec<u8>, NoMemory>
    ensures { IfOk result (λ bytes. bytes.items ≡ text.report entries.now) }
{
    match text(alloc, entries) {
        Ok(bytes) => Ok(bytes),
        Err(_) => Err(NoMemory),
    }
}
