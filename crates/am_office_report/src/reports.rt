//! The report of a journal.

ghost use Rattle.std.specs.Prelude.{◌≡◌, List, [], ◌∷◌, ◌++◌, OnOk, IfOk, codes};
ghost use Rattle.std.specs.Fmt.{decimal};
ghost use Rattle.std.specs.List.{flat_map};
ghost use Rattle.am_office_entries.specs.declared.Entry.{Entry};
ghost use Rattle.am_office_entries.specs.Logged.Behind.{entries_behind};
ghost use Rattle.am_office_text.specs.Pieces.{Extends};
ghost use Rattle.am_office_text.specs.Words as printed;
ghost use Rattle.am_office_text.specs.Words.{line, spaced};
ghost use Rattle.am_office_text.specs.EntryLines.Lines.{line_of};
ghost use Rattle.am_office_report.specs.Report as text;
ghost use Rattle.am_office_report.specs.Tables.{AreRuns, HasHeard};

use crate::heard::{Heard, told};
use crate::messages::MessageFate;
use crate::runs::{Run, RunTable};
use crate::totals::totals_of;
use am_names::{EndpointId, Serial, Words};
use am_office_entries::logged::LoggedJournal;
use am_office_entries::{Entry, Fate, NoMemory};
use am_office_text::LinePiece::{Number, Text};
use am_office_text::entry_lines::entry_line;
use am_office_text::{
    LinePiece, cause_word, kind_word, put_end, put_line, put_numbers, put_spaced, put_word, small,
    why_word,
};
use std::alloc::{AllocError, Global};

#[tactic(auto, using(std::proofs::Common::append_assoc, am_office_entries::proofs::Entries::length_behind, crate::proofs::Printing::lines_next))]
fn put_entries(out: &mut Vec<u8>, entries: &[&Entry]) -> Result<(), AllocError>
    ensures { OnOk result (out.new.items ≡ out.old.items ++ flat_map line_of (entries_behind entries.now)) }
{
    for entry in entries {
        match entry_line(entry, out) {
            Ok(()) => {}
            Err(NoMemory) => return Err(AllocError),
        }
    }
    Ok(())
}

#[tactic(auto, using(am_office_entries::proofs::Entries::length_behind), unfolding(crate::specs::Report::entries_line))]
fn put_count(out: &mut Vec<u8>, entries: &[&Entry]) -> Result<(), AllocError>
    ensures { OnOk result (out.new.items ≡ out.old.items ++ text.entries_line (entries_behind entries.now)) }
{
    put_line(out, "entries", &[Number(entries.len() as u64)])
}

// The line of a run of a handler.
fn put_handled(
    out: &mut Vec<u8>,
    serial: Serial,
    handler: u8,
    words: Words,
) -> Result<(), AllocError>
    ensures { OnOk result (out.new.items ≡ out.old.items ++ line (codes "run") (printed.serial serial ∷ decimal handler ∷ decimal words.a ∷ decimal words.b ∷ decimal words.c ∷ decimal words.d ∷ [])) }
{
    put_word(out, Text("run"))?;
    put_spaced(out, &[LinePiece::Serial(serial)])?;
    put_numbers(
        out,
        &[u64::from(handler), words.a, words.b, words.c, words.d],
    )?;
    put_end(out)
}

#[tactic(auto, unfolding(crate::specs::Report::run_line))]
fn put_run(out: &mut Vec<u8>, run: &Run) -> Result<(), AllocError>
    ensures { OnOk result (out.new.items ≡ out.old.items ++ text.run_line run.now) }
{
    match *run {
        Run::Handled {
            serial,
            handler,
            words,
        } => put_handled(out, serial, handler, words),
        Run::Zero { serial, why } => {
            put_line(
                out,
                "zero",
                &[LinePiece::Serial(serial), Text(why_word(why))],
            )
        }
    }
}

fn put_runs(out: &mut Vec<u8>, runs: &[Run]) -> Result<(), AllocError>
    ensures { OnOk result (out.new.items ≡ out.old.items ++ flat_map text.run_line runs.now) }
{
    for run in runs {
        put_run(out, run)?;
    }
    Ok(())
}

#[tactic(auto, using(std::proofs::Common::append_assoc), unfolding(crate::specs::Report::end_part))]
fn put_end_part(out: &mut Vec<u8>, table: &RunTable, end: EndpointId) -> Result<(), AllocError>
    ensures { (journal : List Entry) → AreRuns table.now journal → OnOk result (out.new.items ≡ out.old.items ++ text.end_part journal end) }
{
    let runs = table.at(end);
    let number = Number(runs.len() as u64);
    put_line(out, "endpoint", &[small(end.0), Text("runs"), number])?;
    put_runs(out, runs)
}

fn put_ends(out: &mut Vec<u8>, table: &RunTable, ends: &[EndpointId]) -> Result<(), AllocError>
    ensures { (journal : List Entry) → AreRuns table.now journal → OnOk result (out.new.items ≡ out.old.items ++ flat_map (text.end_part journal) ends.now) }
{
    for end in ends {
        put_end_part(out, table, *end)?;
    }
    Ok(())
}

// Appends the parts of these endpoints, and gives the memory of the table back.
fn end_parts(out: &mut Vec<u8>, table: RunTable, ends: &[EndpointId]) -> Result<(), AllocError>
    ensures { (journal : List Entry) → AreRuns table journal → OnOk result (out.new.items ≡ out.old.items ++ flat_map (text.end_part journal) ends.now) }
{
    put_ends(out, &table, ends)
}

/// Appends the words of a fate, each after a space, as the report's line of a message ends. What was there stays, also after
/// an error.
#[tactic(auto, unfolding(crate::specs::Report::fate, am_office_text::specs::Words::spaced))]
pub fn put_fate(out: &mut Vec<u8>, fate: Fate) -> Result<(), AllocError>
    ensures ok { OnOk result (out.new.items ≡ out.old.items ++ spaced (text.fate fate)) }
    ensures kept { Extends out.old.items out.new.items }
{
    match fate {
        Fate::Ran => put_word(out, Text(" ran")),
        Fate::Returned(cause) => put_spaced(out, &[Text("returned"), Text(cause_word(cause))]),
        Fate::Unknown => put_word(out, Text(" unknown")),
        Fate::UnknownButRan => put_word(out, Text(" unknown-but-ran")),
        Fate::Pending => put_word(out, Text(" pending")),
    }
}

fn put_message(out: &mut Vec<u8>, message: &MessageFate) -> Result<(), AllocError>
    ensures { OnOk result (out.new.items ≡ out.old.items ++ text.fate_line message.now) }
{
    put_word(out, Text("fate"))?;
    let kind = Text(kind_word(message.kind));
    put_spaced(out, &[LinePiece::Serial(message.serial), kind])?;
    put_fate(out, message.fate)?;
    put_end(out)
}

fn put_fates(out: &mut Vec<u8>, messages: &[MessageFate]) -> Result<(), AllocError>
    ensures { OnOk result (out.new.items ≡ out.old.items ++ flat_map text.fate_line messages.now) }
{
    for message in messages {
        put_message(out, message)?;
    }
    Ok(())
}

/// Appends how many of the messages have each fate, each word after a space, as the report's last line has it behind its
/// first word. What was there stays, also after an error.
pub fn put_total_words(out: &mut Vec<u8>, messages: &[MessageFate]) -> Result<(), AllocError>
    ensures ok { OnOk result (out.new.items ≡ out.old.items ++ spaced (text.total_words messages.now)) }
    ensures kept { Extends out.old.items out.new.items }
{
    let totals = totals_of(messages);
    put_spaced(
        out,
        &[
            Text("ran"),
            Number(totals.ran),
            Text("returned"),
            Number(totals.returned),
            Text("unknown"),
            Number(totals.unknown),
            Text("unknown-but-ran"),
            Number(totals.unknown_but_ran),
            Text("pending"),
            Number(totals.pending),
        ],
    )
}

#[tactic(auto, using(std::proofs::Common::append_assoc), unfolding(crate::specs::Report::totals))]
fn put_totals(out: &mut Vec<u8>, messages: &[MessageFate]) -> Result<(), AllocError>
    ensures { OnOk result (out.new.items ≡ out.old.items ++ text.totals messages.now) }
{
    put_word(out, Text("totals"))?;
    put_total_words(out, messages)?;
    put_end(out)
}

#[tactic(auto, using(std::proofs::Common::append_assoc), unfolding(crate::specs::Report::messages_part))]
fn put_messages(out: &mut Vec<u8>, messages: &[MessageFate]) -> Result<(), AllocError>
    ensures { OnOk result (out.new.items ≡ out.old.items ++ text.messages_part messages.now) }
{
    put_line(out, "messages", &[Number(messages.len() as u64)])?;
    put_fates(out, messages)?;
    put_totals(out, messages)
}

// Appends the line of an entry, and takes it in among the runs and the news.
fn walk_over(
    out: &mut Vec<u8>,
    runs: &mut RunTable,
    heard: &mut Heard,
    entry: &Entry,
) -> Result<(), AllocError>
    ensures line { OnOk result (out.new.items ≡ out.old.items ++ line_of entry.now) }
    ensures runs { (past : List Entry) → AreRuns runs.old past → OnOk result (AreRuns runs.new (past ++ entry.now ∷ [])) }
    ensures heard { (past : List Entry) → HasHeard heard.old past → OnOk result (HasHeard heard.new (past ++ entry.now ∷ [])) }
{
    if let Err(NoMemory) = entry_line(entry, out) {
        return Err(AllocError);
    }
    runs.add(entry)?;
    heard.hear(entry)
}

// Walks over a journal once: appends its lines, and takes in what ran and what is heard of the messages.
#[tactic(auto, using(am_office_entries::proofs::Entries::length_behind))]
fn walk(
    out: &mut Vec<u8>,
    runs: &mut RunTable,
    heard: &mut Heard,
    entries: &[&Entry],
) -> Result<(), AllocError>
    ensures lines { OnOk result (out.new.items ≡ out.old.items ++ flat_map line_of (entries_behind entries.now)) }
    ensures runs { AreRuns runs.old [] → OnOk result (AreRuns runs.new (entries_behind entries.now)) }
    ensures heard { HasHeard heard.old [] → OnOk result (HasHeard heard.new (entries_behind entries.now)) }
{
    for entry in entries {
        walk_over(out, runs, heard, entry)?;
    }
    Ok(())
}

#[tactic(auto, using(std::proofs::Common::append_assoc), unfolding(crate::specs::Report::report))]
fn text(alloc: Global, ends: &[EndpointId], entries: &[&Entry]) -> Result<Vec<u8>, AllocError>
    ensures { IfOk result (λ bytes. bytes.items ≡ text.report ends.now (entries_behind entries.now)) }
{
    let mut runs = RunTable::new(alloc)?;
    let mut heard = Heard::new(alloc)?;
    let mut out = Vec::new(alloc);
    put_line(&mut out, "am2", &[Text("report"), Text("1")])?;
    put_count(&mut out, entries)?;
    walk(&mut out, &mut runs, &mut heard, entries)?;
    end_parts(&mut out, runs, ends)?;
    let messages = heard.told(alloc)?;
    put_messages(&mut out, &messages)?;
    Ok(out)
}

/// The report of a journal whose scenario declares these endpoints, which stand in ascending order: the journal's
/// lines, the runs at each endpoint, each accepted message with its fate in ascending order of source and count, and
/// how many messages have each fate (`report` of `specs/Report.antt`). It is exact for every journal, also for one that
/// is no history: a serial that is accepted twice has one line there, with the kind of its last acceptance.
/// It goes over the entries once, whatever the number of endpoints and messages, with a table of the runs of each
/// endpoint and one of the messages of each source, in ascending order of count, and what was said of fates in order. In
/// a history each message's place there is known from its count; in another journal it is searched. Where there is no
/// memory it answers `NoMemory`.
pub fn report(
    alloc: Global,
    ends: &[EndpointId],
    journal: &LoggedJournal,
) -> Result<Vec<u8>, NoMemory>
    ensures { IfOk result (λ bytes. bytes.items ≡ text.report ends.now journal.now) }
{
    match text(alloc, ends, journal.entries()) {
        Ok(bytes) => Ok(bytes),
        Err(_) => Err(NoMemory),
    }
}

#[tactic(auto, using(std::proofs::Common::append_assoc), unfolding(crate::specs::Report::summary))]
fn two_lines(alloc: Global, entries: &[&Entry]) -> Result<Vec<u8>, AllocError>
    ensures { IfOk result (λ bytes. bytes.items ≡ text.summary (entries_behind entries.now)) }
{
    let messages = told(alloc, entries)?;
    let mut out = Vec::new(alloc);
    put_count(&mut out, entries)?;
    put_totals(&mut out, &messages)?;
    Ok(out)
}

/// The second line of a journal's report and its last line, whatever the endpoints: how many entries there are, and how
/// many messages have each fate (`summary` of `specs/Report.antt`). It is exact for every journal.
/// It goes over the entries once. Where there is no memory it answers `NoMemory`.
pub fn summary(alloc: Global, journal: &LoggedJournal) -> Result<Vec<u8>, NoMemory>
    ensures { IfOk result (λ bytes. bytes.items ≡ text.summary journal.now) }
{
    match two_lines(alloc, journal.entries()) {
        Ok(bytes) => Ok(bytes),
        Err(_) => Err(NoMemory),
    }
}

/// The accepted messages of a journal, each serial once, in ascending order of source and count, with their fates: those of
/// the report's lines of messages (`told` of `specs/Report.antt`). It is exact for every journal.
/// It goes over the entries once. Where there is no memory it answers `NoMemory`.
pub fn fates(alloc: Global, journal: &LoggedJournal) -> Result<Vec<MessageFate>, NoMemory>
    ensures { IfOk result (λ fates. fates.items ≡ text.told journal.now) }
{
    match told(alloc, journal.entries()) {
        Ok(fates) => Ok(fates),
        Err(_) => Err(NoMemory),
    }
}

/// The lines of a journal, as its report has them. Where there is no memory it answers `NoMemory`.
pub fn journal_lines(alloc: Global, journal: &LoggedJournal) -> Result<Vec<u8>, NoMemory>
    ensures { IfOk result (λ lines. lines.items ≡ flat_map line_of journal.now) }
{
    let mut lines = Vec::new(alloc);
    put_entries(&mut lines, journal.entries())?;
    Ok(lines)
}
