//! The lines of a journal, one after the other.

ghost use Rattle.am_check.specs.Lines.{IsOther, PassesLine, StopsLine, TellsOne};
ghost use Rattle.am_check_lines.specs.Grammar.{printed};
ghost use Rattle.am_check.specs.Verdict.{Reaches, StopsJournal, at_line, number_of};
ghost use Rattle.am_lexer.specs.Text.{lines_of};
ghost use Rattle.std.specs.Prelude.{◌≡◌, ◌↔◌, ◌<◌, ◌+◌, ◌-◌, ℕ, [], List, IfErr, IfOk, IsTrue, OnOk, length, take};

use crate::faults::{CheckStop, CheckWhat, LineStop};
use crate::follower::Follower;
use am_check_lines::{parse_line, printed_lines_are_read};
use am_lexer::next_line;
use am_names::NoMemory;
use am_office_entries::{Entry, Event};
use am_office_text::entry_lines::entry_line;
use std::alloc::Global;

/// Whether a printed line is this one and a newline.
fn is_line(printed: &[u8], line: &[u8]) -> bool
    requires { 0 < length printed.now }
    ensures { IsTrue result ↔ (line.now ≡ take (length printed.now - 1) printed.now) }
{
    line == &printed[..printed.len() - 1]
}

/// Whether the line of an entry is this one. `out` is room to print in.
fn is_printed(out: &mut Vec<u8>, entry: &Entry, line: &[u8]) -> Result<bool, NoMemory>
    ensures { IfOk result (λ same. IsTrue same ↔ (line.now ≡ printed entry.now)) }
{
    printed_lines_are_read();
    out.clear();
    entry_line(entry, out)?;
    Ok(is_line(out, line))
}

/// The event that a line tells, if it may come here.
fn told<F: Follower>(follower: &F, line: &[u8]) -> Result<Event, LineStop>
    ensures told { IfOk result (TellsOne F.form (F.scenario follower.now) (F.journal follower.now) line.now) }
    ensures stops { IfErr result (StopsLine F.form (F.scenario follower.now) (F.journal follower.now) line.now) }
{
    let Some(printed) = parse_line(line) else {
        return Err(LineStop::What(CheckWhat::Form));
    };
    if follower.may_come(printed.event) {
        Ok(printed.event)
    } else {
        Err(LineStop::What(CheckWhat::Follows))
    }
}

/// Whether a line is that of an entry, else why it does not pass. `out` is room to print in.
fn compare(out: &mut Vec<u8>, entry: &Entry, line: &[u8]) -> Result<(), LineStop>
    ensures same { OnOk result (line.now ≡ printed entry.now) }
    ensures other { IfErr result (IsOther entry.now line.now) }
{
    match is_printed(out, entry, line) {
        Ok(true) => Ok(()),
        Ok(false) => Err(LineStop::What(CheckWhat::Outcome)),
        Err(_) => Err(LineStop::NoMemory),
    }
}

/// Makes the entry of a line, if its event may come and its line is that of the entry. `out` is room to print in.
fn check_line<F: Follower>(follower: &mut F, line: &[u8], out: &mut Vec<u8>) -> Result<(), LineStop>
    ensures scenario { F.scenario follower.new ≡ F.scenario follower.old }
    ensures passes { OnOk result (PassesLine F.form (F.scenario follower.old) (F.journal follower.old) line.now (F.journal follower.new)) }
    ensures stops { IfErr result (StopsLine F.form (F.scenario follower.old) (F.journal follower.old) line.now) }
{
    let event = told(follower, line)?;
    match follower.make(event) {
        Ok(entry) => compare(out, &entry, line),
        Err(stop) => Err(stop),
    }
}

/// The number of the line of the entry at a place of the journal.
pub(crate) fn line_number(place: u64) -> u32
    ensures { result ≡ number_of (place + 3) }
{
    let line = place.saturating_add(3);
    if line < u64::from(u32::MAX) {
        line as u32
    } else {
        u32::MAX
    }
}

/// What a line is stopped for, by its number.
fn at_line(line: u32, stop: LineStop) -> CheckStop
    ensures { result ≡ at_line line stop }
{
    match stop {
        LineStop::What(what) => CheckStop::Fault { line, what },
        LineStop::LogFull(part) => CheckStop::LogFull(part),
        LineStop::NoMemory => CheckStop::NoMemory,
    }
}

/// Makes the entries of so many lines, from none, up to the first line that does not pass.
pub(crate) fn check_lines<F: Follower>(
    alloc: Global,
    follower: &mut F,
    count: u64,
    lines: &[u8],
) -> Result<(), CheckStop>
    requires fresh { F.journal follower.old ≡ [] }
    ensures scenario { F.scenario follower.new ≡ F.scenario follower.old }
    ensures count { OnOk result (length (F.journal follower.new) ≡ count) }
    ensures reached { OnOk result ((left : List (List ℕ)) × Reaches F.form (F.scenario follower.old) (lines_of lines.now) (F.journal follower.new) left) }
    ensures stops { IfErr result (StopsJournal F.form (F.scenario follower.old) count (lines_of lines.now)) }
{
    let mut out = Vec::new(alloc);
    let mut rest = lines;
    for place in 0..count {
        let number = line_number(place);
        let Some((line, after)) = next_line(rest) else {
            return Err(CheckStop::Fault {
                line: number,
                what: CheckWhat::Form,
            });
        };
        if let Err(stop) = check_line(follower, line, &mut out) {
            return Err(at_line(number, stop));
        }
        rest = after;
    }
    Ok(())
}
