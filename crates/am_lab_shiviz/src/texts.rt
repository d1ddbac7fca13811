//! A journal in the form that ShiViz reads.

ghost use Rattle.am_lab_shiviz.specs.Texts as specs;
ghost use Rattle.am_lab_shiviz.specs.Texts.{clock_at, clock_text, event_text, host_text, lead_after, member, member_by, members, shiviz_of};
ghost use Rattle.am_lab_shiviz.specs.Texts.{event_at};
ghost use Rattle.am_lemmas.specs.Numbered.{numbered};
ghost use Rattle.std.specs.Prelude.{◌≡◌, ◌<◌, ◌^◌, ◌++◌, [], IfOk, OnOk, length};

use crate::entries::{happenings, host};
use crate::knowledge::{Clock, clocks};
use am_lab_picture::IndexedJournal;
use am_names::{NoMemory, NodeId};
use am_office_entries::Entry;
use am_office_text::LinePiece::Text;
use am_office_text::entry_lines::entry_line;
use am_office_text::{count, put_end, put_numbered, put_word};
use am_scenario_types::EndLine;
use std::alloc::{AllocError, Global};

// Appends a node's count, behind a text.
#[tactic(auto, using(std::proofs::Common::append_assoc), unfolding(crate::specs::Texts::member))]
fn put_member(
    out: &mut Vec<u8>,
    lead: &'static str,
    node: u8,
    number: u32,
) -> Result<(), AllocError>
    ensures { OnOk result (out.new.items ≡ out.old.items ++ member lead.now node number) }
{
    put_word(out, Text(lead))?;
    put_numbered(out, "\"n", node)?;
    put_word(out, Text("\":"))?;
    put_word(out, count(number))
}

// Appends a node's count, unless it is 0.
fn put_member_by(
    out: &mut Vec<u8>,
    lead: &'static str,
    node: u8,
    number: u32,
) -> Result<(), AllocError>
    ensures { OnOk result (out.new.items ≡ out.old.items ++ member_by lead.now node number) }
{
    if number == 0 {
        return Ok(());
    }
    put_member(out, lead, node, number)
}

// What the next count stands behind.
fn lead_after(lead: &'static str, number: u32) -> &'static str
    ensures { result.now ≡ lead_after lead.now number }
{
    if number == 0 { lead } else { "," }
}

// Appends the counts of the nodes, by their numbers.
fn put_members(out: &mut Vec<u8>, counts: &[u32; 16]) -> Result<(), AllocError>
    ensures { OnOk result (out.new.items ≡ out.old.items ++ members [] 0 counts.now) }
{
    let mut lead = "";
    let mut node: u8 = 0;
    for number in counts {
        put_member_by(out, lead, node, *number)?;
        lead = lead_after(lead, *number);
        node += 1;
    }
    Ok(())
}

#[tactic(auto, using(std::proofs::Common::append_assoc), unfolding(crate::specs::Texts::clock_text))]
fn put_clock(out: &mut Vec<u8>, clock: Clock) -> Result<(), AllocError>
    ensures { OnOk result (out.new.items ≡ out.old.items ++ clock_text clock) }
{
    put_word(out, Text("{"))?;
    put_members(out, &clock.counts)?;
    put_word(out, Text("}"))
}

// Appends a node and a clock.
#[tactic(auto, using(std::proofs::Common::append_assoc), unfolding(crate::specs::Texts::host_text))]
fn put_host(out: &mut Vec<u8>, node: NodeId, clock: Clock) -> Result<(), AllocError>
    ensures { OnOk result (out.new.items ≡ out.old.items ++ host_text node clock) }
{
    put_numbered(out, "n", node.0)?;
    put_word(out, Text(" "))?;
    put_clock(out, clock)
}

// Appends the two lines of an entry.
#[tactic(auto, using(std::proofs::Common::append_assoc))]
fn put_event(out: &mut Vec<u8>, node: NodeId, clock: Clock, entry: &Entry) -> Result<(), NoMemory>
    ensures { OnOk result (out.new.items ≡ out.old.items ++ event_text node clock entry.now) }
{
    put_host(out, node, clock)?;
    put_end(out)?;
    entry_line(entry, out)
}

fn clock_at(clocks: &[Clock], place: usize) -> Clock
    ensures { result ≡ clock_at clocks.now place }
{
    clocks.get(place).copied().unwrap_or(Clock::NOTHING)
}

// Appends the lines of the entry at a place.
fn put_event_at(
    out: &mut Vec<u8>,
    ends: &[EndLine],
    clocks: &[Clock],
    place: usize,
    entry: &Entry,
) -> Result<(), NoMemory>
    ensures { OnOk result (out.new.items ≡ out.old.items ++ event_at ends.now clocks.now place entry.now) }
{
    put_event(out, host(ends, entry.event), clock_at(clocks, place), entry)
}

// Appends the lines of entries with these clocks.
fn put_events(
    out: &mut Vec<u8>,
    ends: &[EndLine],
    clocks: &[Clock],
    entries: &[Entry],
) -> Result<(), NoMemory>
    ensures { OnOk result (out.new.items ≡ out.old.items ++ numbered (event_at ends.now clocks.now) 0 entries.now) }
{
    for (place, entry) in entries.iter().enumerate() {
        put_event_at(out, ends, clocks, place, entry)?;
    }
    Ok(())
}

/// The text that ShiViz reads, of a journal whose endpoints are on the nodes of these lines: for each entry, in order, a line with its
/// node and its clock, as `n1 {"n0":1,"n1":3}`, and the entry's line in the report (`shiviz_of` of specs/Texts).
///
/// `NoMemory` comes where there is none for the clocks or for the text; then nothing is left of them.
pub fn shiviz_text(
    alloc: Global,
    ends: &[EndLine],
    journal: &IndexedJournal,
) -> Result<Vec<u8>, NoMemory>
    requires { length journal.now < 2 ^ 31 }
    ensures { IfOk result (λ text. text.items ≡ shiviz_of ends.now journal.now) }
{
    let happenings = happenings(alloc, ends, journal)?;
    let clocks = clocks(alloc, &happenings)?;
    let mut out = Vec::new(alloc);
    put_events(&mut out, ends, &clocks, journal.entries())?;
    Ok(out)
}
