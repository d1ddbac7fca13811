//! What became of a message, and why.

ghost use Rattle.am_lab_reasons.specs.Reasons.{cause_text, end_text, ending, entry_lines, fate_text, place_text, reasons, touching_lines};
ghost use Rattle.am_lemmas.specs.Numbered.{numbered};
ghost use Rattle.std.specs.Prelude.{◌≡◌, ◌<◌, ◌^◌, ◌++◌, OnOk, length};

use crate::packets::put_packet;
use crate::receipts::TracedJournal;
use crate::touches::touches;
use crate::whereabouts::{Whereabouts, where_is};
use am_iface::emitted_of;
use am_names::{Cause, NoMemory, Serial};
use am_office_entries::{Entry, Fate, fate};
use am_office_text::LinePiece::{Number, Text};
use am_office_text::entry_lines::entry_line;
use am_office_text::{LinePiece, put_word};
use am_scenario_plan::PlanLine;
use std::alloc::AllocError;

// Appends an entry with the number of its line, and what became of the packet that it emits.
#[tactic(auto, using(std::proofs::Common::append_assoc))]
fn put_entry(
    out: &mut Vec<u8>,
    plan: &[PlanLine],
    journal: &TracedJournal,
    line: u64,
    entry: &Entry,
) -> Result<(), NoMemory>
    requires { length journal.now < 2 ^ 31 }
    ensures { OnOk result (out.new.items ≡ out.old.items ++ entry_lines plan.now journal.now line entry.now) }
{
    put_word(out, Text("line "))?;
    put_word(out, Number(line))?;
    put_word(out, Text(" "))?;
    entry_line(entry, out)?;
    put_packet(out, plan, journal, emitted_of(entry))?;
    Ok(())
}

// Appends an entry, if it touches the message.
fn put_touching(
    out: &mut Vec<u8>,
    plan: &[PlanLine],
    journal: &TracedJournal,
    serial: Serial,
    line: u64,
    entry: &Entry,
) -> Result<(), NoMemory>
    requires { length journal.now < 2 ^ 31 }
    ensures { OnOk result (out.new.items ≡ out.old.items ++ touching_lines plan.now journal.now serial line entry.now) }
{
    if touches(serial, entry) {
        put_entry(out, plan, journal, line, entry)
    } else {
        Ok(())
    }
}

// Appends those of these entries that touch the message.
fn put_touched(
    out: &mut Vec<u8>,
    plan: &[PlanLine],
    journal: &TracedJournal,
    entries: &[Entry],
    serial: Serial,
) -> Result<(), NoMemory>
    requires journal { length journal.now < 2 ^ 31 }
    requires entries { length entries.now < 2 ^ 31 }
    ensures { OnOk result (out.new.items ≡ out.old.items ++ numbered (touching_lines plan.now journal.now serial) 3 entries.now) }
{
    let mut line: u64 = 3;
    for entry in entries {
        put_touching(out, plan, journal, serial, line, entry)?;
        line += 1;
    }
    Ok(())
}

#[tactic(auto, unfolding(crate::specs::Reasons::cause_text))]
fn cause_text(cause: Cause) -> &'static str
    ensures { result.now ≡ cause_text cause }
{
    match cause {
        Cause::NoEndpoint => "returned: its destination was closed\n",
        Cause::NotResident => {
            "returned: its destination was in no frame, as often as it may bounce\n"
        }
        Cause::BadTag => "returned: its tag did not match that of its destination\n",
        Cause::BadHandler => "returned: its destination has no such handler\n",
        Cause::QueueFull => "returned: its destination had no room, as often as it may bounce\n",
        Cause::NoRequest => "returned: its destination awaits no reply to such a request\n",
    }
}

#[tactic(auto, unfolding(crate::specs::Reasons::place_text))]
fn place_text(place: Whereabouts) -> &'static str
    ensures { result.now ≡ place_text place }
{
    match place {
        Whereabouts::Waiting => "pending: it waits to be sent\n",
        Whereabouts::Underway => "pending: it was sent, and no answer has come\n",
        Whereabouts::PutBack => "pending: it was put back, to be sent again\n",
        Whereabouts::Put => "pending: it was put at its destination, and no poll ran it\n",
    }
}

#[tactic(auto, unfolding(crate::specs::Reasons::fate_text))]
fn fate_text(place: Whereabouts, fate: Fate) -> &'static str
    ensures { result.now ≡ fate_text place fate }
{
    match fate {
        Fate::Ran => "ran: a poll at its destination ran it\n",
        Fate::Returned(cause) => cause_text(cause),
        Fate::Unknown => "unknown: its last try timed out with no answer, and no poll ran it\n",
        Fate::UnknownButRan => {
            "unknown-but-ran: its last try timed out with no answer, and a poll ran it\n"
        }
        Fate::Pending => place_text(place),
    }
}

fn end_text(place: Whereabouts, fate: Option<Fate>) -> &'static str
    ensures { result.now ≡ end_text place fate }
{
    match fate {
        Some(fate) => fate_text(place, fate),
        None => "was never accepted\n",
    }
}

// Appends what became of the message at the end.
#[tactic(auto, using(std::proofs::Common::append_assoc))]
fn put_ending(
    out: &mut Vec<u8>,
    serial: Serial,
    place: Whereabouts,
    fate: Option<Fate>,
) -> Result<(), AllocError>
    ensures { OnOk result (out.new.items ≡ out.old.items ++ ending serial place fate) }
{
    put_word(out, Text("message "))?;
    put_word(out, LinePiece::Serial(serial))?;
    put_word(out, Text(" "))?;
    put_word(out, Text(end_text(place, fate)))
}

/// Appends the lines of a journal that touch a message, and its fate.
#[tactic(auto, using(std::proofs::Common::append_assoc))]
pub(crate) fn put_reasons(
    out: &mut Vec<u8>,
    plan: &[PlanLine],
    journal: &TracedJournal,
    serial: Serial,
) -> Result<(), NoMemory>
    requires { length journal.now < 2 ^ 31 }
    ensures { OnOk result (out.new.items ≡ out.old.items ++ reasons plan.now journal.now serial) }
{
    put_touched(out, plan, journal, journal.entries(), serial)?;
    let place = where_is(journal.entries(), serial);
    put_ending(out, serial, place, fate(journal.journal(), serial))?;
    Ok(())
}
