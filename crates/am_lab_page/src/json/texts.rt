//! The texts of an entry as JSON strings: who acts, what happens and what came of it, in the words of the report's line.
//!
//! The words are cut out of printed lines: an event's from the line of an entry that has no outcome, behind who acts; an
//! outcome's from the line of the entry, behind all that the first line has.

ghost use Rattle.am_lab_page.specs.Json.Objects.{left_line, quoted, spread, text_part, text_value};
ghost use Rattle.am_office_text.specs.EntryLines.Lines as lines;
ghost use Rattle.std.specs.Prelude.{◌≡◌, ◌-◌, ◌<◌, ◌++◌, IfOk, OnOk, drop, length, take};

use am_names::NoMemory;
use am_office_entries::{Actor, Entry, Event, Outcome};
use am_office_text::LinePiece::Text;
use am_office_text::entry_lines::entry_line;
use am_office_text::{put_bytes, put_numbered, put_word};
use std::alloc::{AllocError, Global};

#[tactic(auto, using(std::proofs::Common::append_assoc), unfolding(crate::specs::Json::Objects::quoted))]
fn put_quoted(out: &mut Vec<u8>, text: &[u8]) -> Result<(), AllocError>
    ensures { OnOk result (out.new.items ≡ out.old.items ++ quoted text.now) }
{
    put_bytes(out, b"\"")?;
    put_bytes(out, text)?;
    put_bytes(out, b"\"")
}

#[tactic(auto, unfolding(am_office_text::specs::EntryLines::Lines::actor))]
fn put_actor(out: &mut Vec<u8>, actor: Actor) -> Result<(), AllocError>
    ensures { OnOk result (out.new.items ≡ out.old.items ++ lines.actor actor) }
{
    match actor {
        Actor::Thread(thread) => put_numbered(out, "t", thread),
        Actor::Outside => put_word(out, Text("x")),
    }
}

// Appends who acts.
#[tactic(auto, unfolding(am_office_text::specs::EntryLines::Lines::who, am_office_text::specs::EntryLines::Lines::interface, am_office_text::specs::EntryLines::Lines::driver))]
fn put_who(out: &mut Vec<u8>, event: Event) -> Result<(), AllocError>
    ensures { OnOk result (out.new.items ≡ out.old.items ++ lines.who event) }
{
    match event {
        Event::Call { actor, .. } | Event::Want { actor, .. } => put_actor(out, actor),
        Event::Carry { .. } => put_word(out, Text("x")),
        Event::Bind { node, .. } | Event::Expire { node, .. } | Event::Receive { node, .. } => {
            put_numbered(out, "i", node.0)
        }
        Event::Drain { node, .. }
        | Event::Unload { node, .. }
        | Event::Load { node, .. }
        | Event::PageOut { node, .. }
        | Event::PageIn { node, .. } => put_numbered(out, "d", node.0),
    }
}

// Appends the line of an entry with this event and no outcome.
fn put_left(out: &mut Vec<u8>, event: Event) -> Result<(), NoMemory>
    ensures { OnOk result (out.new.items ≡ out.old.items ++ left_line event) }
{
    let entry = Entry {
        stamp: 0,
        event,
        outcome: Outcome::Silent,
    };
    entry_line(&entry, out)
}

// The line of an entry with this event and no outcome.
fn left_text(alloc: Global, event: Event) -> Result<Vec<u8>, NoMemory>
    ensures { IfOk result (λ left. left.items ≡ left_line event) }
{
    let mut left = Vec::new(alloc);
    put_left(&mut left, event)?;
    Ok(left)
}

// How many bytes tell who acts.
fn who_length(alloc: Global, event: Event) -> Result<usize, NoMemory>
    ensures { IfOk result (λ size. size ≡ length (lines.who event)) }
{
    let mut who = Vec::new(alloc);
    put_who(&mut who, event)?;
    Ok(who.len())
}

// What a line has behind so many bytes, without its newline.
fn behind(line: &[u8], front: usize) -> &[u8]
    requires { front < length line.now }
    ensures { result.now ≡ take (length line.now - 1 - front) (drop front line.now) }
{
    &line[front..line.len() - 1]
}

// The words of an event, out of the line of an entry with no outcome: behind who acts and a space.
#[tactic(auto, using(crate::proofs::Cutting::event_room, crate::proofs::Cutting::event_cut))]
fn event_words(left: &[u8], who: usize, event: Event) -> &[u8]
    requires left { left.now ≡ left_line event }
    requires who { who ≡ length (lines.who event) }
    ensures { result.now ≡ spread (lines.what event) }
{
    behind(left, who + 1)
}

// Appends the words of an event in quotes.
fn put_event(out: &mut Vec<u8>, alloc: Global, event: Event) -> Result<(), NoMemory>
    ensures { OnOk result (out.new.items ≡ out.old.items ++ quoted (spread (lines.what event))) }
{
    let who = who_length(alloc, event)?;
    let left = left_text(alloc, event)?;
    put_quoted(out, event_words(&left, who, event))?;
    Ok(())
}

// Appends the words of an outcome in quotes, out of the entry's line, which is longer than the one with no outcome; or that
// there are none.
#[tactic(auto, using(crate::proofs::Cutting::no_outcome, crate::proofs::Cutting::outcome_room, crate::proofs::Cutting::outcome_cut))]
fn put_outcome_of(
    out: &mut Vec<u8>,
    whole: &[u8],
    left: usize,
    entry: &Entry,
) -> Result<(), AllocError>
    requires whole { whole.now ≡ lines.line_of entry.now }
    requires left { left ≡ length (left_line entry.now.event) }
    ensures { OnOk result (out.new.items ≡ out.old.items ++ text_value (lines.outcome entry.now.outcome)) }
{
    if whole.len() == left {
        put_bytes(out, b"null")
    } else {
        put_quoted(out, behind(whole, left + 3))
    }
}

// Appends the words of an outcome in quotes, or that the entry has none.
fn put_outcome(out: &mut Vec<u8>, alloc: Global, entry: &Entry) -> Result<(), NoMemory>
    ensures { OnOk result (out.new.items ≡ out.old.items ++ text_value (lines.outcome entry.now.outcome)) }
{
    let left = left_text(alloc, entry.event)?;
    let mut whole = Vec::new(alloc);
    entry_line(entry, &mut whole)?;
    put_outcome_of(out, &whole, left.len(), entry)?;
    Ok(())
}

// Appends who acts in quotes.
#[tactic(auto, using(std::proofs::Common::append_assoc), unfolding(crate::specs::Json::Objects::quoted))]
fn put_actor_text(out: &mut Vec<u8>, event: Event) -> Result<(), AllocError>
    ensures { OnOk result (out.new.items ≡ out.old.items ++ quoted (lines.who event)) }
{
    put_bytes(out, b"\"")?;
    put_who(out, event)?;
    put_bytes(out, b"\"")
}

/// Appends the members of an entry's object that tell its texts.
#[tactic(auto, using(std::proofs::Common::append_assoc), unfolding(crate::specs::Json::Objects::text_part))]
pub(crate) fn put_texts(out: &mut Vec<u8>, alloc: Global, entry: &Entry) -> Result<(), NoMemory>
    ensures { OnOk result (out.new.items ≡ out.old.items ++ text_part entry.now) }
{
    put_bytes(out, b",\"actor\":")?;
    put_actor_text(out, entry.event)?;
    put_bytes(out, b",\"event\":")?;
    put_event(out, alloc, entry.event)?;
    put_bytes(out, b",\"outcome\":")?;
    put_outcome(out, alloc, entry)
}
