//! The lines that tell what was due.

ghost use Rattle.am_lab_reasons.specs.Due.Texts.{due_entry, due_line, next_line};
ghost use Rattle.am_lab_reasons.specs.Due.Choices.{step_line};
ghost use Rattle.std.specs.Prelude.{◌≡◌, ◌++◌, OnOk, Some, option_map};

use am_names::NoMemory;
use am_office_entries::{Entry, Event, Outcome};
use am_office_text::LinePiece::Text;
use am_office_text::entry_lines::entry_line;
use am_office_text::{put_end, put_word};
use std::alloc::AllocError;

/// Appends an event that might have come.
#[tactic(auto, using(std::proofs::Common::append_assoc))]
pub(crate) fn put_next(out: &mut Vec<u8>, event: Event) -> Result<(), NoMemory>
    ensures { OnOk result (out.new.items ≡ out.old.items ++ next_line event) }
{
    put_word(out, Text("next "))?;
    let entry = Entry {
        stamp: 0,
        event,
        outcome: Outcome::Silent,
    };
    entry_line(&entry, out)
}

/// Appends the step that is next, or that none is.
pub(crate) fn put_step(out: &mut Vec<u8>, event: Option<Event>) -> Result<(), NoMemory>
    ensures { OnOk result (out.new.items ≡ out.old.items ++ step_line event) }
{
    match event {
        Some(event) => put_next(out, event),
        None => {
            put_word(out, Text("next nothing\n"))?;
            Ok(())
        }
    }
}

/// Appends the line of an entry that was due.
#[tactic(auto, using(std::proofs::Common::append_assoc))]
pub(crate) fn put_due_entry(out: &mut Vec<u8>, entry: &Entry) -> Result<(), NoMemory>
    ensures { OnOk result (out.new.items ≡ out.old.items ++ due_entry entry.now) }
{
    put_word(out, Text("due "))?;
    entry_line(entry, out)
}

#[tactic(auto, using(std::proofs::Common::append_assoc))]
fn put_text(out: &mut Vec<u8>, text: &[u8]) -> Result<(), AllocError>
    ensures { OnOk result (out.new.items ≡ out.old.items ++ due_line (Some text.now)) }
{
    put_word(out, Text("due "))?;
    out.extend_from_slice(text)?;
    put_end(out)
}

/// Appends a line that was due, or that none was.
pub(crate) fn put_due_line(out: &mut Vec<u8>, text: Option<&[u8]>) -> Result<(), AllocError>
    ensures { OnOk result (out.new.items ≡ out.old.items ++ due_line (option_map (λ t. t.now) text.entry)) }
{
    match text {
        Some(text) => put_text(out, text),
        None => put_word(out, Text("due nothing\n")),
    }
}
