//! The lines of a printed journal, read back: the event that a line tells. Nothing here takes memory.
#![tactic(auto)]

ghost use Rattle.am_check_lines.specs.Grammar.{IsLineOf};
ghost use Rattle.am_check_lines.specs.Reading.{Gives, event_of, has_more, is_right_side, words_behind};
ghost use Rattle.am_check_lines.specs.Laws.{LinesAreRead, PrintedLinesAreLines};
ghost use Rattle.am_office_entries.specs.declared.Event.{Event as Happening};
ghost use Rattle.std.specs.Prelude.{◌≡◌, IfSome, None};

mod calls;
mod events;
mod numbers;
mod words;

use crate::events::take_event;
use crate::words::{is_word, take_word};
use am_office_entries::Event;
pub use numbers::printed_number;

/// What a line of a printed journal tells.
#[derive(Clone, Copy, PartialEq, Eq)]
pub struct PrintedEntry {
    pub event: Event,
}

fn has_more(rest: &[u8]) -> bool
    ensures { result ≡ has_more (words_behind rest.now) }
{
    match take_word(rest) {
        None => false,
        Some((word, rest)) => !word.is_empty() || take_word(rest).is_some(),
    }
}

#[tactic(auto, unfolding(crate::specs::Reading::is_right_side))]
fn is_right_side(rest: &[u8]) -> bool
    ensures { result ≡ is_right_side (words_behind rest.now) }
{
    match take_word(rest) {
        None => true,
        Some((arrow, rest)) => is_word(arrow, b"->".as_slice()) && has_more(rest),
    }
}

// The event that a line tells, by the definition of reading.
#[tactic(auto, unfolding(crate::specs::Reading::event_of))]
fn event_of(line: &[u8]) -> Option<Event>
    ensures { result ≡ event_of line.now }
{
    let (event, rest) = take_event(line)?;
    if is_right_side(rest) {
        Some(event)
    } else {
        None
    }
}

/// The event of a line of a printed journal, which is given without its newline. Some exactly where the line is what the
/// event is printed as, alone or before a space, an arrow, a space and one or more further bytes, which are not looked at.
/// Numbers have no leading zeros, one space stands between two words, and each number is one of its type in `Event`.
#[tactic(auto, using(crate::proofs::Lines::line_read))]
pub fn parse_line(line: &[u8]) -> Option<PrintedEntry>
    ensures exact { Gives (λ printed. printed.event) result (event_of line.now) }
    ensures line { IfSome result (λ printed. IsLineOf line.now printed.event) }
    ensures none { result ≡ None → (event : Happening) → ¬ (IsLineOf line.now event) }
{
    match event_of(line) {
        Some(event) => Some(PrintedEntry { event }),
        None => None,
    }
}

/// What `parse_line` reads from a line, as the definition of reading gives it, is the event of which it is a line by the
/// grammar, and it reads none exactly where it is no line of any event.
pub fn lines_are_read()
    ensures { LinesAreRead }
{}

/// The printed line of each entry is, without its newline, a line of its event by the grammar. So it is read back as that.
pub fn printed_lines_are_read()
    ensures { PrintedLinesAreLines }
{}
