//! The one-line texts.

ghost use Rattle.std.specs.Prelude.{◌≡◌, ◌++◌, IfOk, OnOk, codes};
ghost use Rattle.am_main_lines.specs.Lines.{full_line, refused_line};
ghost use Rattle.am_main_lines.specs.Words.{condition_word, part_word};
ghost use Rattle.am_session.specs.Answer.{what_word};

use am_lexer::What;
use am_office_entries::{Condition, Part};
use am_office_text::LinePiece::Text;
use am_office_text::{count, put_end, put_line, put_numbered};
use am_scenario_types::ScenarioFault;
use std::alloc::{AllocError, Global};

#[tactic(auto, unfolding(am_session::specs::Answer::what_word))]
fn what_word(what: What) -> &'static str
    ensures { result.now ≡ what_word what }
{
    match what {
        What::UnknownWord => "unknown-word",
        What::BadNumber => "bad-number",
        What::OutOfRange => "out-of-range",
        What::Twice => "twice",
        What::Missing => "missing",
        What::Undeclared => "undeclared",
        What::NotText => "not-text",
        What::TooMany => "too-many",
        What::OutOfPlace => "out-of-place",
    }
}

/// The word for a condition that doesn't hold.
#[tactic(auto, unfolding(crate::specs::Words::condition_word))]
pub fn condition_word(condition: Condition) -> &'static str
    ensures { result.now ≡ condition_word condition }
{
    match condition {
        Condition::OnDisk => "on-disk",
        Condition::NotOnDisk => "not-on-disk",
        Condition::NotDirect => "not-direct",
        Condition::NoMessage => "no-message",
        Condition::NotPacket => "not-packet",
        Condition::OtherNode => "other-node",
        Condition::NotResident => "not-resident",
        Condition::Draining => "draining",
        Condition::NoChannel => "no-channel",
        Condition::Idle => "idle",
        Condition::NoPacket => "no-packet",
        Condition::NotDraining => "not-draining",
        Condition::InFlight => "in-flight",
        Condition::NotOnHost => "not-on-host",
        Condition::Closed => "closed",
        Condition::FrameHeld => "frame-held",
    }
}

/// The line that tells the first fault of a text.
#[tactic(auto, unfolding(crate::specs::Lines::refused_line))]
pub fn refused_line(alloc: Global, fault: ScenarioFault) -> Result<Vec<u8>, AllocError>
    ensures { IfOk result (λ text. text.items ≡ refused_line fault) }
{
    let mut text = Vec::new(alloc);
    let words = [Text("line"), count(fault.line), Text(what_word(fault.what))];
    put_line(&mut text, "refused", &words)?;
    Ok(text)
}

// Appends a part of the machine.
fn put_part(text: &mut Vec<u8>, part: Part) -> Result<(), AllocError>
    ensures { OnOk result (text.new.items ≡ text.old.items ++ part_word part) }
{
    match part {
        Part::Endpoint(end) => put_numbered(text, "e", end.0),
        Part::Interface(node) => put_numbered(text, "i", node.0),
    }
}

/// The line that tells a full log.
#[tactic(auto, using(std::proofs::Common::append_assoc), unfolding(crate::specs::Lines::full_line))]
pub fn full_line(alloc: Global, part: Part) -> Result<Vec<u8>, AllocError>
    ensures { IfOk result (λ text. text.items ≡ full_line part) }
{
    let mut text = Vec::from_slice(alloc, b"log full ")?;
    put_part(&mut text, part)?;
    put_end(&mut text)?;
    Ok(text)
}
