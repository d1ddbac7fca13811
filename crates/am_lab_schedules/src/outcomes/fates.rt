//! The fates of a run beside those of the first.

ghost use Rattle.std.specs.Prelude.{◌≡◌, ◌++◌, IfOk, List, OnOk, map};
ghost use Rattle.am_lab_schedules.specs.Distinct.Kept.{Keeps};
ghost use Rattle.am_lab_schedules.specs.Outcomes.Outcomes as outcomes;
ghost use Rattle.am_office_report.specs.declared.messages.MessageFate.{MessageFate};

use crate::distinct::DistinctTexts;
use am_names::NoMemory;
use am_office_report::{MessageFate, put_fate};
use am_office_text::LinePiece::Text;
use am_office_text::{LinePiece, kind_word, put_spaced, put_word};
use std::alloc::{AllocError, Global};

/// The messages of the first run with their fates, and the texts of these.
#[derive(Drop)]
pub(crate) struct FirstFates {
    pub(crate) messages: Vec<MessageFate>,
    pub(crate) told: DistinctTexts,
    ghost tells: { Keeps told (map outcomes.told_fate messages.items) },
}

/// A message and its fate.
fn put_told_fate(out: &mut Vec<u8>, message: &MessageFate) -> Result<(), AllocError>
    ensures { OnOk result (out.new.items ≡ out.old.items ++ outcomes.told_fate message.now) }
{
    let kind = Text(kind_word(message.kind));
    put_spaced(
        out,
        &[Text("fate"), LinePiece::Serial(message.serial), kind],
    )?;
    put_fate(out, message.fate)
}

/// A message that a run doesn't accept.
#[tactic(auto, unfolding(crate::specs::Outcomes::Outcomes::missed_fate))]
fn put_missed_fate(out: &mut Vec<u8>, message: &MessageFate) -> Result<(), AllocError>
    ensures { OnOk result (out.new.items ≡ out.old.items ++ outcomes.missed_fate message.now) }
{
    let kind = Text(kind_word(message.kind));
    put_spaced(
        out,
        &[
            Text("fate"),
            LinePiece::Serial(message.serial),
            kind,
            Text("not-accepted"),
        ],
    )
}

/// The text of a message and its fate.
fn told_fate(alloc: Global, message: &MessageFate) -> Result<Vec<u8>, AllocError>
    ensures { IfOk result (λ text. text.items ≡ outcomes.told_fate message.now) }
{
    let mut text = Vec::new(alloc);
    put_told_fate(&mut text, message)?;
    Ok(text)
}

/// How a message is called.
fn name_of(alloc: Global, message: &MessageFate) -> Result<Vec<u8>, AllocError>
    ensures { IfOk result (λ text. text.items ≡ outcomes.name_of message.now) }
{
    let mut text = Vec::new(alloc);
    put_word(&mut text, LinePiece::Serial(message.serial))?;
    Ok(text)
}

/// The texts of some messages and their fates.
fn told_fates(alloc: Global, messages: &[MessageFate]) -> Result<DistinctTexts, AllocError>
    ensures { IfOk result (λ told. Keeps told (map outcomes.told_fate messages.now)) }
{
    let mut told = DistinctTexts::new(alloc);
    for message in messages {
        told.keep(told_fate(alloc, message)?)?;
    }
    Ok(told)
}

/// How some messages are called.
fn names_of(alloc: Global, messages: &[MessageFate]) -> Result<DistinctTexts, AllocError>
    ensures { IfOk result (λ names. Keeps names (map outcomes.name_of messages.now)) }
{
    let mut names = DistinctTexts::new(alloc);
    for message in messages {
        names.keep(name_of(alloc, message)?)?;
    }
    Ok(names)
}

impl FirstFates {
    ghost use Rattle.std.specs.Prelude.{◌≡◌, IfOk};

    /// Those of these messages.
    pub(crate) fn new(alloc: Global, messages: Vec<MessageFate>) -> Result<FirstFates, NoMemory>
        ensures { IfOk result (λ first. first.messages.items ≡ messages.items) }
    {
        let told = told_fates(alloc, &messages)?;
        Ok(FirstFates { messages, told })
    }
}

/// A message and its fate, unless the first run tells it so.
fn put_if_other(
    alloc: Global,
    out: &mut Vec<u8>,
    first: &FirstFates,
    message: &MessageFate,
) -> Result<(), AllocError>
    ensures { OnOk result (out.new.items ≡ out.old.items ++ outcomes.other_fate first.now.messages.items message.now) }
{
    let text = told_fate(alloc, message)?;
    if first.told.has(&text) {
        return Ok(());
    }
    out.extend_from_slice(&text)
}

/// The messages of a run that the first run doesn't tell so.
#[tactic(auto, unfolding(crate::specs::Outcomes::Outcomes::other_fates))]
pub(crate) fn put_other_fates(
    alloc: Global,
    out: &mut Vec<u8>,
    first: &FirstFates,
    messages: &[MessageFate],
) -> Result<(), AllocError>
    ensures { OnOk result (out.new.items ≡ out.old.items ++ outcomes.other_fates first.now.messages.items messages.now) }
{
    for message in messages {
        put_if_other(alloc, out, first, message)?;
    }
    Ok(())
}

/// A message of the first run, unless the run with these names accepts it.
fn put_if_missed(
    alloc: Global,
    out: &mut Vec<u8>,
    names: &DistinctTexts,
    message: &MessageFate,
) -> Result<(), AllocError>
    ensures { (here : List MessageFate) → Keeps names.now (map outcomes.name_of here) → OnOk result (out.new.items ≡ out.old.items ++ outcomes.missed_in here message.now) }
{
    if names.has(&name_of(alloc, message)?) {
        return Ok(());
    }
    put_missed_fate(out, message)
}

/// The messages of the first run that a run doesn't accept.
#[tactic(auto, unfolding(crate::specs::Outcomes::Outcomes::missed_fates))]
pub(crate) fn put_missed_fates(
    alloc: Global,
    out: &mut Vec<u8>,
    first: &FirstFates,
    messages: &[MessageFate],
) -> Result<(), AllocError>
    ensures { OnOk result (out.new.items ≡ out.old.items ++ outcomes.missed_fates first.now.messages.items messages.now) }
{
    let names = names_of(alloc, messages)?;
    for message in &first.messages {
        put_if_missed(alloc, out, &names, message)?;
    }
    Ok(())
}
