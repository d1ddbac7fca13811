//! What is wrong in one line of a text.

ghost use Rattle.am_lab_reasons.specs.Refusals.Faults.{fault_in, is_missing, is_taken, may_stand, reads_on};
ghost use Rattle.std.specs.Prelude.{◌≡◌, ◌++◌, Err, IfOk};
ghost use Rattle.am_lab_reasons.specs.Refusals.Faults as rules;

use am_names::NoMemory;
use am_scenario::{Form, ReadFault, ScenarioFault, What, read};
use std::alloc::{AllocError, Global};

/// A text with another one behind it.
pub(crate) fn joined(alloc: Global, front: &[u8], more: &[u8]) -> Result<Vec<u8>, AllocError>
    ensures { IfOk result (λ text. text.items ≡ front.now ++ more.now) }
{
    let mut text = Vec::from_slice(alloc, front)?;
    text.extend_from_slice(more)?;
    Ok(text)
}

// What is wrong in the line with this number, if it has this first fault.
fn what_in(number: u32, fault: ScenarioFault) -> Option<What>
    ensures { result ≡ rules.what_in number (Err fault) }
{
    if fault.line == number {
        Some(fault.what)
    } else {
        None
    }
}

/// What is wrong in the line with this number, which ends a text.
pub(crate) fn fault_in(
    alloc: Global,
    form: Form,
    number: u32,
    text: &[u8],
) -> Result<Option<What>, NoMemory>
    ensures { IfOk result (λ what. what ≡ fault_in form number text.now) }
{
    match read(alloc, form, text) {
        Ok(_) => Ok(None),
        Err(ReadFault::Refused(fault)) => Ok(what_in(number, fault)),
        Err(ReadFault::NoMemory) => Err(NoMemory),
    }
}

/// What is wrong in the line with this number, which ends a text with another one behind it.
pub(crate) fn fault_behind(
    alloc: Global,
    form: Form,
    number: u32,
    front: &[u8],
    more: &[u8],
) -> Result<Option<What>, NoMemory>
    ensures { IfOk result (λ what. what ≡ fault_in form number (front.now ++ more.now)) }
{
    let text = joined(alloc, front, more)?;
    fault_in(alloc, form, number, &text)
}

fn is_missing(what: Option<What>) -> bool
    ensures { result ≡ is_missing what }
{
    match what {
        Some(What::Missing) => true,
        _ => false,
    }
}

/// Whether a line with this fault has no word that may not stand where it stands.
pub(crate) fn is_taken(what: Option<What>) -> bool
    ensures { result ≡ is_taken what }
{
    match what {
        None | Some(What::Missing | What::Twice | What::TooMany) => true,
        Some(
            What::UnknownWord
            | What::BadNumber
            | What::OutOfRange
            | What::Undeclared
            | What::NotText
            | What::OutOfPlace,
        ) => false,
    }
}

// Whether another word is read behind the text of a line.
fn reads_on(alloc: Global, form: Form, number: u32, text: &[u8]) -> Result<bool, NoMemory>
    ensures { IfOk result (λ reads. reads ≡ reads_on form number text.now) }
{
    let what = fault_behind(alloc, form, number, text, b" ?")?;
    Ok(!is_missing(what))
}

/// Whether another word is read behind a text with another one behind it, which ends in the text of a line.
pub(crate) fn reads_behind(
    alloc: Global,
    form: Form,
    number: u32,
    front: &[u8],
    more: &[u8],
) -> Result<bool, NoMemory>
    ensures { IfOk result (λ reads. reads ≡ reads_on form number (front.now ++ more.now)) }
{
    let text = joined(alloc, front, more)?;
    reads_on(alloc, form, number, &text)
}

/// Whether a word may stand behind the text of a line.
pub(crate) fn may_stand(
    alloc: Global,
    form: Form,
    number: u32,
    front: &[u8],
    word: &[u8],
) -> Result<bool, NoMemory>
    ensures { IfOk result (λ may. may ≡ may_stand form number front.now word.now) }
{
    let what = fault_behind(alloc, form, number, front, word)?;
    if is_taken(what) {
        reads_behind(alloc, form, number, front, word)
    } else {
        Ok(false)
    }
}
