//! At which byte of its line a fault is shown.

ghost use Rattle.am_lab_reasons.specs.Refusals.Faults as rules;
ghost use Rattle.am_lab_reasons.specs.Refusals.Places.{first_word, is_end, missing_word, place, wrong_byte, wrong_word};
ghost use Rattle.std.specs.Prelude.{◌≡◌, ◌++◌, IfOk, not};

use crate::refusals::faults::{fault_behind, is_taken, reads_behind};
use am_names::NoMemory;
use am_scenario::{Form, What};
use std::alloc::Global;

/// The first byte of a line that isn't a space.
pub(crate) fn first_word(line: &[u8]) -> Option<usize>
    ensures { result ≡ first_word line.now }
{
    line.iter().position(|byte| *byte != b' ')
}

fn wrong_byte(line: &[u8]) -> Option<usize>
    ensures { result ≡ wrong_byte line.now }
{
    line.iter()
        .position(|byte| !(0x20 <= *byte && *byte <= 0x7e))
}

fn is_end(rest: &[u8]) -> bool
    ensures { result ≡ is_end rest.now }
{
    match rest {
        [byte, ..] => *byte == b' ',
        [] => true,
    }
}

// Whether a line that is cut behind so many bytes can't be taken.
fn is_wrong(
    alloc: Global,
    form: Form,
    number: u32,
    before: &[u8],
    front: &[u8],
) -> Result<bool, NoMemory>
    ensures { IfOk result (λ wrong. wrong ≡ not (rules.is_taken (rules.fault_in form number (before.now ++ front.now)))) }
{
    let what = fault_behind(alloc, form, number, before, front)?;
    Ok(!is_taken(what))
}

// Where the first word begins that can't be taken where it stands.
#[tactic(auto, unfolding(crate::specs::Refusals::Places::word_from))]
fn wrong_word(
    alloc: Global,
    form: Form,
    number: u32,
    before: &[u8],
    line: &[u8],
) -> Result<Option<usize>, NoMemory>
    ensures { IfOk result (λ at. at ≡ wrong_word form number before.now line.now) }
{
    let mut start = 0;
    for at in 0..line.len() {
        if line[at] == b' ' {
            start = at + 1;
        } else if is_end(&line[at + 1..]) {
            if is_wrong(alloc, form, number, before, &line[..at + 1])? {
                return Ok(Some(start));
            }
        }
    }
    Ok(None)
}

// Where a word is missing.
fn missing_word(behind: bool, line: &[u8]) -> Option<usize>
    ensures { result ≡ missing_word behind line.now }
{
    if behind {
        Some(line.len() + 1)
    } else {
        first_word(line)
    }
}

/// At which byte of its line a fault is shown.
pub(crate) fn place(
    alloc: Global,
    form: Form,
    number: u32,
    before: &[u8],
    line: &[u8],
    what: What,
) -> Result<Option<usize>, NoMemory>
    ensures { IfOk result (λ at. at ≡ place form number before.now line.now what) }
{
    match what {
        What::NotText => Ok(wrong_byte(line)),
        What::Twice | What::TooMany => Ok(first_word(line)),
        What::Missing => {
            let behind = reads_behind(alloc, form, number, before, line)?;
            Ok(missing_word(behind, line))
        }
        What::UnknownWord
        | What::BadNumber
        | What::OutOfRange
        | What::Undeclared
        | What::OutOfPlace => wrong_word(alloc, form, number, before, line),
    }
}
