//! The scenario of a round in which the words of a text are sent.

ghost use Rattle.std.specs.Prelude.{◌≡◌, ◌⊎◌, ◌+◌, ◌<◌, ◌≤◌, IfNone, IfOk, IfSome};
ghost use Rattle.std.specs.List.{All};
ghost use Rattle.am_job.specs.Rounds.{rounds_of};
ghost use Rattle.am_lab_scenarios.specs.Derived.Answers.{PrintsRound, RoundAnswers, no_round, text_too_long};
ghost use Rattle.am_main_lines.specs.Lines.{answer_in};
ghost use Rattle.am_job.specs.Words.Codes.{Fits};

use crate::derived::outputs::printed;
use am_job::words::{CodedWord, split};
use am_job::{round, round_count};
use am_main_lines::Output;
use am_names::NoMemory;
use am_office_text::LinePiece::{Number, Text};
use am_office_text::put_line;
use std::alloc::{AllocError, Global};

// How many bytes a text that is counted has at most.
const MOST_COUNTED: usize = 1_048_576;

// That there is no round with this number, and how many there are.
fn no_round(alloc: Global, number: u64, count: u64) -> Result<Output, AllocError>
    ensures { IfOk result (λ output. answer_in output ≡ no_round number count) }
{
    let mut text = Vec::new(alloc);
    let words = [Text("round"), Number(number), Text("of"), Number(count)];
    put_line(&mut text, "no", &words)?;
    Ok(Output { status: 12, text })
}

// That the text is too long to be counted.
fn too_long(alloc: Global) -> Result<Output, AllocError>
    ensures { IfOk result (λ output. answer_in output ≡ text_too_long) }
{
    let text = Vec::from_slice(alloc, b"text too long: more than 1048576 bytes\n")?;
    Ok(Output { status: 11, text })
}

// The place of the round with this number, counted from 1, among so many, if it is there.
fn place_of(number: u64, count: u64) -> Option<usize>
    ensures there { IfSome result (λ place. (place < count) × (number ≡ place + 1)) }
    ensures missing { IfNone result ((number ≡ 0) ⊎ (count < number)) }
{
    if number == 0 || count < number {
        None
    } else {
        Some((number - 1) as usize)
    }
}

// The round with this number, counted from 1, of words that are sent.
#[tactic(auto, using(crate::proofs::Rounds::round_is_printed, crate::proofs::Rounds::round_is_missing))]
fn sent_round(
    alloc: Global,
    nodes: u8,
    turns: u32,
    number: u64,
    sent: &[CodedWord],
) -> Result<Output, NoMemory>
    requires some { 0 < nodes }
    requires nodes { nodes ≤ 8 }
    requires turns { turns ≤ 10000 }
    requires fit { All Fits sent.now }
    ensures { IfOk result (λ output. PrintsRound number (rounds_of nodes turns sent.now) (answer_in output)) }
{
    let count = round_count(nodes, sent.len()) as u64;
    let Some(place) = place_of(number, count) else {
        return Ok(no_round(alloc, number, count)?);
    };
    let scenario = round(alloc, nodes, turns, sent, place)?;
    printed(alloc, &scenario)
}

/// The scenario that `am2 count` runs in a round of a text's words, which 1 to 8 nodes count in rounds of 0 to 10,000
/// turns, as a text that spells it for `am2 run`; the status is 0. Rounds are numbered from 1. Where the text has no
/// round with this number that is told, with status 12; where it has more than 1,048,576 bytes, it isn't counted, with
/// status 11. `NoMemory` comes only for want of memory, and leaves nothing of the text.
#[tactic(auto, using(crate::proofs::Rounds::long_is_told, crate::proofs::Rounds::round_answers))]
pub fn round_scenario(
    alloc: Global,
    nodes: u8,
    turns: u32,
    number: u64,
    bytes: &[u8],
) -> Result<Output, NoMemory>
    requires some { 0 < nodes }
    requires nodes { nodes ≤ 8 }
    requires turns { turns ≤ 10000 }
    ensures { IfOk result (λ output. RoundAnswers nodes turns number bytes.now (answer_in output)) }
{
    if bytes.len() > MOST_COUNTED {
        return Ok(too_long(alloc)?);
    }
    let words = split(alloc, bytes)?;
    sent_round(alloc, nodes, turns, number, &words.sent)
}
