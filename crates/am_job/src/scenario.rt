//! The rounds in which the words of a text are sent, and the scenario of each.

ghost use Rattle.std.specs.Prelude.{◌≡◌, ◌<◌, ◌≤◌, ◌^◌, IfOk, length};
ghost use Rattle.std.specs.List.{All};
ghost use Rattle.am_scenario_types.specs.declared.parts.Form.TheVariants.{Run};
ghost use Rattle.am_scenario_types.specs.Lawful.{IsLawful, IsOfForm};
ghost use Rattle.am_job.specs.Rounds.{IsJob, job_of, round_at, round_count, round_size, round_words, scenario};

use crate::drafting::declare;
use crate::script::make_script;
use crate::words::{CodedWord, split};
use am_names::NoMemory;
use am_scenario_types::Scenario;
use std::alloc::Global;
use std::marker::Model;

/// How the words of a text are sent.
#[derive(Drop)]
pub struct Job {
    /// The scenario of each round, in order.
    pub rounds: Vec<Scenario>,
    /// How many words are longer than 24 bytes. They aren't sent.
    pub long: u64,
}

impl Model for Job {
    ghost use Rattle.am_job.specs.Lists.{JobLists};

    ghost Value = { JobLists };

    ghost view = { λ job. record { rounds = job.rounds.items; long = job.long } };
}

// The scenario in which these words are sent.
fn scenario(alloc: Global, w: u8, turns: u32, words: &[CodedWord]) -> Result<Scenario, NoMemory>
    requires some { 0 < w }
    requires nodes { w ≤ 8 }
    requires turns { turns ≤ 10000 }
    requires size { length words.now ≤ round_size w }
    ensures exact { IfOk result (λ made. made ≡ scenario w turns words.now) }
    ensures lawful { IfOk result IsLawful }
    ensures of_form { IfOk result (IsOfForm Run) }
{
    let mut draft = declare(alloc, w, turns)?;
    make_script(&mut draft, w, words)?;
    Ok(draft.finish())
}

/// How many words a round of so many nodes has at most.
pub fn round_size(w: u8) -> usize
    ensures { result ≡ round_size w }
{
    16_000 / (usize::from(w) + 2)
}

/// How many rounds so many words make.
pub fn round_count(w: u8, words: usize) -> usize
    requires nodes { w ≤ 8 }
    requires words { words < 2 ^ 63 }
    ensures { result ≡ round_count w words }
{
    words.div_ceil(round_size(w))
}

// The words of the round with this number.
fn round_words(w: u8, words: &[CodedWord], number: usize) -> &[CodedWord]
    requires nodes { w ≤ 8 }
    requires within { number < round_count w (length words.now) }
    ensures exact { result.now ≡ round_words w words.now number }
    ensures size { length result.now ≤ round_size w }
{
    let start = round_size(w) * number;
    let end = (start + round_size(w)).min(words.len());
    &words[start..end]
}

/// The scenario of the round with this number, counted from 0, in which 1 to 8 nodes send the words of a text, with 0 to 10,000
/// turns. `NoMemory` comes only for want of memory.
pub fn round(
    alloc: Global,
    w: u8,
    turns: u32,
    words: &[CodedWord],
    number: usize,
) -> Result<Scenario, NoMemory>
    requires some { 0 < w }
    requires nodes { w ≤ 8 }
    requires turns { turns ≤ 10000 }
    requires within { number < round_count w (length words.now) }
    ensures exact { IfOk result (λ made. made ≡ round_at w turns words.now number) }
    ensures lawful { IfOk result IsLawful }
    ensures of_form { IfOk result (IsOfForm Run) }
{
    scenario(alloc, w, turns, round_words(w, words, number))
}

/// The rounds in which 1 to 8 nodes send the words of a text, with 0 to 10,000 turns in each. The text has at most 1,048,576 bytes.
/// `NoMemory` comes only for want of memory.
pub fn rounds(alloc: Global, text: &[u8], w: u8, turns: u32) -> Result<Job, NoMemory>
    requires some { 0 < w }
    requires nodes { w ≤ 8 }
    requires turns { turns ≤ 10000 }
    requires size { length text.now ≤ 1048576 }
    ensures exact { IfOk result (λ job. job ≡ job_of w turns text.now) }
    ensures lawful { IfOk result (λ job. All IsLawful job.rounds) }
    ensures of_form { IfOk result (λ job. All (IsOfForm Run) job.rounds) }
    ensures of_text { IfOk result IsJob }
{
    let words = split(alloc, text)?;
    let mut rounds = Vec::new(alloc);
    for number in 0..round_count(w, words.sent.as_slice().len()) {
        rounds.push(round(alloc, w, turns, &words.sent, number)?)?;
    }
    Ok(Job {
        rounds,
        long: words.long,
    })
}
