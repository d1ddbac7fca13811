//! The words of the program `am2_lab`. What they ask for is read here, by a definition; clap tells the help, the version, and
//! what is wrong with words that ask for nothing.
#![tactic(auto)]

ghost use Rattle.am_lab_words.specs.Ranges.{IsInRange};
ghost use Rattle.am_lab_words.specs.Words as texts;
ghost use Rattle.am_lab_words.specs.declared.mistakes.Wrong.{Wrong as Mistake};
ghost use Rattle.std.specs.Prelude.{◌≡◌, Err, IfErr, IfOk, Ok, drop, map, string_bytes};

mod beginnings;
mod faults;
mod find;
mod forms;
mod mistakes;
mod numbers;
mod ranges;
mod reading;
mod schedule;
mod shown;
mod shrink;
mod state;

pub use crate::beginnings::line_words;
pub use crate::mistakes::Wrong;
pub use crate::reading::asked_for;
use crate::shown::{Shown, all_words, example_of, shown_of, words_of};
use am_names::Serial;
use am_scenario_types::Form;
use clap::Error;
use clap::error::ErrorKind;
use std::alloc::{AllocError, Global};

/// Lines of a report from one to another, both among them, as the words have them.
#[derive(Clone, Copy)]
pub struct Lines {
    pub from: u32,
    pub to: u32,
}

/// Seeds from one up to another, which isn't among them.
#[derive(Clone, Copy)]
pub struct Seeds {
    pub from: u64,
    /// Above `from`, and at most 100,000 above it.
    pub to: u64,
}

/// Seeds that are tried, each with the plan that it draws or with the scenario's own.
#[derive(Clone, Copy)]
pub struct Trials {
    pub seeds: Seeds,
    /// `--faults PERCENT`: of the first packets of each link, about how many in a hundred a drawn plan has: 0 to 100.
    pub faults: Option<u8>,
}

/// Which states of a journal the words have.
#[derive(Clone, Copy)]
pub enum States {
    /// The state at the journal's end.
    End,
    /// The state behind the entry in this line of the report.
    Behind(u32),
    /// What changed from the state behind one entry to that behind another.
    Between(Lines),
}

/// What the words ask for.
#[derive(Clone, Copy)]
pub enum Asked {
    /// `explain step`, `explain run`: what is wrong with a scenario of this form or with its report, and what was due there.
    Explain(Form),
    /// `explain step --front`: the same for a step script, and of a step that can't be made the journal that stands before it.
    Front,
    /// `why step E.K`, `why run E.K`: what became of the K-th message of endpoint E in a report of a scenario of this
    /// form.
    Why {
        form: Form,
        serial: Serial,
    },
    /// `why step --front E.K`, `why run --front E.K`: the same of a report that is right up to a fault or ends in a full log, by
    /// what stands before that.
    WhyFront {
        form: Form,
        serial: Serial,
    },
    /// `chart step`, `chart run`, each with `FROM TO` or without: a picture of these lines of a report of a scenario of this
    /// form, or of all lines of its journal.
    Chart {
        form: Form,
        part: Option<Lines>,
    },
    /// `chart step --front`, `chart run --front`: a picture of what stands before a report's fault or its full log, with that as a
    /// last row.
    ChartFront(Form),
    /// `chart step E.K`, `chart run E.K`: a picture of the lines that touch the K-th message of endpoint E.
    ChartMessage {
        form: Form,
        serial: Serial,
    },
    /// `scenario step`, `scenario run`: a scenario of this form, printed in one form.
    Scenario(Form),
    /// `scenario make N`: the scenario that is made of a number, as `am2 make` runs it. Nothing is read.
    Made(u64),
    /// `scenario segments`: the scenario that a text with segments stands for, as `am2 segments` runs it.
    Expanded,
    /// `scenario count W U ROUND`: the scenario of a round of a text's words, as `am2 count W U` runs it.
    Round {
        /// 1 to 8.
        nodes: u8,
        /// 0 to 10,000.
        turns: u32,
        /// From 1.
        number: u64,
    },
    /// `replay run`: the journal of a run's report as a step script.
    Replay,
    /// `schedule SEED`: the report of a run of the scenario, in which this seed draws whose turn is next; with `--faults PERCENT`
    /// it draws the plan too, 0 to 100 in a hundred.
    Schedule {
        seed: u64,
        faults: Option<u8>,
    },
    /// `schedule SEED..SEED2`: a line for the run of each of these seeds, and how many distinct journals there were.
    Schedules(Trials),
    /// `json step`, `json run`: the journal of a report of a scenario of this form as lines of JSON.
    Json(Form),
    /// `json step --shiviz`, `json run --shiviz`: the same journal in the form that ShiViz reads.
    Shiviz(Form),
    /// `page step`, `page run`: a page for a browser, with the journal and the picture of a report of a scenario of this form.
    Page(Form),
    /// `state step`, `state run`, each with `LINE`, with `LINE LINE2` or with neither: states of the journal of a report of a
    /// scenario of this form, or what changed.
    State {
        form: Form,
        states: States,
    },
    /// `find A..B WORDS..`: the report of the least of these seeds that has a line which begins with these words.
    Find(Trials),
    /// `find --not A..B WORDS..`: the report of the least of these seeds that has no such line.
    FindWithout(Trials),
    /// `faults SEED PERCENT`: the scenario of a run with a plan that is drawn from the seed.
    Faults {
        seed: u64,
        /// Of the first packets of each link, about how many in a hundred: 0 to 100.
        percent: u8,
    },
    /// `shrink step WORDS..`, `shrink run WORDS..`: a scenario of this form with fewer lines, whose report has a line that
    /// begins with these words; that of a run without turns.
    Shrink(Form),
    /// `shrink run --seed N WORDS..`: the same of the report of a run by this seed.
    ShrinkSeeded(u64),
}

// A sentence, and behind it a line that asks for something.
fn told(alloc: Global, sentence: &str, example: &str) -> Result<String, AllocError> {
    let mut text = String::from_str(alloc, sentence)?;
    text.push_str("\n\n  as in: ")?;
    text.push_str(example)?;
    Ok(text)
}

// A text as clap tells it of a command, or of all of them.
fn error_told(alloc: Global, shown: Option<Shown>, text: &str) -> Result<Error, AllocError> {
    let mut command = words_of(alloc, shown)?;
    command.error(ErrorKind::ValueValidation, text)
}

// What is wrong with words that clap lets pass, with the usage of their command.
fn told_wrong(alloc: Global, words: &[String], wrong: Wrong) -> Result<Error, AllocError> {
    let shown = shown_of(words);
    let text = told(alloc, wrong.sentence(), example_of(shown))?;
    error_told(alloc, shown, text.as_str())
}

// The words, which ask for nothing, as clap has them: the help or the version, or what is wrong with their shape; else what is
// wrong with them.
fn told_by_clap(alloc: Global, words: &[String], wrong: Wrong) -> Result<Error, AllocError> {
    let command = all_words(alloc)?;
    match command.try_get_matches_from(words) {
        Ok(_) => told_wrong(alloc, words, wrong),
        Err(error) => Ok(error),
    }
}

// The same, where there may be no memory to tell it.
fn error_of(alloc: Global, words: &[String], wrong: Wrong) -> Error {
    match told_by_clap(alloc, words, wrong) {
        Ok(error) => error,
        Err(starved) => Error::from(starved),
    }
}

/// What the words ask for, of which the first is the program's name, by the definition of the words. Words that ask for
/// nothing are told in clap's text, which may be the help or the version that they ask for; where there is no memory for it
/// the error's kind is `OutOfMemory`.
pub fn read_words(alloc: Global, words: &[String]) -> Result<Asked, Error>
    ensures asked { IfOk result (λ asked. texts.asked_for (drop 1 (map string_bytes words.now)) ≡ Ok asked) }
    ensures wrong { IfErr result (λ error. (wrong : Mistake) × (texts.asked_for (drop 1 (map string_bytes words.now)) ≡ Err wrong)) }
    ensures in_range { IfOk result IsInRange }
{
    let rest = match words {
        [_, rest @ ..] => rest,
        [] => words,
    };
    match asked_for(rest) {
        Ok(asked) => Ok(asked),
        Err(wrong) => Err(error_of(alloc, words, wrong)),
    }
}

fn no_text(alloc: Global) -> Result<Error, AllocError> {
    let text = told(alloc, "a word is no text in UTF-8", example_of(None))?;
    error_told(alloc, None, text.as_str())
}

/// What is told of words that are no text in UTF-8.
pub fn words_are_no_text(alloc: Global) -> Error {
    match no_text(alloc) {
        Ok(error) => error,
        Err(starved) => Error::from(starved),
    }
}
