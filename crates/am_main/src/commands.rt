//! The forms of the words after the program's name.

ghost use Rattle.std.specs.Prelude.{◌≡◌, IfSome, Some};
ghost use Rattle.am_main.specs.Commands.{IsInRange, asked_by, count_of, form_of, of_one_word, of_three_words, of_two_words, reads_text};

use am_check_lines::printed_number;
use am_scenario::Form;

/// What the words ask for.
#[derive(Clone, Copy, PartialEq, Eq)]
pub enum Command {
    /// `step`: the report of the history that follows the lines of a step script, which the source gives.
    Step,
    /// `run`: the report of a run of a scenario by the scripts of its threads, which the source gives.
    Run,
    /// `make N`: the summary of the run of the scenario that is generated from this number. Nothing is read.
    Make(u64),
    /// `segments`: the report of a run of a scenario with segments, which the source gives, their bytes and what ran of its
    /// transfers.
    Segments,
    /// `session`: the report of the history that follows the lines of a session, which the source gives.
    Session,
    /// `count W U`: how often each word of a text stands in it, which the source gives, as messages between this many nodes count them
    /// in rounds of so many turns.
    Count {
        /// 1 to 8.
        nodes: u8,
        /// 0 to 10,000.
        turns: u32,
    },
    /// `check step`, `check run`: whether a text, which the source gives, is a scenario of this form and the report of a history that
    /// follows it.
    Check(Form),
}

/// Whether the command needs a text from the source.
pub fn reads_text(command: Command) -> bool
    ensures { result ≡ reads_text (Some command) }
{
    match command {
        Command::Make(_) => false,
        Command::Step
        | Command::Run
        | Command::Segments
        | Command::Session
        | Command::Count { .. }
        | Command::Check(_) => true,
    }
}

// The form that a word names.
#[tactic(auto, unfolding(crate::specs::Commands::form_of))]
fn form_of(word: &str) -> Option<Form>
    ensures { result ≡ form_of word.now }
{
    match word {
        "step" => Some(Form::Step),
        "run" => Some(Form::Run),
        _ => None,
    }
}

#[tactic(auto, unfolding(crate::specs::Commands::of_one_word))]
fn of_one_word(word: &str) -> Option<Command>
    ensures exact { result ≡ of_one_word word.now }
    ensures in_range { IfSome result IsInRange }
{
    match word {
        "step" => Some(Command::Step),
        "run" => Some(Command::Run),
        "segments" => Some(Command::Segments),
        "session" => Some(Command::Session),
        _ => None,
    }
}

#[tactic(auto, unfolding(crate::specs::Commands::of_two_words))]
fn of_two_words(word: &str, other: &str) -> Option<Command>
    ensures exact { result ≡ of_two_words word.now other.now }
    ensures in_range { IfSome result IsInRange }
{
    if word == "make" {
        Some(Command::Make(printed_number(other.as_bytes())?))
    } else if word == "check" {
        Some(Command::Check(form_of(other)?))
    } else {
        None
    }
}

// The command `count` with these numbers, if it takes them.
#[tactic(auto, unfolding(crate::specs::Commands::count_of))]
fn count_of(nodes: u64, turns: u64) -> Option<Command>
    ensures exact { result ≡ count_of nodes turns }
    ensures in_range { IfSome result IsInRange }
{
    if 1 <= nodes && nodes <= 8 && turns <= 10_000 {
        Some(Command::Count {
            nodes: nodes as u8,
            turns: turns as u32,
        })
    } else {
        None
    }
}

#[tactic(auto, unfolding(crate::specs::Commands::of_three_words))]
fn of_three_words(word: &str, nodes: &str, turns: &str) -> Option<Command>
    ensures exact { result ≡ of_three_words word.now nodes.now turns.now }
    ensures in_range { IfSome result IsInRange }
{
    if word == "count" {
        count_of(
            printed_number(nodes.as_bytes())?,
            printed_number(turns.as_bytes())?,
        )
    } else {
        None
    }
}

/// What the words ask for, if they have one of the forms: the one word `step`, `run`, `segments` or `session`, the two words
/// `make N`, `check step` or `check run`, or the three words `count W U`.
/// N is 0 to 2^64-1, W 1 to 8 and U 0 to 10,000, each in decimal digits without a sign or a leading zero.
#[tactic(auto, unfolding(crate::specs::Commands::command_of))]
pub fn command_of(words: &[String]) -> Option<Command>
    ensures exact { result ≡ asked_by words.now }
    ensures in_range { IfSome result IsInRange }
{
    match words {
        [word] => of_one_word(word.as_str()),
        [word, other] => of_two_words(word.as_str(), other.as_str()),
        [word, nodes, turns] => of_three_words(word.as_str(), nodes.as_str(), turns.as_str()),
        _ => None,
    }
}
