//! What the words ask for, read by how many there are.

ghost use Rattle.am_lab_words.specs.Ranges.{IsInRange};
ghost use Rattle.am_lab_words.specs.Words.{asked_for, chart_lines, chart_message, chart_one, chart_part, chart_whole, chart_with, count_of, explain_in, front_message, front_of, json_in, lines_by, made_of, make_of, of_command, of_five_words, of_four_words, of_three_words, of_two_words, of_words, page_in, replay_of, round_of, rounds_in, scenario_in, scenario_of, serial_by, serial_in, serial_of, shiviz_in, shiviz_of, why_before, why_front_of, why_in, why_message};
ghost use Rattle.std.specs.Prelude.{◌≡◌, IfOk, map, string_bytes};

use crate::faults::faults_of;
use crate::find::find_of;
use crate::forms::form_of;
use crate::numbers::printed_number;
use crate::schedule::{schedule_faulty, schedule_of};
use crate::shrink::shrink_of;
use crate::state::{state_at_end, state_behind, state_between};
use crate::{Asked, Lines, Wrong};
use am_lexer::first_dot;
use am_names::{EndpointId, Serial};
use am_scenario_types::Form;

fn json_in(form: Option<Form>) -> Result<Asked, Wrong>
    ensures { result ≡ json_in form }
{
    match form {
        Some(form) => Ok(Asked::Json(form)),
        None => Err(Wrong::Form),
    }
}

fn shiviz_in(form: Option<Form>) -> Result<Asked, Wrong>
    ensures { result ≡ shiviz_in form }
{
    match form {
        Some(form) => Ok(Asked::Shiviz(form)),
        None => Err(Wrong::Form),
    }
}

#[tactic(auto, unfolding(crate::specs::Words::shiviz_of))]
fn shiviz_of(form: &str, option: &str) -> Result<Asked, Wrong>
    ensures { result ≡ shiviz_of form.now option.now }
{
    if option == "--shiviz" {
        shiviz_in(form_of(form))
    } else {
        Err(Wrong::Form)
    }
}

fn page_in(form: Option<Form>) -> Result<Asked, Wrong>
    ensures { result ≡ page_in form }
{
    match form {
        Some(form) => Ok(Asked::Page(form)),
        None => Err(Wrong::Form),
    }
}

fn explain_in(form: Option<Form>) -> Result<Asked, Wrong>
    ensures { result ≡ explain_in form }
{
    match form {
        Some(form) => Ok(Asked::Explain(form)),
        None => Err(Wrong::Form),
    }
}

// The journal before a step is asked for behind `explain step` alone.
#[tactic(auto, unfolding(crate::specs::Words::front_of))]
fn front_of(word: &str, option: &str) -> Result<Asked, Wrong>
    ensures { result ≡ front_of word.now option.now }
{
    if word == "step" && option == "--front" {
        Ok(Asked::Front)
    } else {
        Err(Wrong::Front)
    }
}

#[tactic(auto, unfolding(crate::specs::Words::serial_by))]
fn serial_by(source: u64, count: u64) -> Option<Serial>
    ensures { result ≡ serial_by source count }
{
    if source <= 255 && 1 <= count && count <= 0xffff_ffff {
        Some(Serial {
            source: EndpointId(source as u8),
            count: count as u32,
        })
    } else {
        None
    }
}

fn serial_in(source: Option<u64>, count: Option<u64>) -> Option<Serial>
    ensures { result ≡ serial_in source count }
{
    match (source, count) {
        (Some(source), Some(count)) => serial_by(source, count),
        _ => None,
    }
}

// The serial that a word spells.
#[tactic(auto, unfolding(crate::specs::Words::serial_of))]
fn serial_of(word: &[u8]) -> Option<Serial>
    ensures { result ≡ serial_of word.now }
{
    match first_dot(word) {
        Some(dot) => serial_in(
            printed_number(&word[..dot]),
            printed_number(&word[dot + 1..]),
        ),
        None => None,
    }
}

fn why_message(form: Form, serial: Option<Serial>) -> Result<Asked, Wrong>
    ensures { result ≡ why_message form serial }
{
    match serial {
        Some(serial) => Ok(Asked::Why { form, serial }),
        None => Err(Wrong::Serial),
    }
}

fn why_in(form: Option<Form>, word: &str) -> Result<Asked, Wrong>
    ensures { result ≡ why_in form word.now }
{
    match form {
        Some(form) => why_message(form, serial_of(word.as_bytes())),
        None => Err(Wrong::Form),
    }
}

fn front_message(form: Form, serial: Option<Serial>) -> Result<Asked, Wrong>
    ensures { result ≡ front_message form serial }
{
    match serial {
        Some(serial) => Ok(Asked::WhyFront { form, serial }),
        None => Err(Wrong::Serial),
    }
}

fn why_before(form: Option<Form>, word: &str) -> Result<Asked, Wrong>
    ensures { result ≡ why_before form word.now }
{
    match form {
        Some(form) => front_message(form, serial_of(word.as_bytes())),
        None => Err(Wrong::Form),
    }
}

#[tactic(auto, unfolding(crate::specs::Words::why_front_of))]
fn why_front_of(form: &str, option: &str, word: &str) -> Result<Asked, Wrong>
    ensures { result ≡ why_front_of form.now option.now word.now }
{
    if option == "--front" {
        why_before(form_of(form), word)
    } else {
        Err(Wrong::Form)
    }
}

fn chart_whole(form: Option<Form>) -> Result<Asked, Wrong>
    ensures { result ≡ chart_whole form }
{
    match form {
        Some(form) => Ok(Asked::Chart { form, part: None }),
        None => Err(Wrong::Form),
    }
}

fn chart_message(form: Form, serial: Option<Serial>) -> Result<Asked, Wrong>
    ensures { result ≡ chart_message form serial }
{
    match serial {
        Some(serial) => Ok(Asked::ChartMessage { form, serial }),
        None => Err(Wrong::HalfPart),
    }
}

#[tactic(auto, unfolding(crate::specs::Words::chart_one))]
fn chart_one(form: Form, word: &str) -> Result<Asked, Wrong>
    ensures { result ≡ chart_one form word.now }
{
    if word == "--front" {
        Ok(Asked::ChartFront(form))
    } else {
        chart_message(form, serial_of(word.as_bytes()))
    }
}

fn chart_with(form: Option<Form>, word: &str) -> Result<Asked, Wrong>
    ensures { result ≡ chart_with form word.now }
{
    match form {
        Some(form) => chart_one(form, word),
        None => Err(Wrong::Form),
    }
}

#[tactic(auto, unfolding(crate::specs::Words::lines_by))]
fn lines_by(form: Form, from: u64, to: u64) -> Result<Asked, Wrong>
    ensures { result ≡ lines_by form from to }
{
    if from <= 0xffff_ffff && to <= 0xffff_ffff {
        Ok(Asked::Chart {
            form,
            part: Some(Lines {
                from: from as u32,
                to: to as u32,
            }),
        })
    } else {
        Err(Wrong::Line)
    }
}

fn chart_lines(form: Form, from: Option<u64>, to: Option<u64>) -> Result<Asked, Wrong>
    ensures { result ≡ chart_lines form from to }
{
    match (from, to) {
        (Some(from), Some(to)) => lines_by(form, from, to),
        _ => Err(Wrong::Line),
    }
}

fn chart_part(form: Option<Form>, from: &str, to: &str) -> Result<Asked, Wrong>
    ensures { result ≡ chart_part form from.now to.now }
{
    match form {
        Some(form) => chart_lines(
            form,
            printed_number(from.as_bytes()),
            printed_number(to.as_bytes()),
        ),
        None => Err(Wrong::Form),
    }
}

fn scenario_in(form: Option<Form>) -> Result<Asked, Wrong>
    ensures { result ≡ scenario_in form }
{
    match form {
        Some(form) => Ok(Asked::Scenario(form)),
        None => Err(Wrong::Form),
    }
}

#[tactic(auto, unfolding(crate::specs::Words::scenario_of))]
fn scenario_of(word: &str) -> Result<Asked, Wrong>
    ensures { result ≡ scenario_of word.now }
{
    if word == "segments" {
        Ok(Asked::Expanded)
    } else {
        scenario_in(form_of(word))
    }
}

fn made_of(number: Option<u64>) -> Result<Asked, Wrong>
    ensures { result ≡ made_of number }
{
    match number {
        Some(n) => Ok(Asked::Made(n)),
        None => Err(Wrong::Number),
    }
}

#[tactic(auto, unfolding(crate::specs::Words::make_of))]
fn make_of(word: &str, n: &str) -> Result<Asked, Wrong>
    ensures { result ≡ make_of word.now n.now }
{
    if word == "make" {
        made_of(printed_number(n.as_bytes()))
    } else {
        Err(Wrong::Form)
    }
}

#[tactic(auto, unfolding(crate::specs::Words::round_of))]
fn round_of(nodes: u64, turns: u64, number: u64) -> Result<Asked, Wrong>
    ensures { result ≡ round_of nodes turns number }
{
    if 1 <= nodes && nodes <= 8 && turns <= 10_000 && 1 <= number {
        Ok(Asked::Round {
            nodes: nodes as u8,
            turns: turns as u32,
            number,
        })
    } else {
        Err(Wrong::Round)
    }
}

fn rounds_in(nodes: Option<u64>, turns: Option<u64>, number: Option<u64>) -> Result<Asked, Wrong>
    ensures { result ≡ rounds_in nodes turns number }
{
    match (nodes, turns, number) {
        (Some(nodes), Some(turns), Some(number)) => round_of(nodes, turns, number),
        _ => Err(Wrong::Round),
    }
}

#[tactic(auto, unfolding(crate::specs::Words::count_of))]
fn count_of(word: &str, nodes: &str, turns: &str, number: &str) -> Result<Asked, Wrong>
    ensures { result ≡ count_of word.now nodes.now turns.now number.now }
{
    if word == "count" {
        rounds_in(
            printed_number(nodes.as_bytes()),
            printed_number(turns.as_bytes()),
            printed_number(number.as_bytes()),
        )
    } else {
        Err(Wrong::Form)
    }
}

#[tactic(auto, unfolding(crate::specs::Words::replay_of))]
fn replay_of(word: &str) -> Result<Asked, Wrong>
    ensures { result ≡ replay_of word.now }
{
    if word == "run" {
        Ok(Asked::Replay)
    } else {
        Err(Wrong::Form)
    }
}

#[tactic(auto, unfolding(crate::specs::Words::of_two_words))]
fn of_two_words(command: &str, word: &str) -> Result<Asked, Wrong>
    ensures { result ≡ of_two_words command.now word.now }
{
    match command {
        "explain" => explain_in(form_of(word)),
        "chart" => chart_whole(form_of(word)),
        "scenario" => scenario_of(word),
        "replay" => replay_of(word),
        "schedule" => schedule_of(word.as_bytes()),
        "json" => json_in(form_of(word)),
        "page" => page_in(form_of(word)),
        "state" => state_at_end(form_of(word)),
        _ => Err(Wrong::Form),
    }
}

#[tactic(auto, unfolding(crate::specs::Words::of_three_words))]
fn of_three_words(command: &str, word: &str, other: &str) -> Result<Asked, Wrong>
    ensures { result ≡ of_three_words command.now word.now other.now }
{
    match command {
        "explain" => front_of(word, other),
        "why" => why_in(form_of(word), other),
        "chart" => chart_with(form_of(word), other),
        "json" => shiviz_of(word, other),
        "scenario" => make_of(word, other),
        "state" => state_behind(form_of(word), other),
        "faults" => faults_of(word, other),
        _ => Err(Wrong::Form),
    }
}

#[tactic(auto, unfolding(crate::specs::Words::of_four_words))]
fn of_four_words(command: &str, word: &str, from: &str, to: &str) -> Result<Asked, Wrong>
    ensures { result ≡ of_four_words command.now word.now from.now to.now }
{
    match command {
        "why" => why_front_of(word, from, to),
        "chart" => chart_part(form_of(word), from, to),
        "state" => state_between(form_of(word), from, to),
        "schedule" => schedule_faulty(word.as_bytes(), from, to),
        _ => Err(Wrong::Form),
    }
}

#[tactic(auto, unfolding(crate::specs::Words::of_five_words))]
fn of_five_words(
    command: &str,
    word: &str,
    nodes: &str,
    turns: &str,
    number: &str,
) -> Result<Asked, Wrong>
    ensures { result ≡ of_five_words command.now word.now nodes.now turns.now number.now }
{
    if command == "scenario" {
        count_of(word, nodes, turns, number)
    } else {
        Err(Wrong::Form)
    }
}

// What a command asks for whose words are fixed in number.
#[tactic(auto, unfolding(crate::specs::Words::of_words))]
fn of_words(command: &str, words: &[String]) -> Result<Asked, Wrong>
    ensures { result ≡ of_words command.now (map string_bytes words.now) }
{
    match words {
        [word] => of_two_words(command, word.as_str()),
        [word, other] => of_three_words(command, word.as_str(), other.as_str()),
        [word, from, to] => of_four_words(command, word.as_str(), from.as_str(), to.as_str()),
        [word, nodes, turns, number] => of_five_words(
            command,
            word.as_str(),
            nodes.as_str(),
            turns.as_str(),
            number.as_str(),
        ),
        _ => Err(Wrong::Form),
    }
}

#[tactic(auto, unfolding(crate::specs::Words::of_command))]
fn of_command(command: &str, words: &[String]) -> Result<Asked, Wrong>
    ensures { result ≡ of_command command.now (map string_bytes words.now) }
{
    match command {
        "find" => find_of(words),
        "shrink" => shrink_of(words),
        _ => of_words(command, words),
    }
}

// What the words after the program's name ask for.
#[tactic(auto, unfolding(crate::specs::Words::asked_for))]
fn asked_by(words: &[String]) -> Result<Asked, Wrong>
    ensures { result ≡ asked_for (map string_bytes words.now) }
{
    match words {
        [command, rest @ ..] => of_command(command.as_str(), rest),
        [] => Err(Wrong::Form),
    }
}

/// What the words after the program's name ask for; else what is wrong with them. Numbers are in decimal digits without a
/// sign or a leading zero, and are ones that the command takes.
pub fn asked_for(words: &[String]) -> Result<Asked, Wrong>
    ensures exact { result ≡ asked_for (map string_bytes words.now) }
    ensures in_range { IfOk result IsInRange }
{
    asked_by(words)
}
