//! The words of `shrink`.

ghost use Rattle.am_lab_words.specs.Words.{shrink_by, shrink_form, shrink_of, shrink_plain, shrink_seeded};
ghost use Rattle.std.specs.Prelude.{◌≡◌, map, string_bytes};

use crate::beginnings::are_line_words;
use crate::forms::form_of;
use crate::numbers::printed_number;
use crate::{Asked, Wrong};
use am_scenario_types::Form;

fn shrink_plain(form: Form, line: &[String]) -> Result<Asked, Wrong>
    ensures { result ≡ shrink_plain form (map string_bytes line.now) }
{
    if are_line_words(line) {
        Ok(Asked::Shrink(form))
    } else {
        Err(Wrong::ShrinkLine)
    }
}

fn shrink_by(seed: Option<u64>, line: &[String]) -> Result<Asked, Wrong>
    ensures { result ≡ shrink_by seed (map string_bytes line.now) }
{
    match seed {
        Some(seed) if are_line_words(line) => Ok(Asked::ShrinkSeeded(seed)),
        Some(_) => Err(Wrong::ShrinkLine),
        None => Err(Wrong::ShrinkSeed),
    }
}

fn shrink_seeded(form: Form, words: &[String]) -> Result<Asked, Wrong>
    ensures { result ≡ shrink_seeded form (map string_bytes words.now) }
{
    match (form, words) {
        (Form::Run, [seed, line @ ..]) => shrink_by(printed_number(seed.as_bytes()), line),
        _ => Err(Wrong::ShrinkSeed),
    }
}

#[tactic(auto, unfolding(crate::specs::Words::shrink_form))]
fn shrink_form(form: Form, words: &[String]) -> Result<Asked, Wrong>
    ensures { result ≡ shrink_form form (map string_bytes words.now) }
{
    match words {
        [word, rest @ ..] if word.as_str() == "--seed" => shrink_seeded(form, rest),
        _ => shrink_plain(form, words),
    }
}

/// What `shrink` and the words behind it ask for.
#[tactic(auto, unfolding(crate::specs::Words::shrink_of))]
pub(crate) fn shrink_of(words: &[String]) -> Result<Asked, Wrong>
    ensures { result ≡ shrink_of (map string_bytes words.now) }
{
    match words {
        [word, rest @ ..] => match form_of(word.as_str()) {
            Some(form) => shrink_form(form, rest),
            None => Err(Wrong::Form),
        },
        [] => Err(Wrong::Form),
    }
}
