//! The word that names the form of a scenario.

ghost use Rattle.am_lab_words.specs.Words.{form_of};
ghost use Rattle.std.specs.Prelude.{◌≡◌};

use am_scenario_types::Form;

/// The form that a word names.
#[tactic(auto, unfolding(crate::specs::Words::form_of))]
pub(crate) fn form_of(word: &str) -> Option<Form>
    ensures { result ≡ form_of word.now }
{
    match word {
        "step" => Some(Form::Step),
        "run" => Some(Form::Run),
        _ => None,
    }
}
