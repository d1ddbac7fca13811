//! The words of `state`.

ghost use Rattle.am_lab_words.specs.Words.{state_at_end, state_behind, state_between, state_by, state_change, state_line};
ghost use Rattle.std.specs.Prelude.{◌≡◌};

use crate::numbers::printed_number;
use crate::{Asked, Lines, States, Wrong};
use am_scenario_types::Form;

/// What `state` and a form ask for.
pub(crate) fn state_at_end(form: Option<Form>) -> Result<Asked, Wrong>
    ensures { result ≡ state_at_end form }
{
    match form {
        Some(form) => Ok(Asked::State {
            form,
            states: States::End,
        }),
        None => Err(Wrong::Form),
    }
}

#[tactic(auto, unfolding(crate::specs::Words::state_line))]
fn state_line(form: Form, line: Option<u64>) -> Result<Asked, Wrong>
    ensures { result ≡ state_line form line }
{
    match line {
        Some(line) if line <= 0xffff_ffff => Ok(Asked::State {
            form,
            states: States::Behind(line as u32),
        }),
        _ => Err(Wrong::StateLine),
    }
}

/// What `state`, a form and a line ask for.
pub(crate) fn state_behind(form: Option<Form>, line: &str) -> Result<Asked, Wrong>
    ensures { result ≡ state_behind form line.now }
{
    match form {
        Some(form) => state_line(form, printed_number(line.as_bytes())),
        None => Err(Wrong::Form),
    }
}

#[tactic(auto, unfolding(crate::specs::Words::state_by))]
fn state_by(form: Form, from: u64, to: u64) -> Result<Asked, Wrong>
    ensures { result ≡ state_by form from to }
{
    if from <= 0xffff_ffff && to <= 0xffff_ffff {
        Ok(Asked::State {
            form,
            states: States::Between(Lines {
                from: from as u32,
                to: to as u32,
            }),
        })
    } else {
        Err(Wrong::StateLine)
    }
}

fn state_change(form: Form, from: Option<u64>, to: Option<u64>) -> Result<Asked, Wrong>
    ensures { result ≡ state_change form from to }
{
    match (from, to) {
        (Some(from), Some(to)) => state_by(form, from, to),
        _ => Err(Wrong::StateLine),
    }
}

/// What `state`, a form and two lines ask for.
pub(crate) fn state_between(form: Option<Form>, from: &str, to: &str) -> Result<Asked, Wrong>
    ensures { result ≡ state_between form from.now to.now }
{
    match form {
        Some(form) => state_change(
            form,
            printed_number(from.as_bytes()),
            printed_number(to.as_bytes()),
        ),
        None => Err(Wrong::Form),
    }
}
