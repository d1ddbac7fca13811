//! The order of refusals of one line.

ghost use Rattle.std.specs.Prelude.{◌≡◌, ◌==◌, true};
ghost use Rattle.std.specs.List.{slice_index};
ghost use Rattle.am_lexer.specs.Text.{words_of, is_text_line};
ghost use Rattle.am_lexer.specs.Fields.{Gives};
ghost use Rattle.am_scenario.specs.Drafts.Drafts.{said};
ghost use Rattle.am_scenario.specs.Order.{placed, after_named, after_words, after_line};
ghost use Rattle.am_scenario.specs.Answers.{Changes};

use crate::drafts::{Draft, LineFault};
use crate::lines::{Head, head_of, words_say};
use am_lexer::{What, is_text, next_word};
use am_scenario_types::Form;
use std::alloc::Global;

#[tactic(auto, unfolding(crate::specs::Order::placed))]
fn placed(form: Form, draft: &Draft, head: Head) -> Result<Head, What>
    ensures { Gives (λ head. head) result (placed form (said draft.now) head) }
{
    let section = head.section();
    if draft.section == 0 && section != 1 {
        return Err(What::Missing);
    }
    if section < draft.section || !head.is_of_form(form) {
        return Err(What::OutOfPlace);
    }
    if section > 2 && !(draft.settings.network.is_some() && draft.settings.nodes.is_some()) {
        return Err(What::Missing);
    }
    Ok(head)
}

// Whether a line's first word says that the line is a comment.
fn is_comment(first: &[u8]) -> bool
    ensures { result ≡ (slice_index first.now 0 == 35) }
{
    match first.first() {
        Some(byte) => *byte == b'#',
        None => false,
    }
}

fn take_named(
    alloc: Global,
    form: Form,
    number: u32,
    draft: &mut Draft,
    first: &[u8],
    rest: &[u8],
) -> Result<(), LineFault>
    ensures { Changes result (said draft.new) (after_named form number (said draft.old) first.now (words_of rest.now)) }
{
    let Some(named) = head_of(draft.version, first) else {
        return Err(LineFault::What(What::UnknownWord));
    };
    let head = placed(form, draft, named)?;
    let line = words_say(alloc, form, draft, head, rest)?;
    draft.section = head.section();
    draft.add(number, line)?;
    Ok(())
}

fn take_words(
    alloc: Global,
    form: Form,
    number: u32,
    draft: &mut Draft,
    line: &[u8],
) -> Result<(), LineFault>
    ensures { Changes result (said draft.new) (after_words form number (said draft.old) (words_of line.now)) }
{
    match next_word(line) {
        Some((first, rest)) => {
            if is_comment(first) {
                return Ok(());
            }
            take_named(alloc, form, number, draft, first, rest)
        }
        None => Ok(()),
    }
}

/// Takes one line. Whether it is printable may be known before.
#[tactic(auto, unfolding(crate::specs::Order::after_line))]
pub fn take_line(
    alloc: Global,
    form: Form,
    number: u32,
    draft: &mut Draft,
    printable: bool,
    line: &[u8],
) -> Result<(), LineFault>
    requires { printable ≡ true → is_text_line line.now ≡ true }
    ensures { Changes result (said draft.new) (after_line form number (said draft.old) line.now) }
{
    if !(printable || is_text(line)) {
        return Err(LineFault::What(What::NotText));
    }
    take_words(alloc, form, number, draft, line)
}
