//! The session that a text spells.

ghost use Rattle.am_lexer.specs.Fields.{Gives};
ghost use Rattle.am_lexer.specs.Text.{words_of};
ghost use Rattle.am_session.specs.Answers.{Answers, Changes, Finishes, at_line};
ghost use Rattle.am_session.specs.Grammar as grammar;
ghost use Rattle.am_session.specs.Scripts.{IsPlayable};
ghost use Rattle.std.specs.Prelude.{◌≡◌, IfOk};

use crate::draft::Draft;
use crate::head::{Head, head_of};
use crate::lines::words_say;
use crate::script::{LineFault, SessionReadFault, SessionScript, SessionTextFault};
use am_lexer::{What, is_text, next_line, next_word};
use std::alloc::Global;

#[tactic(auto, unfolding(crate::specs::Grammar::placed))]
fn placed(draft: &Draft, head: Head) -> Result<Head, What>
    ensures { Gives (λ head. head) result (grammar.placed draft.now head) }
{
    let section = head.section();
    if draft.section == 0 && section != 1 {
        return Err(What::Missing);
    }
    if section < draft.section {
        return Err(What::OutOfPlace);
    }
    if section == 3 && draft.tries.is_none() {
        return Err(What::Missing);
    }
    Ok(head)
}

#[tactic(auto, unfolding(crate::specs::Grammar::after_words))]
fn take_words(number: u32, draft: &mut Draft, line: &[u8]) -> Result<(), LineFault>
    ensures { Changes result draft.new (grammar.after_words number draft.old (words_of line.now)) }
{
    let Some((first, rest)) = next_word(line) else {
        return Ok(());
    };
    if first.first() == Some(&b'#') {
        return Ok(());
    }
    let Some(named) = head_of(first) else {
        return Err(LineFault::What(What::UnknownWord));
    };
    let head = placed(draft, named)?;
    let line = words_say(draft, head, rest)?;
    draft.add(number, head.section(), line)?;
    Ok(())
}

#[tactic(auto, unfolding(crate::specs::Grammar::after_line))]
fn take_line(number: u32, draft: &mut Draft, line: &[u8]) -> Result<(), LineFault>
    ensures { Changes result draft.new (grammar.after_line number draft.old line.now) }
{
    if !is_text(line) {
        return Err(LineFault::What(What::NotText));
    }
    take_words(number, draft, line)
}

#[tactic(auto, unfolding(crate::specs::Grammar::whole))]
fn finish(draft: Draft) -> Result<SessionScript, What>
    ensures { Finishes result (grammar.whole draft) }
{
    match draft.tries {
        Some(tries) => Ok(SessionScript {
            tries,
            steps: draft.steps,
        }),
        None => Err(What::Missing),
    }
}

fn refused(line: u32, fault: LineFault) -> SessionReadFault
    ensures { result ≡ at_line line fault }
{
    match fault {
        LineFault::What(what) => SessionReadFault::Refused(SessionTextFault { line, what }),
        LineFault::NoMemory => SessionReadFault::NoMemory,
    }
}

/// The session that the bytes spell, or the line and the cause of their first fault (`specs/Grammar.antt`). A line's number stands
/// still at 2^32-1. Where there is no memory the answer is `NoMemory`.
pub fn read_session(alloc: Global, bytes: &[u8]) -> Result<SessionScript, SessionReadFault>
    ensures exact { Answers result (grammar.grammar bytes.now) }
    ensures playable { IfOk result IsPlayable }
{
    let mut draft = Draft::new(alloc);
    let mut number: u32 = 1;
    let mut rest = bytes;
    while let Some((line, after)) = next_line(rest) {
        if let Err(fault) = take_line(number, &mut draft, line) {
            return Err(refused(number, fault));
        }
        number = number.saturating_add(1);
        rest = after;
    }
    match finish(draft) {
        Ok(script) => Ok(script),
        Err(what) => Err(refused(number, LineFault::What(what))),
    }
}
