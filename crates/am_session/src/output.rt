//! The answer to a text of a session.

ghost use Rattle.am_session.specs.Answer as answers;
ghost use Rattle.am_session.specs.Grammar.{grammar};
ghost use Rattle.am_session.specs.Meaning.{SessionHasOneAnswer, SessionMeans, answer_in};
ghost use Rattle.am_session.specs.Plays.{played};
ghost use Rattle.am_session.specs.Scripts.{IsPlayable};
ghost use Rattle.std.specs.Prelude.{◌≡◌, ◌≢◌, IfOk};

use crate::playing::{Played, play};
use crate::printing::condition_word;
use crate::reader::read_session;
use crate::report::session_report;
use crate::script::{SessionReadFault, SessionScript, SessionTextFault};
use crate::stops::Stop;
use am_lexer::What;
use am_names::NoMemory;
use std::alloc::{AllocError, Global};

/// A status, and the text that is printed with it.
#[derive(Drop)]
pub struct SessionOutput {
    /// 0 with a report, or 3 with one line that tells what was refused.
    pub status: u8,
    pub text: Vec<u8>,
}

#[tactic(auto, unfolding(crate::specs::Answer::what_word))]
fn what_word(what: What) -> &'static [u8]
    ensures { result.now ≡ answers.what_word what }
{
    match what {
        What::UnknownWord => b"unknown-word",
        What::BadNumber => b"bad-number",
        What::OutOfRange => b"out-of-range",
        What::Twice => b"twice",
        What::Missing => b"missing",
        What::Undeclared => b"undeclared",
        What::NotText => b"not-text",
        What::TooMany => b"too-many",
        What::OutOfPlace => b"out-of-place",
    }
}

#[tactic(auto, using(std::proofs::Common::append_assoc), unfolding(crate::specs::Answer::refused_line))]
fn refused_line(alloc: Global, fault: SessionTextFault) -> Result<Vec<u8>, AllocError>
    ensures { IfOk result (λ text. text.items ≡ answers.refused_line fault) }
{
    let mut text = Vec::new(alloc);
    text.extend_from_slice(b"refused line ")?;
    text.extend_from_slice(fault.line.to_string(alloc)?.as_bytes())?;
    text.extend_from_slice(b" ")?;
    text.extend_from_slice(what_word(fault.what))?;
    text.extend_from_slice(b"\n")?;
    Ok(text)
}

#[tactic(auto, using(std::proofs::Common::append_assoc), unfolding(crate::specs::Answer::not_enabled_line))]
fn not_enabled_line(alloc: Global, stop: Stop) -> Result<Vec<u8>, AllocError>
    ensures { IfOk result (λ text. text.items ≡ answers.not_enabled_line stop) }
{
    let mut text = Vec::new(alloc);
    text.extend_from_slice(b"refused line ")?;
    text.extend_from_slice(stop.line.to_string(alloc)?.as_bytes())?;
    text.extend_from_slice(b" not-enabled ")?;
    text.extend_from_slice(condition_word(stop.condition).as_bytes())?;
    text.extend_from_slice(b"\n")?;
    Ok(text)
}

fn output_of(alloc: Global, played: &Played) -> Result<SessionOutput, NoMemory>
    ensures { IfOk result (λ output. answer_in output ≡ answers.answer_of_played played.now) }
{
    match played.stopped {
        None => {
            let text = session_report(alloc, &played.entries)?;
            Ok(SessionOutput { status: 0, text })
        }
        Some(stop) => {
            let text = not_enabled_line(alloc, stop)?;
            Ok(SessionOutput { status: 3, text })
        }
    }
}

fn script_output(alloc: Global, script: &SessionScript) -> Result<SessionOutput, NoMemory>
    requires { IsPlayable script.now }
    ensures { IfOk result (λ output. answer_in output ≡ answers.answer_of_played (played script.now)) }
{
    let made = play(alloc, script)?;
    output_of(alloc, &made)
}

fn fault_output(alloc: Global, fault: SessionTextFault) -> Result<SessionOutput, NoMemory>
    ensures { IfOk result (λ output. answer_in output ≡ record { status = 3; text = answers.refused_line fault }) }
{
    let text = refused_line(alloc, fault)?;
    Ok(SessionOutput { status: 3, text })
}

/// The answer to a text: the report of the one history of its lines, which obeys the laws of a session; or the line of the first event
/// that can't happen and its first condition that fails; or the first fault of the text. Where there is no memory it answers
/// `NoMemory`.
pub fn session_output(alloc: Global, bytes: &[u8]) -> Result<SessionOutput, NoMemory>
    ensures answer { IfOk result (λ output. answer_in output ≡ answers.session_answer bytes.now) }
    ensures meaning { IfOk result (λ output. SessionMeans (grammar bytes.now) (answer_in output)) }
    ensures status { IfOk result (λ output. output.status ≢ 5) }
{
    match read_session(alloc, bytes) {
        Ok(script) => script_output(alloc, &script),
        Err(SessionReadFault::Refused(fault)) => fault_output(alloc, fault),
        Err(SessionReadFault::NoMemory) => Err(NoMemory),
    }
}

/// There is one answer to a text, by what it spells or its first fault, and it is the one that the definition of answering computes.
pub fn session_has_one_answer()
    ensures { SessionHasOneAnswer }
{}
