//! What is answered to a question: the source is read here, where a text is needed.

ghost use Rattle.am_io.specs.Whole.{TakesAtMost};
ghost use Rattle.am_main_answer.specs.Answers.{IsDueTo, IsDueToText, IsFault};
ghost use Rattle.am_main_answer.specs.Replies.{answer_of};
ghost use Rattle.am_main_lines.specs.Offers.{no_memory};
ghost use Rattle.std.specs.Prelude.{◌≡◌, ◌≢◌, ◌⊎◌, ◌≤◌, false, length, true};

use crate::questions::Question;
use am_io::{Source, TakeFault, take_all};
use am_main_lines::Output;
use std::alloc::Global;

/// What is answered: what was made of a text, or a line that takes no memory.
#[derive(Drop)]
pub(crate) enum Reply {
    Output(Output),
    Line { status: u8, text: &'static [u8] },
}

impl Reply {
    /// The number that the process ends with, if the text is taken whole.
    pub(crate) fn status(&self) -> u8
        ensures { result ≡ (answer_of self.now).status }
    {
        match self {
            Reply::Output(output) => output.status,
            Reply::Line { status, .. } => *status,
        }
    }

    /// What is printed.
    pub(crate) fn text(&self) -> &[u8]
        ensures { result.now ≡ (answer_of self.now).text }
    {
        match self {
            Reply::Output(output) => &output.text,
            Reply::Line { text, .. } => text,
        }
    }
}

/// That there is no memory.
pub(crate) fn lacks_memory() -> Reply
    ensures { answer_of result ≡ no_memory }
{
    Reply::Line {
        status: 8,
        text: b"no memory\n",
    }
}

// The answer to the bytes, if there is memory for it.
fn answer_or_none<Q: Question>(alloc: Global, question: &Q, bytes: &[u8]) -> Reply
    requires in_range { Q.is_in_range question.now }
    requires few { length bytes.now ≤ 16777216 }
    ensures due { (answer_of result ≡ no_memory) ⊎ Q.answers question.now bytes.now (answer_of result) }
    ensures own { (answer_of result ≡ no_memory) ⊎ ¬ IsFault (answer_of result).status }
{
    match question.answer(alloc, bytes) {
        Ok(output) => Reply::Output(output),
        Err(_) => lacks_memory(),
    }
}

// Reads the source to its end.
#[tactic(auto, using(crate::proofs::Due::due_found, crate::proofs::Due::due_read_fault, crate::proofs::Due::due_too_long, crate::proofs::Due::due_no_memory, crate::proofs::Due::own_or_none, crate::proofs::Due::none_or_own))]
fn reply_to_text<Q: Question, S: Source>(
    alloc: Global,
    question: &Q,
    line: &'static [u8],
    source: &mut S,
) -> Reply
    requires in_range { Q.is_in_range question.now }
    requires fresh { S.has_ended source.old ≡ false }
    ensures due { IsDueToText line.now (Q.answers question.now) (S.left source.old) (S.count source.old) (S.count source.new) (answer_of result) }
    ensures writes { (answer_of result).status ≢ 5 }
    ensures memory { (answer_of result ≡ no_memory) ⊎ ((answer_of result).status ≢ 8) }
    ensures ended { ¬ IsFault (answer_of result).status → S.has_ended source.new ≡ true }
    ensures took { TakesAtMost 16777217 (S.left source.old) (S.left source.new) }
{
    match take_all(alloc, source) {
        Ok(bytes) => answer_or_none(alloc, question, &bytes),
        Err(TakeFault::Failed) => Reply::Line {
            status: 4,
            text: b"read fault\n",
        },
        Err(TakeFault::TooLong) => Reply::Line {
            status: 7,
            text: line,
        },
        Err(TakeFault::NoMemory) => lacks_memory(),
    }
}

/// What is answered to a question.
#[tactic(auto, using(am_io::proofs::Parts::took_none, crate::proofs::Due::due_to_text, crate::proofs::Due::due_unread, crate::proofs::Due::own_or_none, crate::proofs::Due::none_or_own))]
pub(crate) fn reply_to<Q: Question, S: Source>(
    alloc: Global,
    question: &Q,
    line: &'static [u8],
    source: &mut S,
) -> Reply
    requires in_range { Q.is_in_range question.now }
    requires fresh { S.has_ended source.old ≡ false }
    ensures due { IsDueTo (Q.reads question.now) line.now (Q.answers question.now) (S.left source.old) (S.count source.old) (S.count source.new) (answer_of result) }
    ensures writes { (answer_of result).status ≢ 5 }
    ensures memory { (answer_of result ≡ no_memory) ⊎ ((answer_of result).status ≢ 8) }
    ensures ended { Q.reads question.now ≡ true → ¬ IsFault (answer_of result).status → S.has_ended source.new ≡ true }
    ensures unread { Q.reads question.now ≡ false → source.new ≡ source.old }
    ensures took { TakesAtMost 16777217 (S.left source.old) (S.left source.new) }
{
    if question.reads_text() {
        reply_to_text(alloc, question, line, source)
    } else {
        answer_or_none(alloc, question, &[])
    }
}
