//! What is answered to what was asked for.

ghost use Rattle.am_lab.specs.Answers.{AnswersText, reads_text};
ghost use Rattle.am_lab_words.specs.Ranges.{IsInRange};
ghost use Rattle.std.specs.Prelude.{◌≡◌};

use crate::answers::answered;
use am_lab_words::Asked;
use am_main_answer::Question;
use am_main_lines::Output;
use am_names::NoMemory;
use std::alloc::Global;

/// What was asked for, and the words that a line of a report is to begin with, for `find` and `shrink`.
#[derive(Drop)]
pub(crate) struct Request<'a> {
    pub(crate) asked: Asked,
    pub(crate) given: &'a [u8],
}

// Whether a command needs a text from the source.
#[tactic(auto, unfolding(crate::specs::Answers::reads_text))]
fn reads_text(asked: Asked) -> bool
    ensures { result ≡ reads_text asked }
{
    match asked {
        Asked::Made(_) => false,
        _ => true,
    }
}

impl<'a> Question for Request<'a> {
    ghost is_in_range = { λ request. IsInRange request.asked };

    ghost reads = { λ request. reads_text request.asked };

    ghost answers = { λ request. AnswersText request.asked request.given.now };

    fn reads_text(&self) -> bool {
        reads_text(self.asked)
    }

    #[tactic(auto, using(crate::proofs::Statuses::text_no_fault))]
    fn answer(&self, alloc: Global, bytes: &[u8]) -> Result<Output, NoMemory> {
        let output = answered(alloc, self.asked, self.given, bytes)?;
        Ok(output)
    }
}
