//! What is answered to a command.

ghost use Rattle.am_main.specs.Answers.{AnswersTo};
ghost use Rattle.am_main.specs.Commands.{IsInRange, reads_text};
ghost use Rattle.std.specs.Prelude.{Some};
ghost use Rattle.std.specs.Thread.{IsSync};

use crate::answers::answer;
use crate::commands::{Command, reads_text};
use am_main_answer::Question;
use am_main_lines::Output;
use am_names::NoMemory;
use std::alloc::Global;
use std::thread::Threads;

/// A command, and what starts its threads.
#[derive(Drop)]
pub(crate) struct Job<'a, R> {
    pub(crate) rt: &'a R,
    pub(crate) command: Command,
}

impl<'a, R: Threads + Sync> Question for Job<'a, R> {
    ghost is_in_range = { λ job. IsInRange job.command × IsSync R.row };

    ghost reads = { λ job. reads_text (Some job.command) };

    ghost answers = { λ job. AnswersTo job.command };

    fn reads_text(&self) -> bool {
        reads_text(self.command)
    }

    #[tactic(auto, using(crate::proofs::Statuses::answer_no_fault))]
    fn answer(&self, alloc: Global, bytes: &[u8]) -> Result<Output, NoMemory> {
        match answer(self.rt, alloc, self.command, bytes) {
            Ok(output) => Ok(output),
            Err(_) => Err(NoMemory),
        }
    }
}
