//! What each command gives to print.

ghost use Rattle.std.specs.Prelude.{◌≡◌, IfOk};
ghost use Rattle.am_main.specs.Answers.{AnswersTo};
ghost use Rattle.am_main.specs.Commands.{IsInRange};
ghost use Rattle.am_main_lines.specs.Lines.{answer_in};
ghost use Rattle.am_session.specs.Grammar as sessions;
ghost use Rattle.am_session.specs.Meaning.{SessionMeans};

use crate::commands::Command;
use am_main_lines::Output;
use am_main_run::counts::count_output;
use am_main_run::segments::segments_output;
use am_main_run::{make_output, run_output};
use am_main_step::{check_output, step_output};
use am_session::{SessionOutput, session_output};
use std::alloc::{AllocError, Global};
use std::thread::Threads;

// What `session` prints of a text.
fn played_output(alloc: Global, bytes: &[u8]) -> Result<Output, AllocError>
    ensures { IfOk result (λ output. SessionMeans (sessions.grammar bytes.now) (answer_in output)) }
{
    match session_output(alloc, bytes) {
        Ok(SessionOutput { status, text }) => Ok(Output { status, text }),
        Err(_) => Err(AllocError),
    }
}

/// An answer of the command to the bytes.
pub fn answer<R: Threads + Sync>(
    rt: &R,
    alloc: Global,
    command: Command,
    bytes: &[u8],
) -> Result<Output, AllocError>
    requires { IsInRange command }
    ensures { IfOk result (λ output. AnswersTo command bytes.now (answer_in output)) }
{
    match command {
        Command::Step => step_output(alloc, bytes),
        Command::Run => run_output(rt, alloc, bytes),
        Command::Make(n) => make_output(alloc, n),
        Command::Segments => segments_output(rt, alloc, bytes),
        Command::Session => played_output(alloc, bytes),
        Command::Count { nodes, turns } => count_output(rt, alloc, nodes, turns, bytes),
        Command::Check(form) => check_output(alloc, form, bytes),
    }
}
